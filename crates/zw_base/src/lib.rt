//! What every crate of this project speaks of: nodes, end points, lists of bytes, payloads, properties, settings and
//! orders.
//!
//! It also has the three traits of what is outside the program. It promises that an id is in its range, that a list
//! that runs out of memory is unchanged, and that a source or a sink answers `Failed` only if its count of faults rose.
//! The definitions are in `specs/`, named like the modules; `proofs/Each` has lemmas on lists that the library lacks.
#![tactic(auto)]

mod bytes;
mod crc;
mod digits;
mod end_point;
mod fixed_draw;
mod list;
mod memory;
mod memory_sink;
mod memory_source;
mod node;
mod order;
mod outside;
mod payload;
mod plain;
mod profile;
mod property;
mod property_word;
mod sequence;
mod standard;

pub use bytes::Bytes;
pub use crc::crc_ccitt;
pub use digits::push_number;
pub use end_point::{EndPoint, read_end};
pub use fixed_draw::FixedDraw;
pub use list::List;
pub use memory::NoMemory;
pub use memory_sink::MemorySink;
pub use memory_source::MemorySource;
pub use node::{MAX_NODE, NodeId, controller, node_after, read_node};
pub use order::{Order, What, Word};
pub use outside::{Draw, Failed, Sink, Source};
pub use payload::{Payload, Replies};
pub use plain::{PlainSink, PlainSource};
pub use profile::Profile;
pub use property::{By, Name, Property, Setting, properties_in_order};
pub use sequence::Sequence;
pub use standard::{StdSink, StdSource};
