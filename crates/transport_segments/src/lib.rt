//! Datagrams that are too long for one frame, cut into segments and put together again (Transport Service Command
//! Class).
//!
//! `cut` gives the segments of a datagram. An `Assembler` takes segments in any order, with any repeats, and gives the
//! datagram exactly when its last missing byte arrives.
//! The definitions are in `specs/`: `Segment`, `Faults`, `Parts`, `Reassembly`, `Runs`.
#![tactic(auto)]

mod assembler;
mod cutting;
mod fault;
mod laws;
mod places;
mod segment;

pub use assembler::{Assembler, Taken};
pub use cutting::{SEGMENT_LEN, cut};
pub use fault::SegmentFault;
pub use laws::{segments_are_parts, segments_give_the_datagram, segments_keep_agreement};
pub use segment::{ends_datagram, segment_id};
