//! What the host knows of the properties of its nodes: the value that a final report confirmed, and the value last
//! heard.
//!
//! The two never mix. The crate promises that what is kept is a finite map from node and property to these values, that
//! a node has at most 512 properties, that confirming a reserved property neither allocates nor is refused, and that
//! what was reserved can be released again, which leaves nothing.
//! The definitions are in `specs/`: `Values` for the map, `ValueText` for its JSON, `Entries` for how it is kept.
#![tactic(auto)]

mod entries;
mod json;
mod laws;
mod store;
mod stored;

pub use laws::what_is_released_is_undone;
pub use store::{MAX_PROPERTIES, Store};
pub use stored::{Held, StoreFault, Stored};
