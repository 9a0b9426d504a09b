//! What the payload of a node tells the host: a session's report, a nonce or a request for one, a wake-up, a wanted
//! segment, or values.
//!
//! It promises that a payload tells exactly what the grammar of messages says, all of it or nothing.
//! The definitions are in `specs/Telling.antt`.
#![tactic(auto)]

mod payload;
mod told;
mod values;

pub use payload::{Heard, read_payload};
pub use told::Told;
