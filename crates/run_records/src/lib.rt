//! The keeper of the program: over memory, or over a file.
//!
//! It promises that it tells what the one tells that it is. The definitions are in `specs/Records`.
#![tactic(auto)]

mod records;

pub use records::Records;
