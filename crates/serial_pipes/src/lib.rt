//! One direction of the serial line between host and chip: the bytes on their way, and the marks of units to be lost or
//! changed.
//!
//! It promises that what each event does to a direction, and what is told of a unit that is written, are functions of
//! the direction before, and that an event for which memory runs out is not done.
//! The definitions are in `specs/`: `State` (what a direction is) and `Events` (what happens to it).
#![tactic(auto)]

mod marks;
mod pipe;
mod way;

pub use marks::{Garble, Mark};
pub use pipe::CAPACITY;
pub use way::Way;
