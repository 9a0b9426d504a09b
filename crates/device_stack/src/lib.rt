//! What every simulated device has in common: what it keeps, what messages, ticks and hands do to it, and what it
//! answers.
//!
//! `Stack` has one method for each thing that may happen to a device. Each contract says the new state and the answers
//! exactly, as a function of the state before, and that a call that runs out of memory leaves the device unchanged.
//! `device_kinds` says what a kind is, how its commands are judged, what a message does to a device and how answers are
//! worded. `Stack` is private to `device_sim`, which gives the kinds their types.
//!
//! The definitions are in `specs/`: `State`; `Effects` for an unwrapped message, and `Answers` for the reports of
//! sessions; `Hearing` for how messages arrive and leave; `Ticking`, `Showing`.
#![tactic(auto)]

mod answers;
mod effects;
mod hearing;
mod sealing;
mod segments;
mod stack;
mod ticking;
mod work;

pub use device_kinds::{Change, Kind};
pub use stack::Stack;
