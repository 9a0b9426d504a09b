//! The command `sim` of the program: the world runs a scenario that is read from a text.
//!
//! It promises which lines were run, and that what they did are the events of their schedules; that what is written is
//! the text of the entries of these events and the last lines that the status adds, or a prefix of it; and the cause of
//! each status.
//! The definitions are in `specs/Sim`.
#![tactic(auto)]

mod running;
mod sim;
mod simulation;

pub use sim::run_sim;
