//! The command `generate` of the program: the world runs a scenario that is made from a number, and it is summed up.
//!
//! It promises which lines were run, and that what they did are the events of their schedules; that what is written is
//! the summary of the entries of these events, or a prefix of it; and the cause of each status.
//! The definitions are in `specs/Generate`.
#![tactic(auto)]

mod generate;
mod generated;
mod summary;

pub use generate::run_generate;
