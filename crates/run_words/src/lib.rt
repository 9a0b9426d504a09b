//! The words after the program's name: which command they ask for, or that they are no command.
//!
//! It promises that the words of each command are accepted exactly when its command line accepts them, and what is
//! asked then. The definitions are in `specs/`: `Commands` (the command lines) and `Asked` (what their matches ask
//! for).
#![tactic(auto)]

mod asked;
mod commands;

pub use asked::{Asked, USAGE, WordsFault};
pub use commands::read_words;
