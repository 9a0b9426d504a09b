//! The command `replay` of the program: the host alone, on lines and on bytes of a chip.
//!
//! It promises which lines were run, and that what they did are events of the host that are these lines' schedule; that
//! what is written is the text of the entries of these events and the last lines that the status adds, or a prefix of
//! it; and the cause of each status.
//! The definitions are in `specs/`: `Machine` (a host alone and its events), `Lines` (which events a line is) and
//! `Replay` (the run).
#![tactic(auto)]

mod effects;
mod entering;
mod machine;
mod refusals;
mod replay;
mod run;
mod table;

pub use run::run_replay;
