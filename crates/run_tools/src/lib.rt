//! The commands of the program that run no host: `check` names bytes, `events` runs the reports of devices.
//!
//! It promises what each command reads and writes at each status, and the cause of each status. The definitions are in
//! `specs/`: `Input` (an input that is read whole), `Check` and `Events`.
#![tactic(auto)]

mod check;
mod event_machine;
mod events;
mod input;

pub use check::run_check;
pub use events::run_events;
pub use input::{InputFault, read_input};
