//! The host of a Z-Wave controller chip, one event at a time: its state, and a call for each thing that may happen to
//! it.
//!
//! It promises that each call does its whole event, with all that it puts out, or does nothing on an allocation
//! failure. Of an event that has a record, this crate has the change (`changes`), and `host_step_kept` keeps the record
//! first; `accept` alone does both. `host_parts` does what an event does to the parts that it touches; here the parts
//! are one host, which has its facts after each event. The events, and what each changes, are defined in `host_model`.
//! `specs/` has only what the calls add: `Changes` for words that are missing there, `Sessions` for what is found of an
//! open session, and `Inside`.
#![tactic(auto)]

mod accepting;
mod changes;
mod host;
mod line;
mod nonces;
mod orders;
mod reports;
mod restarting;
mod sessions;
mod submitting;
mod ticks;
mod values;

pub use host::HostCore;
pub use host_parts::{Command, Start, keep_record};
