//! What every run of the machine keeps true of its transcript, over all lines, losses, delays, repeats and restarts.
//!
//! Each law is the contract of a function with an empty body, over the definitions of `world_model`.
//! `the_machine_keeps_facts` is the induction over the events of the machine. `restarts_go_on` says that a host that
//! starts from its records continues as the one before. `runs_keep_laws` and `runs_take_once` are the result for the
//! transcript and for the devices.
//! They assume that interviews are of joined nodes, that what is sent is short, and that a host that starts again is
//! told its records. Runs of lines give these three (`lines_ask_well`, `lines_keep_and_ask_well`,
//! `runs_keep_and_ask_well`).
//! The facts and the laws are those of `proof_host` and `proof_device`. The definitions are in `specs/`: `Restarts`
//! (what is assumed of the keeper's records), `Devices`, `Lines` (what lines ask of the host) and `Asking` (what the
//! host keeps of it).
#![tactic(auto)]

mod lines;
mod machine;

pub use lines::{lines_ask_well, lines_keep_and_ask_well, runs_keep_and_ask_well};
pub use machine::{restarts_go_on, runs_keep_laws, runs_take_once, the_machine_keeps_facts};
pub use proof_device::{devices_go_on, devices_stay_the_same};
pub use proof_serial::{hosts_write_well, units_are_judged_whole};
