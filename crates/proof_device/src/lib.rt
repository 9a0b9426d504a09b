//! What every run keeps true of the devices alone, whatever happens on the way to them and whatever the host does.
//!
//! Each device proceeds by events of its own, stays the device that it is, and changes at most once by each session, in
//! their order; and the transcript shows its changes. Each law is the contract of a function with an empty body, over
//! the definitions of `outside_model` and `world_model`. `specs/GoingOn` says what becomes of a list of devices, and
//! `specs/Showing` what a transcript shows of them.
#![tactic(auto)]

mod laws;

pub use laws::{changes_are_shown, devices_go_on, devices_stay_the_same, devices_take_once};
