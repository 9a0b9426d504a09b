//! Each device is, in every run, what it lived by the transcript; what it replied is what its node sent; and each frame meets the fate that is due.
//!
//! Each is the contract of a function with an empty body, over lines that are said one after another (`world_lines`) and the events of the machine that
//! each line is. `devices_live_on`, the tie, is proved on the walk of `proof_walk`, over the history of the air and over time; `lines_live_as_shown`
//! follows from it after whole lines, and `devices_listen_as_shown` where frames arrive or are repeated, by `devices_are_as_shown`. Where the nodes that are
//! joined are known as well, the same walk ties what a device replied to the frames of its node: `lines_run_as_shown` after whole lines,
//! `lines_run_as_far` where the last was cut short, and `devices_do_at_once` before each entry; `devices_did` is all of it as one law.
//! What becomes of each frame, and why, is `lines_meet_what_is_due`; that a repeat is heard where it is asked for, `lines_repeat_what_is_asked`. Both are over
//! the life of each device, the history of the air (`proof_air`), time, the networks and the frames on the air (`proof_routes`); and so is `acks_go_on`, the
//! tie of the marks that lose acknowledgements.
//! The definitions are in `specs/`: `Living` (what came to a device, how many ticks it lived and what it answered, by the transcript, at each phase of a
//! line), `LastLine` (lines with events more of the last one), `Answering` (what stands directly after a line that repeats a frame, over that history),
//! `Meeting` (which fate is due, over the ways of the frames that the transcript shows) and `Acks` (what is known of the marks that lose acknowledgements).
#![tactic(auto)]

mod devices;
mod did;
mod fates;

pub use devices::{
    devices_are_as_shown, devices_do_at_once, devices_listen_as_shown, devices_live_on,
    lines_live_as_shown, lines_run_as_far, lines_run_as_shown,
};
pub use did::devices_did;
pub use fates::{acks_go_on, lines_meet_what_is_due, lines_repeat_what_is_asked};
pub use proof_air::{
    history_goes_on, landings_go_on, lines_are_done_by_devices, lines_bring_what_was_heard,
    lines_land_in_time, time_goes_on,
};
pub use proof_routes::{
    dead_hops_are_forgotten, dead_hops_are_forgotten_in_the_end, frames_go_by_route, frames_go_on,
    networks_go_on,
};
