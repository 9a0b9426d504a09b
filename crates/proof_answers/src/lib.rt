//! What the chip writes to the host in every run: the frames that it has for the host by the transcript, in order.
//!
//! It is the contract of a function with an empty body, over lines that are said one after another (`world_lines`), and is proved on the walk of `proof_walk`
//! beside all that `proof_chip` and `proof_devices` know: `chips_answer_in_order`.
//! The definitions are in `specs/`: `Owing` (what comes of the requests of a tick, and what is still owed of it), `Telling` (that what the chip was given is
//! what it has for its host, at each phase of a line) and `Answered` (that with both links, by the same steps, and what follows of a run).
#![tactic(auto)]

mod answered;

pub use answered::chips_answer_in_order;
pub use proof_chip::{
    lines_keep_and_ask_well, restarts_go_on, runs_take_once, the_machine_keeps_facts,
};
pub use proof_devices::{
    dead_hops_are_forgotten, dead_hops_are_forgotten_in_the_end, devices_did, frames_go_by_route,
    lines_are_done_by_devices, lines_bring_what_was_heard, lines_land_in_time,
    lines_meet_what_is_due, lines_repeat_what_is_asked,
};
