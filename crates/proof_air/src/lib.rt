//! The laws of the air that every run keeps, whatever is lost, delayed or repeated, and wherever an allocation failure cuts it short.
//!
//! Each is the contract of a function with an empty body, over lines that are said one after another (`world_lines`) and the events of the machine that each
//! line is, and is proved on the walk of `proof_walk`. `history_goes_on` ties the history of
//! the air to the transcript, at each phase of a line. Of repeats: `lines_repeat_what_is_fresh`, and
//! `lines_refuse_what_is_old` after whole lines. Of what comes to the controller: `handlers_go_on`, over the history of the air, and with it
//! `lines_bring_what_was_heard`. Of when frames have their fate: `landings_go_on`, over the history of the air and over time, and with it `lines_land_in_time`.
//! Of who does what is entered of devices: `lines_are_done_by_devices`.
//! The definitions are in `specs/`: `Logs` (the history of the air that a transcript shows, and its tie to the history that the air keeps), `Hearing` (what
//! is known of it at each phase of a line), `Carrying` (what is known of the frames that the chip holds for the host), `Landing` (what is known of the
//! frames that have had their fate) and `Doing` (what is known of who does what).
#![tactic(auto)]

mod carrying;
mod doings;
mod history;
mod landing;
mod repeats;

pub use carrying::{handlers_go_on, lines_bring_what_was_heard};
pub use doings::lines_are_done_by_devices;
pub use history::history_goes_on;
pub use landing::{landings_go_on, lines_land_in_time};
pub use proof_walk::{
    a_host_begins_with_what_is_kept, a_restart_keeps_what_is_held, asides_keep_facts,
    attempts_have_what_they_give, changes_are_shown, facts_are_kept, laws_follow, time_goes_on,
};
pub use repeats::{lines_refuse_what_is_old, lines_repeat_what_is_fresh};
