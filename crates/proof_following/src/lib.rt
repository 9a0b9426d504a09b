//! How the course of a host's notes follows the host.
//!
//! The law of all notes is a course over the transcript (`law_host`). Here, step by step, what the course makes of what happens is what the host notes of it:
//! the end of a request by a frame and without one (`ends_make_notes`), after each frame that a host alone judges (`hosts_end_by_frames`,
//! `hosts_end_interviews`), and in a tick (`ticks_make_notes`, `ticks_go_by_nodes`); the acknowledgement of a frame (`frames_are_judged`,
//! `hosts_judge_frames`); and entries and ticks at which nothing is to be noted, and notes that are due (`entries_go_on`). That the course of a whole run fits
//! is not said.
//! The definitions are in `specs/Ended` (ends) and `specs/Quiet` (where nothing is noted). `proofs/Ending` has ends, `Framing` a frame that is judged,
//! `HostEnds`, `Hearing`, `Judging` and `Informing` the same in a host; `Ticking`, `LateEnds`, `TickNotes` and `Silent` have ticks, `Entering`, `Coming` and
//! `Acks` single entries.
#![tactic(auto)]

mod following;
mod hosts;

pub use following::{
    ends_make_notes, entries_go_on, frames_are_judged, ticks_go_by_nodes, ticks_make_notes,
};
pub use hosts::{hosts_end_by_frames, hosts_end_interviews, hosts_judge_frames};
pub use proof_ends::{
    hosts_ask_as_told, hosts_count_nonces, hosts_fall_asleep_as_told, hosts_hold_as_asked,
    hosts_hold_as_told, hosts_keep_what_is_said, hosts_know_their_work, hosts_know_what_nodes_list,
    hosts_know_what_was_told, hosts_leave_nothing, hosts_listen_as_told, hosts_note_ends,
    hosts_note_in_full, hosts_run_series_as_told, hosts_say_what_is_not_kept, hosts_seal_once,
    hosts_show_open_sessions, hosts_tell_of_ends, hosts_tell_of_sleep, laws_follow,
    lines_count_nonces, lines_fall_asleep_as_told, lines_hold_as_asked, lines_leave_nothing,
    lines_note_ends, lines_note_in_full, lines_say_what_is_not_kept, lines_seal_once,
    orders_are_carried_as_said, tables_are_what_was_said, tasks_end_in_order,
};
