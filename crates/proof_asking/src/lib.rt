//! What a host alone asks its chip to send is due, by what it heard; and how each Set or Get that a line asked for has ended is said.
//!
//! What the host has to send has its reason by its own tables and by what it heard (`proof_sending`): so it is at each step of a host alone
//! (`proof_alone`), whatever bytes came, since it has judged what the transcript shows to have come, and knows of each node what that listed in its last
//! interview (`proof_known`). So each payload that it asks to be sent is due by the transcript (`hosts_send_what_is_due`).
//! Where the request of a host ends it ends by the transcript, in that way and there (`proof_requests`). A Set or Get that is no part of a session is a command
//! of a class that lines ask for, as no other payload is; so what was due is that a line asked for it, and how it ended is said of it and of no other
//! (`ends_say_how_done`; `errands_are_carried`), along each run of a host alone (`hosts_say_how_done`) and in all lines (`lines_say_how_done`).
//! Requests stand one after another, messages with the callback ids in turn, and each session that begins with its unit (`hosts_ask_one_by_one`).
//! The definitions are in `specs/Asking`: what is known at each phase, and `specs/Numbers`: the same of ids and sessions that begin. `proofs/Leaving` has
//! entries that leave what came of the chip, `Telling` what the host enters, and `Walking` the walk. `proofs/Sent` has what the last request carries, and
//! that it was due; `proofs/SaidDone` reads off that how it ended. `proofs/Numbering` is the walk over requests, ids and sessions that begin.
#![tactic(auto)]

mod errands;
mod numbers;
mod sends;

pub use errands::{ends_say_how_done, errands_are_carried, hosts_say_how_done, lines_say_how_done};
pub use numbers::{hosts_ask_one_by_one, lines_ask_one_by_one};
pub use proof_known::{
    hosts_answer_lines, hosts_do_as_is_said, hosts_note_what_was_told, hosts_record_what_is_shown,
    hosts_wake_as_told, lines_are_answered, lines_wake_as_told,
};
pub use proof_requests::{
    hosts_answer_questions, hosts_end_interviews, hosts_keep_their_tables, hosts_listen_as_told,
    hosts_obey_the_line, hosts_tell_time, lines_answer_questions, lines_are_a_hosts,
    lines_end_interviews, what_is_heard_is_a_hosts,
};
pub use proof_sending::{
    lines_clear_at_restarts, lines_clear_nowhere_else, lines_clear_the_line,
    lines_collide_when_asked, lines_keep_links, lines_mark_units, lines_overrun_only_when_full,
    lines_overrun_when_full, lines_send_what_is_due, ticks_are_told,
};
pub use sends::hosts_send_what_is_due;
