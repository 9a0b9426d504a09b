//! What a payload makes of the course of a host's notes.
//!
//! The law of the host's notes is a course (`law_host`): what is noted is told before it stands, by what was chosen, and with the books of the nonces. Here one
//! payload that a host alone judged, without any walk: where the course has the books and the queue of the host, each event after the payload has noted just
//! what the course notes next, by what that event chose, and the books go together again (`payloads_are_heard`). What that asks of the host is so along its
//! runs (`hosts_have_points`).
//! The definitions are in `specs/`: `Books` (how the books of a course stand to a host) and `Hearing` (what an event makes of a payload).
//! `proofs/Putting` has a book among books, `Alike` what events leave at the nodes, `BooksGo` how books go with an event, `Wanted` that no segment is wanted
//! where the host has none, `Unsealing` what a sealed payload opens to, `OneMessage` one message with its event, `OnePayload` all messages, and `Grows` that
//! notes are only added. For walks there are besides `Sent`, what a new request makes of the books,
//! `Around`, what it leaves, and a restart, and `Beginning`, the books at first, and what the law of nonces asks of them.
#![tactic(auto)]

mod payloads;
mod points;

pub use payloads::payloads_are_heard;
pub use points::hosts_have_points;
pub use proof_choice::{
    hosts_are_prompt, hosts_ask_as_told, hosts_count_attempts, hosts_count_nonces,
    hosts_fall_asleep_as_told, hosts_give_up_as_told, hosts_go_by_messages, hosts_hold_as_asked,
    hosts_know_their_work, hosts_know_what_they_choose, hosts_know_what_was_told, hosts_note_ends,
    hosts_note_in_full, hosts_queue_as_told, hosts_say_what_is_not_kept, hosts_seal_once,
    hosts_show_open_sessions, hosts_tell_of_ends, lines_count_nonces, lines_fall_asleep_as_told,
    lines_hold_as_asked, lines_leave_nothing, lines_note_ends, lines_note_in_full,
    lines_say_what_is_not_kept, lines_seal_once,
};
