//! What the ends of a host's requests, and of the attempts of its nodes, have noted, in full and in order.
//!
//! How each end is told was proved note by note (`proof_requests`, `proof_attempts`, `proof_asking`). Here together: each transcript of a host alone, and of
//! lines, is read from its start as entries that stand beside, and as the notes of one end after another, which stand together and once, in the order errand,
//! sleep, answer or interview, outcome; no request is asked before the last one is over, and none has ended with its notes to come where a line or a tick
//! begins (`hosts_note_ends`, `lines_note_ends`). Whether an attempt was the third one is not said.
//! The definitions are in `specs/Ends`, and in `specs/Ascending` which nodes are to tick. `proofs/Standing` has entries that stand beside, `Noting` what an end
//! notes, `Walking` is the walk, and `Readings` says what a reading has where it is said last how a Set or Get ended.
#![tactic(auto)]

mod ends;
mod worked;

pub use ends::{hosts_note_ends, lines_note_ends};
pub use proof_rests::{
    hosts_ask_as_told, hosts_count_nonces, hosts_fall_asleep_as_told, hosts_hold_as_asked,
    hosts_hold_as_told, hosts_keep_what_is_said, hosts_know_their_work, hosts_know_what_nodes_list,
    hosts_know_what_was_told, hosts_leave_nothing, hosts_listen_as_told, hosts_note_in_full,
    hosts_run_series_as_told, hosts_say_what_is_not_kept, hosts_seal_once,
    hosts_show_open_sessions, hosts_tell_of_ends, hosts_tell_of_sleep, laws_follow,
    lines_count_nonces, lines_fall_asleep_as_told, lines_hold_as_asked, lines_leave_nothing,
    lines_note_in_full, lines_say_what_is_not_kept, lines_seal_once, orders_are_carried_as_said,
    tables_are_what_was_said, tasks_end_in_order,
};
pub use worked::{rejected_ends, worked_ends};
