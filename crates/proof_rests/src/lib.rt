//! What a host alone leaves undone where it rests.
//!
//! Where the last request is over by the transcript the host is free, and a host that is free and has pumped has no task left and owes no abort (`proof_work`).
//! Each Set, Get and interview that a line asks for is a task until it ends, and its end is told; so where the host rests each has ended
//! (`hosts_leave_nothing`), in all lines (`lines_leave_nothing`).
//! The definitions are in `specs/Undone` (the law, and what a rest is) and `specs/Known` (what is known at each phase). `proofs/Freeing` has that the host is
//! free. `Entries` has entries of which nothing is asked, `Counting` how many of a kind were asked for, have ended and are left, `Wanted` the two kinds, and
//! `Walking` the walk over them; `Interviewing` an interview that was not kept. `AtRests` is the walk from what is so where the host rests to the law, and
//! `Done` has what is so there.
#![tactic(auto)]

mod rests;
mod worked;

pub use proof_nonces::{
    answers_stand_after_their_lines, hosts_ask_as_told, hosts_count_nonces,
    hosts_fall_asleep_as_told, hosts_hold_as_asked, hosts_hold_as_told, hosts_keep_what_is_said,
    hosts_know_their_work, hosts_know_what_nodes_list, hosts_know_what_was_told,
    hosts_listen_as_told, hosts_note_in_full, hosts_run_series_as_told, hosts_say_what_is_not_kept,
    hosts_seal_once, hosts_show_open_sessions, hosts_tell_of_ends, hosts_tell_of_sleep,
    interviews_give_what_is_known, laws_follow, lines_are_a_hosts, lines_are_answered,
    lines_count_nonces, lines_fall_asleep_as_told, lines_hold_as_asked, lines_note_in_full,
    lines_say_what_is_not_kept, lines_seal_once, lines_tell_what_nodes_list,
    machines_are_read_as_hosts, orders_are_carried_as_said, tables_are_what_was_said,
    tasks_end_in_order, the_machine_keeps_facts, what_is_heard_is_a_hosts,
};
pub use rests::{hosts_leave_nothing, lines_leave_nothing};
pub use worked::{rejected_rests, worked_rests};
