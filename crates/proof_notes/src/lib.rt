//! What a host alone notes of the payloads that it hears, in full and in order.
//!
//! What a host notes of messages was told in what it judged (`proof_known`). Here the other way: after each payload that it judged stand exactly the notes of
//! its messages, one message after another, before anything else is done (`hosts_note_in_full`): the outcome of the open session with what it confirms, old
//! reports, values, what is not read, and that a node is awake. So it is of all lines (`lines_note_in_full`). And that a record was not kept is said only
//! among these notes, where an interview may end, or where a session is to begin (`hosts_say_what_is_not_kept`, `lines_say_what_is_not_kept`).
//! The definitions are in `specs/Full` and `specs/Unkept`. `proofs/ByMessage` has what one message has noted, by the tables of the host and by the transcript,
//! `ByPayload` all messages of a payload, event by event, `ByEntry` how notes stand after further entries, and `Walking` is the walk; `Lacking` is the one
//! of what is not kept, and `Along` has what both go over.
#![tactic(auto)]

mod notes;
mod unkept;
mod worked;

pub use notes::{hosts_note_in_full, lines_note_in_full};
pub use proof_attempts::{
    ends_of_tasks_are_told, hosts_ask_as_told, hosts_fall_asleep_as_told, hosts_hold_as_asked,
    hosts_hold_as_told, hosts_know_their_work, hosts_leave_nonces, hosts_listen_as_told,
    hosts_run_series_as_told, hosts_show_open_sessions, hosts_tell_of_ends, hosts_tell_of_sleep,
    lines_are_a_hosts, lines_fall_asleep_as_told, lines_hold_as_asked, tasks_end_in_order,
    what_is_heard_is_a_hosts,
};
pub use proof_known::{
    answers_stand_after_their_lines, hosts_keep_what_is_said, hosts_know_what_nodes_list,
    hosts_know_what_was_told, interviews_give_what_is_known, laws_follow, lines_are_answered,
    lines_tell_what_nodes_list, machines_are_read_as_hosts, orders_are_carried_as_said,
    tables_are_what_was_said, the_machine_keeps_facts,
};
pub use unkept::{hosts_say_what_is_not_kept, lines_say_what_is_not_kept};
pub use worked::{rejected_notes, rejected_unkept, worked_notes};
