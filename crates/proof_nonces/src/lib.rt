//! The nonces of a host alone, by its transcript.
//!
//! Each message that a host asks its chip to send sealed is sealed for a nonce that its node told after the host had asked for one, and nothing else was sealed
//! for that node since (`hosts_seal_once`). The nonces that the host gives have numbers; each Nonce Report gives one, in order, and the nonce of a number
//! opens one payload at most (`hosts_count_nonces`). So it is of all lines (`lines_seal_once`, `lines_count_nonces`).
//! The definitions are in `specs/`: `Sealing` and `Giving` (the laws), `Known` and `Counted` (what is known at each phase). `proofs/Payloads` has which
//! payloads are of Security 0, `Queued` what waits to be asked, `Since` what stays with further entries, `Taking` where a nonce is taken, and `Walking`
//! the walk over what is sealed. `Ordered` has lists in order, `Accounts` the nonces that are given and drawn, `Reports` those that are sent and wait,
//! `Opening` what was judged and opened, and `Counting` the walk over them; `Grounds` is what both walks need. `Standing` computes whether a
//! question stands, and `Unsealed` that nothing is sealed, for a rejected and a worked transcript (`rejected_seals`, `worked_seals`).
#![tactic(auto)]

mod giving;
mod sealing;
mod worked;

pub use giving::{hosts_count_nonces, lines_count_nonces};
pub use proof_notes::{
    answers_stand_after_their_lines, ends_of_tasks_are_told, hosts_ask_as_told,
    hosts_fall_asleep_as_told, hosts_hold_as_asked, hosts_hold_as_told, hosts_keep_what_is_said,
    hosts_know_their_work, hosts_know_what_nodes_list, hosts_know_what_was_told,
    hosts_listen_as_told, hosts_note_in_full, hosts_run_series_as_told, hosts_say_what_is_not_kept,
    hosts_show_open_sessions, hosts_tell_of_ends, hosts_tell_of_sleep,
    interviews_give_what_is_known, laws_follow, lines_are_a_hosts, lines_are_answered,
    lines_fall_asleep_as_told, lines_hold_as_asked, lines_note_in_full, lines_say_what_is_not_kept,
    lines_tell_what_nodes_list, machines_are_read_as_hosts, orders_are_carried_as_said,
    tables_are_what_was_said, tasks_end_in_order, the_machine_keeps_facts,
    what_is_heard_is_a_hosts,
};
pub use sealing::{hosts_seal_once, lines_seal_once};
pub use worked::{rejected_counts, rejected_seals, worked_seals};
