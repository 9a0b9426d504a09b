//! What a host alone knows of its nodes and of what it was asked, by its transcript: how it answers, and what it stores, shows, records and notes.
//!
//! A host alone (`proof_alone`) hears what its nodes list in interviews. What it judged is known at each step (`proof_waking`), so of each node it knows what
//! its transcript shows it to have listed last (`hosts_know_what_nodes_list`). By that each order stands in its table as it was said
//! (`hosts_keep_what_is_said`), the values that it stores are those that commands confirm, the values that it shows are those that the transcript gives
//! (`hosts_show_what_they_keep`), its records are what is shown (`hosts_record_what_is_shown`), and each line has its answer (`hosts_answer_lines`). All of it
//! is one record (`hosts_do_as_is_said`). What it notes of messages was told in what it judged (`hosts_note_what_was_told`).
//! The definitions are in `specs/Known` and `specs/Noted`. `proofs/Events` says which events a host alone does where; `Listing` and `Hearing` are of
//! interviews, `Knowing`, `Saying`, `Telling`, `Showing`, `Recording`, `Answering` and `Noting` (over `Followers`) are the walks; `ForHost` is of what the host
//! heard of a run.
#![tactic(auto)]

mod answers;
mod known;
mod noted;
mod records;
mod shown;

pub use answers::{hosts_answer_lines, hosts_do_as_is_said};
pub use known::{hosts_keep_what_is_said, hosts_know_what_nodes_list, hosts_know_what_was_told};
pub use noted::{hosts_note_what_was_told, rejected_telling, worked_telling};
pub use proof_transcript::{
    answers_stand_after_their_lines, interviews_give_what_is_known, laws_follow,
    lines_are_answered, lines_tell_what_nodes_list, orders_are_carried_as_said,
    tables_are_what_was_said, the_machine_keeps_facts,
};
pub use proof_waking::{
    hosts_wake_as_told, lines_are_a_hosts, lines_wake_as_told, machines_are_read_as_hosts,
    what_is_heard_is_a_hosts,
};
pub use records::hosts_record_what_is_shown;
pub use shown::hosts_show_what_they_keep;
