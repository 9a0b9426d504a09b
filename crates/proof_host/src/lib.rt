//! What every host keeps true of its transcript, whatever the chip sends, whatever its keeper does and however often it
//! restarts.
//!
//! Each law is the contract of a function with an empty body, over the definitions of `host_model`. `specs/Entries` has
//! the entries of an event, `specs/Laws` and `specs/Stores` what holds of them, and `specs/Facts` the families of facts
//! that every event keeps, which tie the entries to the tables of the host. The induction is `first_facts_hold`,
//! `events_keep_facts`, `outcomes_are_told`, `asides_keep_facts` and `restarts_keep_facts`; `laws_follow` and
//! `hosts_keep_laws` are its result. `lives_keep_laws` says the same of a host that starts again and again from its
//! records; `records_keep_facts` begins from any legal records, whoever left them (`specs/RecordsTold`).
#![tactic(auto)]

mod laws;
mod lives;
mod records;

pub use host_model::{
    a_host_begins_with_what_is_kept, a_pump_ends, a_restart_keeps_what_is_held,
    attempts_have_what_they_give, events_do_what_their_records_do, facts_are_kept,
    nodes_are_told_in_few_turns, records_of_events_are_legal,
};
pub use law_transcript::sessions_rise;
pub use laws::{
    asides_keep_facts, events_keep_facts, first_facts_hold, hosts_keep_laws, laws_follow,
    outcomes_are_told, restarts_keep_facts, values_are_in_order, what_is_over_stays,
    wrong_transcripts_are_rejected,
};
pub use lives::{lives_keep_facts, lives_keep_laws, what_is_kept_starts_a_host};
pub use records::records_keep_facts;
