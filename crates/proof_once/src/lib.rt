//! Once only, and the confirmed value: what the tables of a host and a device give for the transcript when a course
//! ties them.
//!
//! Each law is the contract of a function with an empty body: `courses_tie_their_ends`, `restarts_keep_ties`,
//! `ties_go_on`, `devices_change_in_sessions`, `ties_keep_once_only`, `ties_confirm_what_was_set`, `endings_are_shown`,
//! and for the words of `law_transcript` `laws_of_transcripts_follow` and `headlines_follow`. The definitions are in
//! `specs/`: `Tied` for what is assumed, `ByTable` for what follows, `InSessions` for devices alone.
#![tactic(auto)]

mod laws;

pub use laws::{
    courses_tie_their_ends, devices_change_in_sessions, endings_are_shown, headlines_follow,
    laws_of_transcripts_follow, restarts_keep_ties, ties_confirm_what_was_set, ties_go_on,
    ties_keep_once_only,
};
pub use proof_device::{changes_are_shown, devices_go_on, devices_stay_the_same};
pub use proof_host::{
    asides_keep_facts, events_keep_facts, first_facts_hold, laws_follow, restarts_keep_facts,
    what_is_over_stays,
};
pub use proof_messages::{
    devices_end_sessions, hosts_leave_nonces, messages_do_what_is_asked,
    messages_follow_the_course, messages_open, others_are_no_messages, reports_tell, segments_tell,
};
