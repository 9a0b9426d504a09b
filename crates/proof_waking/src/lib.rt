//! What a host has judged, by its transcript, and that nodes count as awake as they tell.
//!
//! A host alone (`proof_alone`) acknowledges each frame of the chip as it judges it, and what it notes on it follows. So the frames that it has judged, by
//! its transcript, are those that it judged; and while events that follow one of them are to come, what was judged here is that frame
//! (`hosts_judge_as_told`). That is the ground for each law of what a host notes on what it heard. The first of them: a node counts as awake where it tells
//! so, and wherever it does (`lines_wake_as_told`).
//! The definitions are in `specs/Judged`: the tie, at each phase of a host alone. `proofs/Apart` has entries that tell of no frame, `Followed` which events
//! follow a frame, `Parts` what each part of a host puts out, `Settling` what is owed after a frame, and `Judging` the walk.
#![tactic(auto)]

mod judged;
mod waking;

pub use host_model::{
    a_host_begins_with_what_is_kept, a_restart_keeps_what_is_held, facts_are_kept,
};
pub use judged::hosts_judge_as_told;
pub use proof_alone::{
    frames_fly_in_order, hosts_answer_what_is_asked, hosts_keep_their_tables, hosts_obey_the_line,
    hosts_tell_time, lines_are_a_hosts, lines_make_requests, machines_are_read_as_hosts,
    outsides_make_requests, what_is_heard_is_a_hosts,
};
pub use waking::{hosts_wake_as_told, lines_wake_as_told};
