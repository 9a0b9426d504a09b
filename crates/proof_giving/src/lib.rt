//! The attempts of a series of a host alone, by its transcript, step by step and along its runs.
//!
//! A transcript tells of each node how many attempts of its series have begun, what the last one has sent, and when that is over (`Attempts` of
//! `law_time`). The attempts of several nodes are those of each, and grow entry by entry (`attempts_grow_by_entries`). They are tied to a node of the
//! host, at its own time, with its request: whether that is of them while it is under way, and once it is over whether it has ended badly (`AttemptsSo`).
//! Each event of a node keeps the tie (`nodes_go_with_attempts`). So does each step that is told here: a request that is submitted is of an attempt of
//! the node that is served, and of no other (`attempts_go_with_requests`); it ends badly by the transcript just where its end is bad for the attempt in
//! the host (`attempts_end_badly_as_told`), which stays so (`bad_ends_stay`, `attempts_stay_with_the_request`, `segments_tell_what_follows`); its end,
//! and a tick of a node, end attempts (`attempts_end_with_requests`, `attempts_end_as_told`); a frame that is acknowledged gives signs
//! (`attempts_go_with_frames`); other entries and time leave them (`attempts_stay_by_entries`), and a session that begins, or a host that starts, begins
//! them anew (`attempts_begin_with_sessions`). Where the host rests no command is to be given up (`attempts_leave_none_to_give_up`). So it is along careful
//! runs (`hosts_count_attempts`, `hosts_rest_with_none_to_give_up`), and a command counts as unanswered just where it is to be given up
//! (`hosts_give_up_as_told`, `hosts_give_up_after_three`).
//! The definitions are in `specs/`: `Told` (the attempts of one node), `Tie`, `Stays` (sessions and orders that stay) and `Walking` (at each phase).
//! `proofs/Told` and `Over` have how they grow, `Begun` which payloads go on with an attempt, `Asking` requests that are submitted, `Badly` whether one
//! has ended badly by how it stands, `Stays` that it stays so, `EndsSo` and `Finished` its end, `NodesGo` and `HostGoes` what nodes do, `Segments`,
//! `Orders` and `Inner` that a segment is told to be followed by others as before, `Along`, `Acked` and `Quiet` the other steps, and `AtRest` what
//! follows at rest. Of a host alone, at each phase of a run: `Framed` has an item that is judged, `Requesting` the request that hears of it, `Ticked`
//! each part of a tick, `Interviewed`, `Staying` and `Mild` the other events, and `Asked` what a line asks; `Walked` has the walk, `Counted` what it
//! makes of a run, and `Rested` what follows at rests; `GivesUp` and `Given` where commands are given up, `Prompt` and `Promptly` that they are directly.
#![tactic(auto)]

mod attempts;
mod ends;
mod entries;
mod nodes;
mod requests;
mod rest;
mod runs;

pub use attempts::attempts_grow_by_entries;
pub use ends::{
    attempts_end_badly_as_told, attempts_stay_with_the_request, bad_ends_stay,
    segments_tell_what_follows,
};
pub use entries::{attempts_begin_with_sessions, attempts_stay_by_entries};
pub use nodes::nodes_go_with_attempts;
pub use proof_queue::{hosts_go_by_messages, hosts_queue_as_told};
pub use requests::{
    attempts_end_as_told, attempts_end_with_requests, attempts_go_with_frames,
    attempts_go_with_requests,
};
pub use rest::attempts_leave_none_to_give_up;
pub use runs::{
    hosts_count_attempts, hosts_give_up_after_three, hosts_give_up_as_told,
    hosts_rest_with_none_to_give_up, ticks_begin_at_rest,
};
