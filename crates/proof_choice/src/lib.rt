//! Which of its sessions a host alone sends next, and that nothing is left at a rest, by its transcript.
//!
//! A host alone (`proof_alone`) sends an abort that is owed, then what has waited longest (`proof_queue`), and then what the sessions of its nodes have to
//! send, each node in its turn. Along careful runs, by the messages that it took up, all that it goes by where it submits and where it rests is as its
//! transcript tells (`hosts_know_what_they_choose`); so it sends in turn (`hosts_send_in_turn`) and rests well (`hosts_rest_well`), and with the other laws
//! of its requests it is prompt (`hosts_are_prompt`).
//! The definitions are in `specs/`: `Nodes` and `Turning` (what is known of each node, and of the host), `Waits`, `Served`, `Blocked`, `Plans`, `Ready` and
//! `Counting` (its parts), `Choosing` and `Resting` (what the two laws want besides the order of what waits, and of what lines asked for), and `Readying`
//! (when a message is ready, at each phase).
//! `proofs/Whole` puts together what is known, over `Wanting` (what waits, and attempts), `Served` and `ServedTie` (the node that was served last), `Failures`
//! and `BlockedTie` (nodes that are blocked), `Staying` and `Plans` (what is given) and `Owners` (nodes with work joined). `Parts` has what is to be sent,
//! `Turns` whose turn it is, `Choices` and `Choosing` what is submitted, `InTurn` the law of turns, `Resting` that of rests, and `Along` what a walk makes
//! of a run.
//! Messages that are ready go along each run by `ReadyAlong`, over `ReadyWalk` (each step), `ReadyTie`, `ReadyGoes` and `Readies` (events), `ReadyStarts` (a
//! host that starts), and `ReadyFrames` (a frame that is judged) with `ReadyJudged` and `Nonces` (which nonce is taken after a payload) and `Unended` (that
//! the request is still under way by the transcript).
#![tactic(auto)]

mod known;
mod laws;
mod prompt;

pub use known::{hosts_block_as_told, hosts_give_as_carried};
pub use laws::{hosts_know_what_they_choose, hosts_rest_well, hosts_send_in_turn};
pub use prompt::hosts_are_prompt;
pub use proof_following::{
    hosts_ask_as_told, hosts_count_nonces, hosts_fall_asleep_as_told, hosts_hold_as_asked,
    hosts_know_their_work, hosts_know_what_was_told, hosts_listen_as_told, hosts_note_ends,
    hosts_note_in_full, hosts_say_what_is_not_kept, hosts_seal_once, hosts_show_open_sessions,
    hosts_tell_of_ends, laws_follow, lines_count_nonces, lines_fall_asleep_as_told,
    lines_hold_as_asked, lines_leave_nothing, lines_note_ends, lines_note_in_full,
    lines_say_what_is_not_kept, lines_seal_once, orders_are_carried_as_said,
    tables_are_what_was_said,
};
pub use proof_giving::{
    hosts_count_attempts, hosts_give_up_as_told, hosts_go_by_messages, hosts_queue_as_told,
};
