//! The queue of requests of a host alone, by its transcript.
//!
//! Lines and nodes ask a host for what it is to ask its chip, 64 may wait, and `law_time` says by the transcript what does (`Queue`). Along each careful run of
//! a host alone (`Careful` of `proof_alone`), by messages of each payload that the host took up (`hosts_go_by_messages`), that is what waits in the host, in
//! the same order, wherever the host looks what is next (`hosts_queue_as_told`). So lines are refused for places, and messages dropped, just where 64 wait, and
//! requests go by the queue (`hosts_fit_their_queue`).
//! A node that has woken may be due its No More Information: a look then finds just those nodes that the host's next pump lets sleep, in the same order
//! (`hosts_let_sleep_as_told`), over any run.
//! The definitions are in `specs/`: `Waiting` (what waits), `Heeding` (by which messages the host goes), `Turn` (that requests go by it) and `Sleeping` (which
//! nodes a pump lets sleep).
//! `proofs/Knowing` has what is known at each phase and stage, `Walking` the walk, over `Saying` (lines), `Ticked` (the host's part of a tick), `Heeded` (what
//! is judged) and `Pumping`, and `Along` what it makes of a run; `Pace` has the stages by the transcript. Below them `Books` and `Ties` have what waits after
//! more entries, `Loose`, `Frames`, `Noted` and `Closing` those that leave it, the host's frames, its notes, and looks; `Refused` and `Asking` lines,
//! `Undropped` and `Stills` events that leave what waits, and `Sleepers` nodes that have not woken. `Orders` has the order of those that are due, `Looks` what
//! a look adds, `Tells` who is told, `Joined` which nodes joined, `Pumped`, `Sleeps` and `Seeing` that a look finds those that a pump lets sleep, and
//! `Dropping` and `Ending` what goes on with events. `Puts` has messages that are put into the queue, `Segments` the segment that is asked for again, `Kept`
//! what follows a payload, `Messages` and `Payloads` what a node wants by it, and `Choosing` what is chosen along a run.
#![tactic(auto)]

mod fits;
mod going;
mod queued;
mod sleeping;

pub use fits::{hosts_fit_their_queue, hosts_go_by_messages};
pub use going::{rejected_going, worked_going};
pub use proof_attempts::{hosts_ask_as_told, hosts_show_open_sessions, hosts_tell_of_sleep};
pub use proof_known::{hosts_keep_what_is_said, hosts_know_what_nodes_list};
pub use proof_sending::orders_are_carried_as_said;
pub use queued::hosts_queue_as_told;
pub use sleeping::hosts_let_sleep_as_told;
