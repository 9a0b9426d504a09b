//! That no attempt of a node is given up over a stretch of quiet lines and ticks, and each command is over in time, with the outcome that is due.
//!
//! It promises what devices and host make of the messages and the reports of sessions: a device that takes what is not sealed answers the message of the next
//! session, or of the last, with one report, and ends its work in five ticks (`messages_are_answered`); and the host ends a session at a final report of it,
//! and waits anew at a report of work (`reports_are_taken`). A device that takes what is not sealed is in step with the host over any lines, and where it is at
//! work it is at the last session of the host, and is to tell the end (`nodes_stay_in_step`); and the orders for a node that lists neither Security 0 nor
//! Transport Service go whole, and unsealed (`orders_go_unsealed`), so that the kinds of their devices tell which nodes are such (`nodes_are_plain_by_kind`);
//! where it lists the latter alone, they go unsealed. So over a stretch of lines for nodes with such devices that listen, or for one that
//! sleeps, the wait of no attempt of these runs out (`waits_never_run_out`): while one runs, its request, its message or the report of its device is on its
//! way, or that is at work; where a node sleeps, as long as its device stays awake once it was woken, as it does over the ticks that its commands need. So it
//! is for one node alone that takes segments: these are on their way, each that the device asks for too (`open_waits_never_run_out`). And each command that
//! waits or is open is over within as many ticks as there are of them, and seven more, or 24 where its messages may go in segments, for each session up to its
//! own (`commands_end_in_time`); so the entries have the final outcome of each command that was accepted or waited (`outcomes_come_in_time`), for 16 nodes
//! within 500 ticks after the last order (`stretches_end_in_time`). And a final outcome is the one that the kind of the device says, on the values that it had
//! as the session began, of a lock too (`outcomes_are_as_judged`, `stretches_end_as_judged`, `stretches_are_answered`; `locks_end_as_judged` where its kind
//! says that it is one). A lock is in step with the host over any lines (`locks_stay_in_step`), answers each payload of a sealed exchange (`locks_are_asked`);
//! the host gives and takes its part of that (`hosts_exchange_nonces`), and ends a session at its sealed report (`sealed_reports_are_taken`). There is no code
//! here.
//! The definitions are in `specs/`: `Answering` (what a device that is asked comes to, and tells), `Reporting` (what the host makes of that), `InStep` (which
//! devices are in step, and from what that follows), `Coming` (what is on its way while an attempt runs, at each phase, and within how many ticks the host is
//! told), `Parts` (so of an attempt that gives segments), `Trail` (so where its device has taken the session), `Open` (so of one node alone), `Owed`, `Untold`
//! (what tells the end of no session), `Sleeping` (what is assumed of the device of a node that sleeps), `InHand` (when the session of a command is over, and
//! the ticks until then), `Plainly` (what asks the host for nothing), `Exchange` (what is on its way while an attempt of a lock runs), `SealedHosts`, `Openly`,
//! `Judging`, `Locks` and `Stretch`.
#![tactic(auto)]

mod answering;
mod exchange;
mod in_hand;
mod in_step;
mod in_time;
mod labels;
mod locking;
mod locks;
mod openly;
mod orders;
mod outcomes;
mod reporting;
mod sealed;
mod sealing;
mod verdicts;

pub use answering::{messages_are_answered, segments_are_answered};
pub use exchange::{hosts_go_on_in_exchanges, locks_go_on_in_exchanges, locks_stay_as_they_were};
pub use in_hand::commands_end_in_time;
pub use in_step::nodes_stay_in_step;
pub use in_time::waits_never_run_out;
pub use labels::what_locks_say_is_in_their_courses;
pub use locking::locks_never_run_out;
pub use locks::{locks_end_as_judged, locks_stay_in_step};
pub use openly::open_waits_never_run_out;
pub use orders::{commands_go_sealed, nodes_are_plain_by_kind, orders_go_unsealed};
pub use outcomes::{outcomes_come_in_time, stretches_end_in_time};
pub use proof_answered::{
    hosts_are_tended, listeners_hear, nodes_are_woken_last, work_in_order_means,
};
pub use proof_course_plain::{devices_go_on, devices_stay_the_same};
pub use proof_course_sealed::locks_as_made_begin_courses;
pub use reporting::reports_are_taken;
pub use sealed::{locks_are_asked, sealed_reports_are_taken};
pub use sealing::{exchanges_are_submitted, hosts_exchange_nonces};
pub use verdicts::{outcomes_are_as_judged, stretches_are_answered, stretches_end_as_judged};
