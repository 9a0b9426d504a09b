//! What a device of each kind is, what a message does to it, and how it words what it says.
//!
//! A `Journal` has the changes of a device, and the values that they give. `judge_message` says what the commands of a
//! session come to, and `tell` how a Get is answered. `Grounds` are what a device judges a message by: its kind, its
//! journal and its sessions, all borrowed. `Grounds::effect` says what an unwrapped message does, and changes nothing.
//! The other functions word what a device says: answers in the wraps of what they answer, the reports of nonces and of
//! segments.
//! Each contract says the result exactly; a call that runs out of memory changes nothing. How messages arrive and
//! leave, and how sessions are counted, is the part of `device_stack`.
//!
//! The definitions are in `specs/`: `Kind`; `Values` of changes, and `Cache`, what a journal keeps beside them;
//! `Settings` and `Places`, how settings are put together; `Judging` and `Telling`; then `Effects`, `Answers` with
//! `Worded` for how long they are, and `Segments`.
#![tactic(auto)]

mod answers;
mod change;
mod effect;
mod effects;
mod journal;
mod judging;
mod kind;
mod sealing;
mod segments;
mod settings;
mod telling;
mod verdict;

pub use answers::{answered, bare, send, session, status_of};
pub use change::Change;
pub use effect::Effect;
pub use effects::Grounds;
pub use journal::Journal;
pub use judging::{Bench, judge_message, one_setting};
pub use kind::{HOST, Kind, SECURITY, SUPERVISION, TRANSPORT_SERVICE, WAKE_UP, node, root};
pub use sealing::{is_sealed, nonce_report};
pub use segments::{complete, is_last_of, request, segment_session};
pub use settings::is_same;
pub use telling::{report, tell};
pub use verdict::Verdict;
