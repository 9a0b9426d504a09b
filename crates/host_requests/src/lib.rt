//! The requests of the host to its chip: the one that is under way, those that wait, the abort that is owed, and the
//! callback ids.
//!
//! It promises exactly what each event does to them, and that after `new` no event allocates.
//! The definitions are in `specs/`: `Frames` (what is asked of the chip), `State` (what is kept), `Next` (what an event
//! makes of the request under way), `Events` (one event at a time), `Facts` and `Interviews` (what holds at all times).
#![tactic(auto)]

mod end;
mod frame;
mod laws;
mod next;
mod requests;
mod task;
mod under_way;

pub use end::{End, How};
pub use laws::{callback_ids, each_request_ends, interviews_are_whole, requests_stay_valid};
pub use requests::{QUEUE_CAPACITY, Requests};
pub use task::{Purpose, Task};
pub use under_way::{Progress, UnderWay};
