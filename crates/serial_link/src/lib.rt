//! The serial link between host and chip: each good frame is answered once, and an own frame is sent up to four times
//! until acknowledged.
//!
//! It promises that what a link puts out obeys the rules of `specs/Rules`, whatever is heard, ticked, submitted and
//! asked for, and it says each answer exactly.
//! The definitions are in `specs/`: `Rules` (over whole histories) and `State` (one event at a time).
#![tactic(auto)]

mod link;
mod out;
mod turn;

pub use link::Link;
pub use out::{LinkOut, SubmitFault};
pub use turn::Turn;
