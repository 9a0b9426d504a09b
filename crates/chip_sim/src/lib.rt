//! The simulated chip: it reads the host's bytes, answers requests, gives payloads for the air and tells the host what
//! became of them.
//!
//! Each thing that happens to it is one event. A call says which events were done; `specs/Events` says what the chip is
//! after each of them and what it puts out. An event allocates its memory first, or is not done.
//! The definitions are in `specs/`: `State` (what the chip is), `Waiting` (frames for the host), `Answers` and
//! `Requests` (what the host asks), `Events`, `Did` (what calls did) and `Rules` (what holds over whole histories).
#![tactic(auto)]

mod answers;
mod chip;
mod laws;
mod marks;
mod out;
mod port;
mod post;
mod requests;
mod waiting;

pub use chip::Chip;
pub use laws::{rules_of_events, rules_of_histories};
pub use out::{ChipOut, Sending};
pub use waiting::MAX_WAITING;
