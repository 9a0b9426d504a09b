//! The frames that went on the air: which of them are still on it, which can be repeated, and how old they are.
//!
//! It promises that the last 4,097 frames are kept in memory that is allocated at the start, and older ones only while
//! they are on the air; that a repeat is refused exactly when its frame was never sent, is forgotten or is stale; and
//! that the ages, which are differences of counts, are those that the whole history gives.
//! The definitions are in `specs/`: `Frames` (what is kept), `Ages` (what is refused), `History` (all frames ever sent,
//! with the sessions that began between them).
#![tactic(auto)]

mod ages;
mod frame;
mod frames;
mod laws;
mod nonces;
mod peer;

pub use ages::{
    MAX_LATER_FRAMES, MAX_LATER_SESSIONS, MAX_LATER_SESSIONS_OF_SEGMENTS, MAX_NEW_NONCES, Refusal,
};
pub use frame::{Departure, Frame, Heading};
pub use frames::{Frames, KEPT_FRAMES};
pub use laws::{ages_are_those_of_the_history, what_is_kept_is_of_the_history};
pub use nonces::{Nonces, is_new, nonce_of};
pub use peer::Peer;
