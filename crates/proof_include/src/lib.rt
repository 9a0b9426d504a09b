//! That an exchange of `include` ends well: with a lock that took no key before after any events, and with each lock
//! without a key after any lines.
//!
//! This includes a lock that had a key and was reset. The crate promises that the host's count of a lock's nonces never
//! drifts from the lock's own, whatever is lost, repeated or reset, since each frame is heard at the next tick, or
//! while fewer than 120 new nonces were shown since. There is no code here.
//! The definitions are in `specs/`: `Ending` (when an exchange ends well), `Lines` (worlds that lines lead to), `Adding`
//! (an `add` and ticks, as a transcript shows them).
#![tactic(auto)]

mod laws;

pub use laws::{added_locks_become_secure, exchange_ends, exchange_ends_for_each, lines_lead_on};
