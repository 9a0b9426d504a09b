//! Both ends of the exchange that gives a new lock the network key (Security 0): the host's and the lock's.
//!
//! It promises that each call's effect and replies are a function of the state before, and that a call that runs out of
//! memory changes nothing. Nonces, sealers and seals are those of `s0_session` and `s0_crypto`.
//! The definitions are in `specs/`: `Messages` (payloads), `Sealing` (what is sent when a nonce comes), `Joining` (the lock),
//! `Including` (the host).
#![tactic(auto)]

mod exchange;
mod fault;
mod includer;
mod joiner;
mod message;
mod sealing;

pub use exchange::{EXCHANGE_TICKS, Exchange};
pub use fault::AddFault;
pub use includer::Includer;
pub use joiner::Joiner;
pub use message::{Message, SCHEME_GET};
