//! What a host does with the bytes of its chip, item by item, and with what nodes send in them, message by message.
//!
//! It promises which events of `host_model` each piece of bytes is, one after another: an item is answered, the request
//! under way hears of it, and each message of a node is treated as what it is. On an allocation failure a prefix of
//! them happened. `specs/Calls` has the words for what a call of a host did, which the calls of `host_core` share;
//! `specs/Updates` says what a notice of the chip brings.
#![tactic(auto)]

mod judging;
mod messages;
mod nonces;
mod reports;
mod values;

pub use judging::feed;
