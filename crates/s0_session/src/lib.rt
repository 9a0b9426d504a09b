//! The nonces of Security 0 that one side gives, and the plain texts that wait for a nonce of the other.
//!
//! It promises that a nonce opens at most one message: at most one is live for a node, it is given again until it is
//! spent, and it is spent once. It also promises that a plain text is sealed once, for a nonce that counts as new or as
//! the last.
//! The definitions are in `specs/`: `Nonces` for the book, `Calls` for its laws, `Sending` for the sender.
#![tactic(auto)]

mod account;
mod book;
mod calls;
mod sender;

pub use account::Account;
pub use book::NonceBook;
pub use calls::{
    at_most_one_is_spent_between_new_ones, each_nonce_is_spent_once_or_live, new_nonces_are_counted,
};
pub use sender::Sender;
