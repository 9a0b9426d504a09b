//! The commands that wait for a node, at most sixteen, and whether the node counts as awake and is held so (Wake Up
//! Command Class).
//!
//! It promises first come first served, cancelling by number, a hold of a hundred ticks, and that after `new` no call
//! allocates. The definitions are in `specs/Mailbox.antt`.
#![tactic(auto)]

mod mailbox;

pub use mailbox::{CAPACITY, Full, HOLD_TICKS, Mailbox, NotWaiting, a_hold_lasts_a_hundred_ticks};
