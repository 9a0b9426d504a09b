//! The two sides of the serial line, the host and what is outside it, and what happens between them without a line of a
//! scenario.
//!
//! It promises which events of the machine of `world_model` a settling is, in which bytes move until none does, and
//! which events a number of ticks are; and that what is entered are the entries of these events. If memory ran out,
//! some events were done that account for the devices and for what the keeper holds, with a prefix of their entries.
//! What a line itself does is in `zw_world` above.
#![tactic(auto)]

mod routing;
mod settling;
mod sides;
mod taking;
mod ticking;

pub use sides::Sides;
