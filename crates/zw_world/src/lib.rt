//! The world of the simulator: a host, and the chip, the air, the serial line, time and the devices outside it.
//!
//! It runs the lines of a scenario. What happens between host and outside without a line, settling and ticks, is in
//! `world_step`. It promises that a line is a list of events of the machine of `world_model`, which list that is, and
//! that what it enters are the entries of these events. If memory ran out, some events were done that account for the
//! devices and for what the keeper holds, with a prefix of their entries. No law is here: what is kept of past events
//! is proved of the machine.
#![tactic(auto)]

mod effects;
mod refusing;
mod restarting;
mod table;
mod world;

pub use world::World;
