//! The air: the frames between node 1, the controller, and the devices; what becomes of each, and which are repeated.
//!
//! It promises that each call is a list of steps whose effect and whose events are functions of the air and the devices
//! before; that only the first device of a frame's node changes, by its own step; and that a repeat is refused exactly
//! when the frame was never sent, is forgotten or is stale.
//! The definitions are in `specs/`: `Air` (what the air is, and frames that go on it), `Fates` (what becomes of a
//! frame), `Steps` (what may happen, its effect and its events). The history of all frames is that of `air_frames`.
#![tactic(auto)]

mod air;
mod arrivals;
mod devices;
mod event;
mod fate;
mod repeats;

pub use air::Air;
pub use devices::place_in;
pub use event::{AirEvent, RepeatFault, TRANSMIT_NO_ACK, TRANSMIT_OK};
