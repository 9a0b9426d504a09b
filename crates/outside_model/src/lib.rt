//! What may happen outside the host, to the chip, the air, the serial line, time and the devices, as definitions.
//!
//! It has the state, its events, and which events a call is. The code that does them is above, in `outside_calls`; what
//! is proved of every run depends on this crate alone.
//! It promises that lists of events can be joined (`outer_lists_go_on`). The definitions are in `specs/`: `State` (what
//! there is), `Chip`, `Results`, `Air`, `Devices` and `Nodes` (what is done with what chip, air and devices give),
//! `Events`, `Did` (lists of events) and `Schedules` (which list a call is).
#![tactic(auto)]

mod laws;
mod waits;

pub use laws::outer_lists_go_on;
pub use waits::{Call, Due};
