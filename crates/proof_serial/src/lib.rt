//! What every run keeps true of the serial line: each side judges whole units of the other, in order.
//!
//! This holds whatever is lost, changed, dropped, cleared, cut or stalled on the line. Each law is the contract of a
//! function with an empty body, over the definitions of `world_model`. The definitions are in `specs/`: `Way` (one
//! direction, and what becomes of a unit that is written), `Chip` (the frames that the chip may write), `Line` (both
//! directions, what an event does to them, and where each side rests), `Units` (what is judged, as units that were
//! written) and `Host` (what the host may write, and what of that is assumed).
#![tactic(auto)]

mod laws;

pub use laws::{hosts_write_well, units_are_judged_whole, what_is_judged_was_written};
