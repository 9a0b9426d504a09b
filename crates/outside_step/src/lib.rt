//! What is outside the host, except the devices, one step at a time: the chip, the air, the serial line and time, as
//! one value.
//!
//! It promises of each call what it does to that state and what entries it makes. On an allocation failure nothing is
//! promised about state or entries, unless an `err` clause says that they are unchanged. The states, and what each step
//! does to them, are defined in `outside_model`; `specs/Pieces` of this crate has the size of pieces. Which events a
//! call is, and what the devices do, is in `outside_calls` above.
#![tactic(auto)]

mod air;
mod entering;
mod lines;
mod nodes;
mod outputs;
mod outside;
mod results;
mod serial;

pub use air::tell_sent;
pub use entering::put_all;
pub use outside::OutsideCore;
pub use serial::tell_cleared;
