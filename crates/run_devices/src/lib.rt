//! The devices of the program: one for each node, of the kind that its number tells.
//!
//! It promises that a device is made as its maker leaves it, of that kind. The definition is in `specs/Devices`.
#![tactic(auto)]

mod devices;

pub use devices::{FIRST, KEY, LAST, Made, make_device};
