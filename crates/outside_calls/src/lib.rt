//! What is outside the host: the chip, the air, the two directions of the serial line, time, and the devices that are
//! handed in.
//!
//! Each call is a list of small events, and its contract says which events they are. What each event does and which
//! entries it has is defined in `outside_model`; `outside_step` carries it out, except what the devices do. On an
//! allocation failure a prefix of the events was done, each whole and with all its entries, and of one more the device
//! may have done its part. A run ends there, and nothing is said of the rest. This crate itself defines only how a
//! device's doings are named (`specs/Acting`).
#![tactic(auto)]

mod acting;
mod air;
mod dealing;
mod devices;
mod lines;
mod nodes;
mod outside;
mod results;
mod serial;

pub use devices::list_device;
pub use outside::Outside;
