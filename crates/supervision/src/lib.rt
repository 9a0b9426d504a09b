//! The session numbers of supervised commands, at both ends (Supervision Command Class).
//!
//! Sessions of a node are numbered 1, 2, 3 without end, and a message carries six bits of the number. `HostNode` is
//! what the sender keeps: it begins a session only once the one before has its final report, and accepts a report only
//! for the session that is open. `DeviceBook` is what the device keeps: it takes each session once, and answers a
//! repeat with the status that it kept.
//! The laws `once_only` and `both_ends` say what holds of both ends whatever is lost, repeated or reordered. The
//! definitions are in `specs/`: `Session`, `Host`, `Device`, `Ends`, `Once`.
#![tactic(auto)]

mod device_book;
mod host_node;
mod laws;
mod session;

pub use device_book::{DeviceBook, Heard};
pub use host_node::{BeginFault, HostNode, MAX_ATTEMPTS, Told};
pub use laws::{ages_are_exact, both_ends, once_only, worked_run};
pub use session::{FAIL, NO_SUPPORT, SUCCESS, WIRE_IDS, WORKING, session_id};
