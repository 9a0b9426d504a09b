//! Messages in their wraps: Multi Command, Supervision Get, Multi Channel, CRC-16, from the inside out and in this
//! order only.
//!
//! The wraps are those of the Transport-Encapsulation Command Class Specification. `wrap` writes what a plan says, and
//! `unpack` gives the plan and the commands back.
//! The definitions are in `specs/`: `Begins`, `Wraps`, `Opening`, `Faults`.
#![tactic(auto)]

mod batch;
mod begins;
mod fault;
mod layers;
mod opening;
mod plan;
mod wrappable;
mod wrapping;

pub use fault::WrapFault;
pub use opening::unpack;
pub use plan::{Ends, Opened, Outer, Plan, Supervised};
pub use wrappable::is_wrappable;
pub use wrapping::wrap;
