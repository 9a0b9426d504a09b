//! The events of a host that have a record, and the host that takes up its records.
//!
//! It promises that such an event is recorded first, and is then done whole or, if the record was not kept, left out;
//! that nothing is done on an allocation failure; and that a record is taken up exactly when it may follow what the
//! host has. `specs/` has what the answers say: `Choices` for the event that it was, `Opening` for a Security message,
//! `Restoring` for a record.
#![tactic(auto)]

mod nonces;
mod opening;
mod orders;
mod reports;
mod restoring;
mod sessions;

pub use host_step::HostCore;
pub use nonces::{give, take_nonce};
pub use opening::{Opened, open};
pub use orders::{cancel, interviewed, join};
pub use reports::finish;
pub use restoring::restore;
pub use sessions::begin;
