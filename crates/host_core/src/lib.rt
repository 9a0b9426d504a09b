//! The host of a Z-Wave controller chip: an object that bytes, ticks and orders drive, over a keeper of records.
//!
//! It accepts orders or refuses them, carries each as a session of at most three attempts a series, and reports what
//! became of it. It interviews nodes, sends Sets and Gets, gives and takes nonces, and lets nodes wake and sleep.
//! Everything that it must not forget is kept as a record before it takes effect.
//! It promises which events each call is, and that what a host counts as begun or accepted stands in the records of its
//! keeper (`tables_stand_in_the_records`, defined in `specs/Recorded`). The events, and the calls that they make up, are
//! defined in `host_model`. What bytes of the chip do to a host is in `host_step_bytes`, whose `specs/Calls` has the
//! words of this crate's clauses.
#![tactic(auto)]

mod host;
mod laws;
mod listing;
mod opening;
mod orders;
mod pumping;
mod refusals;
mod sleeping;
mod ticking;

pub use host::Host;
pub use host_model::HostOut;
pub use laws::tables_stand_in_the_records;
pub use opening::OpenFault;
pub use orders::{CancelFault, Question};
pub use refusals::{refusal_of, uncancelled_as};
