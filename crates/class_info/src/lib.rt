//! The messages of the sensor, management and transport command classes, and with them those of `class_core`.
//!
//! It promises that what is written is the written form of its message, and that bytes are read as a message exactly
//! when they spell it, and otherwise answer the first fault from the left.
//! `specs/Values.antt` says which values the crate's own fields have, `specs/InfoSpelling.antt` which bytes spell each
//! message, and `specs/InfoReading.antt` which fault other bytes have. `class_core` has the messages of actuators and
//! what both tables share.
#![tactic(auto)]

mod battery_level;
mod management;
mod message;
mod own_fields;
mod reading;
mod report_status;
mod sensor;
mod session;
mod transport;
mod writing;

pub use battery_level::BatteryLevel;
pub use message::InfoMessage;
pub use reading::{one_message, read};
pub use report_status::ReportStatus;
pub use session::{SegmentOffset, SessionId, TransportId};
pub use writing::write;
