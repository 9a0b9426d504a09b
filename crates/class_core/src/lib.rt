//! The messages of the actuator command classes, and the fields that class messages are made of.
//!
//! It promises that each field is read exactly where its written form is; that what is written is the written form of
//! its message; and that bytes are read as a message exactly when they spell it, and otherwise answer the first fault
//! from the left.
//! The definitions are in `specs/`: `Ranges` (which values there are), `Cell` (what a message demands of bytes),
//! `Fields` (what each field demands) and `Reading` (how a field is read); then `Spelling` (which bytes spell each
//! message) and `MessageReading` (which fault other bytes have).
#![tactic(auto)]

mod association;
mod basic;
mod configuration;
mod decimal;
mod door_lock;
mod fault;
pub mod fields;
pub mod forms;
mod level;
mod message;
mod node_list;
mod number;
mod number_list;
mod reading;
mod small;
mod switch;
mod switch_binary;
mod switch_multilevel;
mod thermostat_mode;
mod thermostat_setpoint;
mod wake_up;
mod writing;

pub use decimal::Decimal;
pub use fault::ClassFault;
pub use level::Level;
pub use message::CoreMessage;
pub use node_list::NodeList;
pub use number::{Number, Size};
pub use number_list::NumberList;
pub use reading::{one_message, read};
pub use small::{Mode, Seconds, SetpointKind};
pub use switch::{LockMode, Switch};
pub use writing::{head, put_fields, write};
pub use zw_base::{Bytes, NoMemory, NodeId};
