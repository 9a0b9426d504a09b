//! What becomes of a user's orders: whether a host accepts one, its messages and settings, and how the messages are
//! wrapped.
//!
//! It promises that an order is refused by the first rule that applies, that the class list at the moment of acceptance
//! fixes how the order is carried, and that the message of each session is then the wrapped text of its plan.
//! The definitions are in `specs/`: `Classes`, `Messages`, `Settings`, `Wrapping`, `Refusals`, `Errands`.
#![tactic(auto)]

mod actuator;
mod carriage;
mod errand;
mod judging;
mod messages;
mod refused;
mod setting;
mod wrapping;

pub use actuator::Actuator;
pub use carriage::{Carriage, Form};
pub use errand::{Gettable, get_payload, send_payload};
pub use judging::judge;
pub use refused::Refused;
pub use setting::{full_of, level_of, properties_of, settings};
pub use wrapping::write_message;
