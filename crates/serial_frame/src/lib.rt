//! Units of the Z-Wave Serial API: the layout of what host and chip write on the line, and how a stream is split into
//! units.
//!
//! It promises that a unit is written in its one layout, and that a stream of bytes and tick marks is split in the only
//! possible way, whatever pieces it arrives in.
//! The definitions are in `specs/`: `Frame` (layout), `Items` (units and refusals) and `Stream` (splitting).
#![tactic(auto)]

mod decoder;
mod frame;
mod item;
mod law;
mod search;
mod split;
mod unit;

pub use decoder::Decoder;
pub use frame::{Frame, Kind, MAX_BODY};
pub use item::{Item, Refusal};
pub use law::{one_byte_changed, one_reading, one_splitting};
pub use unit::{ACK, CAN, NAK, SOF, Unit, encode};
