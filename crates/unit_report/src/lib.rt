//! What bytes of the serial line are: their units and refusals, and for each frame its body, payload and commands.
//!
//! It promises that `check` writes exactly the lines that name the bytes of a hex text, and says of an invalid text
//! where it first fails.
//! The definitions are in `specs/`: `HexText` (the text that is read), `Words` (what is said of a fault) and `Named`
//! (the lines of bytes).
#![tactic(auto)]

mod body;
mod hex_text;
mod items;
mod payload;
mod reporting;
mod words;

pub use hex_text::CheckFault;
pub use reporting::{check, report};
