//! Events of devices on their way to the host: supervised Notification Reports over frames that arrive late, often or
//! never.
//!
//! It promises that each line does exactly what the table of lines says, that a text is read as a line exactly when it
//! is that line's text, and that the host takes each node's events once and in order, whatever is delivered and in
//! whatever order.
//! The definitions are in `specs/`: `Line` and `Entry` for the texts, `State` and `Steps` for the table of lines,
//! `Flow` for what holds of a transcript.
#![tactic(auto)]

mod entry;
mod frame;
mod laws;
mod line;
mod node_flow;
mod print;
mod read;
mod world;

pub use entry::{EventEntry, EventRefusal};
pub use frame::{Content, Frame, Notice};
pub use laws::{
    events_flow, one_event_line_each, one_event_text_each, transcripts_grow, what_is_next_is_heard,
};
pub use line::EventLine;
pub use print::print_event;
pub use read::read_event;
pub use world::EventWorld;
pub use zw_words::{LineFault, ReadLineFault};
