//! How the program writes: what it hands over is gathered, and written before each read.
//!
//! So an input that is read in large pieces is answered in large pieces, and one that is typed line by line is answered line by line.
//! It promises that a piece that is handed over waits, or is written after all that waited; that no more waits than may; that after a write
//! that failed nothing more is written; and that the source is read as it is. The definition is in `specs/Gathering`.
#![tactic(auto)]

mod gathered;
mod gathering_sink;
mod writing_source;

pub use gathered::{Gathered, MOST_WAITING, write_waiting};
pub use gathering_sink::GatheringSink;
pub use writing_source::WritingSource;
