//! How every command runs lines: they are read while the input comes, each is run, and its answer is written in pieces.
//!
//! It promises that the lines are those of the bytes that were read, in order, and that nothing is read while a line is
//! ready; why the lines end, and which lines a machine has run at each status and in which order; that what is written
//! is the text of its answers and of the last lines that the status adds, or a prefix of it; and the cause of each
//! status. The pieces are the lines of the entries, in a quiet transcript without the loud ones. What is entered of a
//! line is its words, which are read as the same line.
//! The definitions are in `specs/`: `SourceLines` (the lines of a source), `Machine` (what a machine is), `Input` (the
//! lines of an input), `Writing` (what was written), `Run` (how a run ends), `Complete` (which inputs are run to their
//! end), `Answer` and `Pieces` (pieces, entries and words) and `Lines` (lines that are read, run and told by entries).
#![tactic(auto)]

mod answer;
mod entries;
mod machine;
mod reader;
mod running;
mod said;
mod scenario;
mod status;
mod writing;

pub use answer::Answer;
pub use entries::add_entries;
pub use machine::Machine;
pub use reader::{LineReader, MAX_INPUT, MAX_LINE, Next, PIECE};
pub use running::{LinesEnd, TextFault, end_at, end_of};
pub use said::said_entry;
pub use scenario::{end_badly, run_scenario};
pub use status::Status;
pub use writing::{write_piece, write_pieces};
