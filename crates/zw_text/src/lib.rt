//! The text of a scenario: the lines that the program reads, the entries of the transcript that it prints, and their
//! exact words.
//!
//! It promises that a text is read as a line exactly when it is that line's text, and otherwise answers the first fault
//! from the left.
//! The definitions are in `specs/`: `Line` and `Entry` for the texts, `Fits` for the ranges of an entry's numbers,
//! `Transcript` for what a list of entries shows. `zw_print` prints entries, and `zw_parse` reads them.
#![tactic(auto)]

mod entry;
mod laws;
mod line;
mod read;
mod rows;
mod word;

pub use entry::{Done, Ended, Entry, Outcome, Refusal};
pub use laws::{folded_grows, one_line_each, quiet_grows, shown_grows};
pub use line::{Line, ReplayLine};
pub use read::{read_line, read_replay, read_rest};
pub use word::{LineWord, is_replay_word, line_word};
pub use zw_words::{LineFault, ReadLineFault, Side};
