//! The text of `include`: the lines that it reads, and the entries that it prints.
//!
//! It promises that a text is read as a line exactly when it is that line's text, and otherwise answers the first fault
//! from the left; and that an entry is printed as its one text.
//! The definitions are in `specs/`: `Line` for the lines, `Entry` for the texts of entries.
#![tactic(auto)]

mod entry;
mod line;
mod print;
mod read;

pub use entry::{IncludeEntry, IncludeRefusal};
pub use line::{IncludeLine, IncludeWord, first_word, number_in};
pub use print::print_include;
pub use read::read_include;
pub use zw_words::{LineFault, ReadLineFault, Side};
