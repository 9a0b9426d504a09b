//! Printing the entries of a transcript.
//!
//! It promises that `print_entry` gives exactly the text of the entry, which `zw_text` defines in `specs/Entry`, and
//! `print_line` and `write_line` the same with a line feed.
#![tactic(auto)]

mod print;
mod print_lists;
mod print_parts;

pub use print::{print_entry, print_line, write_line};
