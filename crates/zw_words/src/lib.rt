//! The words of a line of text, and the forms that a word can have: numbers, nodes, end points, values, sides and hex.
//!
//! It promises that each form is read exactly when the word has it, and that what is wrong with a line is the first
//! fault from the left. Readers of any language of lines are made of these pieces.
//! The definitions are in `specs/`: `Words` for the words of a text, `Forms` for what one word means, `Fields` for
//! words that are read in turn.
#![tactic(auto)]

mod fault;
mod fields;
mod forms;
mod side;
mod words;

pub use fault::{LineFault, ReadLineFault};
pub use fields::{
    last_hex, last_node, last_number, last_side, last_target, last_value, no_more, take_node,
    take_number, take_side, take_target, take_value,
};
pub use forms::{
    Target, hex_of, is_hex, node_of, number_between, number_of, side_of, target_of, value_of,
};
pub use side::Side;
pub use words::{LONGEST_LINE, cut_word, open_line};
