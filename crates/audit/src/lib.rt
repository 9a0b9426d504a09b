//! Whether a transcript is in order: the text of a run is read line by line, and each line is judged by those before
//! it.
//!
//! It promises that the answer is `None` exactly when no line breaks one of seven rules, and otherwise the first line
//! that does with the first rule that it breaks; and that a text has one answer.
//! The rules are in the crates below, over the lists that a transcript shows (`zw_text`, `specs/Transcript`): text,
//! sessions and once in `audit_books`, air and payload in `audit_rules`, store and table in `audit_table`. In `specs/`,
//! `Breaking` says what a pass finds, and `Keeping` that all that is kept belongs to a transcript.
#![tactic(auto)]

mod breaks;
mod ledger;
mod pass;

pub use breaks::Break;
pub use pass::{examine, one_answer};
