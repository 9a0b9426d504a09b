//! The numbers of an entry are in the ranges of its types.
//!
//! An entry that the program holds is in range by what its types are. Each function here says so of what it is given, and does nothing.
//! What is in range is `zw_text/specs/Fits`.
#![tactic(auto)]

mod range;

pub use range::{entries_in_range, entry_in_range, setting_in_range};
