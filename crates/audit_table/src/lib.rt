//! Two rules of the audit on values: the rule of confirmed values after each success, and the rule of the table at the
//! end.
//!
//! The crate promises that a line is found to break its rule exactly when it does, judged by the lines before it. That
//! what is kept follows the transcript, entry by entry, is proved in `proofs/Closes`.
//! The rules are in `specs/StoreRule` and `specs/TableRule`, over the lists that a transcript shows. `Knowing` says
//! what is kept in place of these lists, and `Keeping` that it belongs to a transcript.
#![tactic(auto)]

mod closing;
mod rows;
mod stores;
mod values;

pub use closing::Closing;
pub use stores::{Stores, Storing};
