//! Reading the entries of a transcript.
//!
//! It promises that no two entries, and no two transcripts, have the same text, and that the text of an entry is read
//! as that entry. The text of an entry is that of `zw_text`, in `specs/Entry`; its `specs/Fits` has the ranges of the
//! numbers, and `specs/Said` says what a `>` entry may show.
#![tactic(auto)]

mod laws;
mod lists;
mod parts;
mod read;
mod rows;
mod said;

pub use laws::{entries_without_feed, one_entry_each, one_transcript_each};
pub use read::{EntryFault, read_entry};
