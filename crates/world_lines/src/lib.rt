//! A run of lines as definitions: what is said, what the machine does at each line, and the transcript of all.
//!
//! The definitions are in `specs/`: `Spoken` (the words of a line with its events, and the transcript of such lines),
//! `Done` (the events are those of the lines, of which an allocation failure may have cut the last one short) and `Whole`
//! (none was). What is proved of a whole run is said of these.
#![tactic(auto)]
