//! Tests of the cipher and the seals, of records and values as text, of records in a file, and of sources and sinks, against vectors that were made
//! outside this project or worked by hand.
//!
//! A crate that has tests is proved once with them and once without. So the crates below have none, and this one, which
//! promises nothing, has theirs.
#![tactic(auto)]

#[cfg(test)]
mod blocks;
#[cfg(test)]
mod files;
#[cfg(test)]
mod outside;
#[cfg(test)]
mod records;
#[cfg(test)]
mod rows;
#[cfg(test)]
mod seals;
#[cfg(test)]
mod store;
