//! Tests of the crates of texts: entries, reports of units, words of the command line, the texts of faults, and what `audit` says
//! of transcripts, against forms that were worked by hand from docs/.
//!
//! A crate that has tests is proved once with them and once without. So the crates below have none, and this one, which
//! promises nothing, has theirs.
#![tactic(auto)]

#[cfg(test)]
mod asked;
#[cfg(test)]
mod broken;
#[cfg(test)]
mod entries;
#[cfg(test)]
mod evening;
#[cfg(test)]
mod faults;
#[cfg(test)]
mod rows;
#[cfg(test)]
mod units;
