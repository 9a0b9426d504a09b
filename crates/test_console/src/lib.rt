//! Tests of the console over memory: worked inputs of each command, failing reads and writes, and a program that is started again.
//!
//! A crate that has tests is proved once with them and once without. So `run_all` has none, and its tests are in this
//! crate, which promises nothing.
#![tactic(auto)]

#[cfg(test)]
mod commands;
#[cfg(test)]
mod rows;
#[cfg(test)]
mod stops;
#[cfg(test)]
mod worked;
