//! Tests of the simulated devices and of the simulated chip: each kind called through its bound, the wrappers, and what the chip
//! answers to functions, by payloads and bytes that were written out by hand or by implementations outside this project.
//!
//! A crate that has tests is proved once with them and once without. So `device_kinds`, `device_stack`, `device_sim` and
//! `chip_sim` have none, and this one, which promises nothing, has theirs.
#![tactic(auto)]

#[cfg(test)]
mod chip;
#[cfg(test)]
mod kinds;
#[cfg(test)]
mod playing;
#[cfg(test)]
mod rows;
#[cfg(test)]
mod steps;
#[cfg(test)]
mod wrappers;
