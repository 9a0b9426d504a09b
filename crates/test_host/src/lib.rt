//! Tests of the host, driven by hand: by bytes of the chip, ticks and orders alone, over keepers of which some calls
//! fail.
//!
//! A crate that has tests is proved once with them and once without. So `host_core` has none, and its tests are in this
//! crate, which promises nothing. The lines of an evening, of a long message, of a node that sleeps and of a lost
//! acknowledgement were written by a program outside this project; what is sealed in them was sealed by OpenSSL
//! (Python's `cryptography`).
#![tactic(auto)]

#[cfg(test)]
mod desk;
#[cfg(test)]
mod evening;
#[cfg(test)]
mod host;
