//! Tests of what is read from bytes and written as bytes, against forms that were made outside this project or by hand:
//! frames and links of the serial port, functions of the chip, messages of devices, wraps and segments.
//!
//! A crate that has tests is proved once with them and once without. So the crates below have none, and this one, which
//! promises nothing, has theirs. Each public call is called here once with ample memory.
#![tactic(auto)]

#[cfg(test)]
mod checks;
#[cfg(test)]
mod core_messages;
#[cfg(test)]
mod fields;
#[cfg(test)]
mod frames;
#[cfg(test)]
mod functions;
#[cfg(test)]
mod info_messages;
#[cfg(test)]
mod links;
#[cfg(test)]
mod parts;
#[cfg(test)]
mod rows;
#[cfg(test)]
mod segments;
#[cfg(test)]
mod wraps;
