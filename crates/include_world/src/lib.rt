//! The world of `include`: the host that adds nodes, the locks, the air between them, and the lines that act on them.
//!
//! It promises that a line is a list of events, which list that is, and that their effect and entries are functions of
//! the world before.
//! The definitions are in `specs/`: `Air` (frames and their ages), `World` (what there is, and what each event does to
//! it), `Line` (which events a line is), `Added` (what holds of every transcript).
#![tactic(auto)]

mod air;
mod entering;
mod flight;
mod laws;
mod units;
mod world;

pub use air::Coming;
pub use flight::{Flight, Pair};
pub use laws::what_is_said_is_so;
pub use world::IncludeWorld;
