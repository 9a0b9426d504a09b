//! Which way frames go in every run, over networks that are those of the transcript at each phase of a line, and which dead hops the chip forgets.
//!
//! Each is the contract of a function with an empty body, over lines that are said one after another (`world_lines`) and the events of the machine that
//! each line is, and is proved on the walk of `proof_walk`: `networks_go_on` and `frames_go_on`, the ties, and over them `frames_go_by_route` and
//! `dead_hops_are_forgotten`; and `dead_hops_are_forgotten_in_the_end`, where all lines were run whole.
//! All are over a keeper that tells its records, since a host that forgot a node would let it join again.
//! The definitions are in `specs/`: `Networks` (when air and chip have the networks of a transcript), `Knowing` (what is known of them at each phase of a line)
//! and `Forgetting` (what is known of the frames on the air).
#![tactic(auto)]

mod networks;
mod routes;

pub use networks::networks_go_on;
pub use routes::{
    dead_hops_are_forgotten, dead_hops_are_forgotten_in_the_end, frames_go_by_route, frames_go_on,
};
