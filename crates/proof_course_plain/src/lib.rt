//! The machine follows a course of sessions (`proof_course`) for each node whose commands are not sealed, whole or in
//! segments.
//!
//! So what the node's device applied is a part of the commands of the sessions that began. The crate promises that
//! every event outside the host (`outsides_follow_the_course`), what the host does (`hosts_follow_the_course`), every
//! event of the machine (`worlds_follow_the_course`) and so any lines from the first on (`lines_have_a_course`) are
//! steps of such a course; and that the host's table of commands says what the host was told and what the device
//! changed. It does not matter what lines ask beside orders (`lines_ask_plainly`). Each success that the host is told
//! of the node is true at the moment it is told (`hosts_are_told_the_truth`, `worlds_tell_the_truth`,
//! `lines_tell_the_truth`). The device takes each session with the verdict of its kind on the values that it has then
//! (`devices_judge_what_is_asked`). There is no code here.
//!
//! The definitions are in `specs/`: `Ways` (labels beside what carries them, and what loss and doubling do to them),
//! `Meaning` (what a label says of bytes); where the course is: `Air`, `Device`, `Mesh`, `Lines` and `Chip`, `Outside`,
//! `Host` and `HostGoing`, `World`; `Told` (what the host's table says), `Making` (what sessions make) and `Judged`
//! (what an event makes of the sessions of a device).
#![tactic(auto)]

mod air;
mod device;
mod host;
mod judging;
mod lines;
mod mesh;
mod outside;
mod truth;
mod ways;
mod world;

pub use air::frames_follow_the_course;
pub use device::{devices_follow_the_course, idle_devices_stay_idle};
pub use host::hosts_follow_the_course;
pub use judging::devices_judge_what_is_asked;
pub use lines::chips_carry_reports;
pub use mesh::arrivals_follow_the_course;
pub use outside::outsides_follow_the_course;
pub use proof_once::{
    events_keep_facts, first_facts_hold, laws_follow, restarts_keep_facts, what_is_over_stays,
};
pub use proof_traffic::{
    at_most_two_are_on_the_air, devices_go_on, devices_stay_the_same, frames_fly_in_order,
};
pub use proof_world::{
    hosts_write_well, lines_keep_and_ask_well, restarts_go_on, units_are_judged_whole,
};
pub use truth::{hosts_are_told_the_truth, lines_tell_the_truth, worlds_tell_the_truth};
pub use ways::ways_may_thin;
pub use world::{lines_ask_plainly, lines_have_a_course, worlds_follow_the_course};
