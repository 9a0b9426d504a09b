//! The machine follows courses (`proof_course`) for each node that is a lock: one of its sessions, and one of the
//! nonces of each end.
//!
//! So what the lock applied is a part of the commands of the sessions that began. The crate promises that a lock
//! (`locks_follow_the_courses`), frames on the air (`frames_follow_the_courses`), every event outside the host
//! (`outsides_follow_the_courses`), what the host does and judges (`hosts_do_as_the_courses_have_it`,
//! `hosts_judge_as_the_courses_have_it`), every event of the machine (`worlds_follow_the_courses`) and so any lines
//! from the first on (`lines_have_courses`) are steps of such courses; and that each success that the host is told of
//! the node is true at the moment it is told. What a lock makes of its sessions at each event is what its kind says of
//! them (`locks_judge_what_is_asked`). The kinds of devices tell which nodes are locks (`locks_as_made_begin_courses`).
//! There is no code here.
//!
//! The definitions are in `specs/`: `Labels` (what is on its way, by numbers), `Courses` (the three side by side),
//! `Meaning` (what a label says of bytes), `LockNodes`; where the courses are: `Lock` and `Device`, `Air`, `Mesh`, `Lines`,
//! `Outside`, `Host` and `HostGoing`, `World`.
//! Whoever depends on courses of both kinds names this crate alone: `Plain`, and what is used from `proof_course_plain`
//! below, are of the other kind.
#![tactic(auto)]

mod air;
mod device;
mod exchange;
mod host;
mod judging;
mod made;
mod mesh;
mod outside;
mod ways;
mod world;

pub use air::frames_follow_the_courses;
pub use device::locks_follow_the_courses;
pub use exchange::exchanges_go_on;
pub use host::{hosts_do_as_the_courses_have_it, hosts_judge_as_the_courses_have_it};
pub use judging::locks_judge_what_is_asked;
pub use made::locks_as_made_begin_courses;
pub use mesh::arrivals_follow_the_courses;
pub use outside::outsides_follow_the_courses;
pub use proof_course_plain::{
    devices_follow_the_course, idle_devices_stay_idle, lines_ask_plainly, lines_have_a_course,
    lines_tell_the_truth,
};
pub use ways::{ways_thin_together, what_waits_is_written};
pub use world::{lines_ask_fitly, lines_have_courses, worlds_follow_the_courses};
