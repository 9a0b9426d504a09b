//! The laws of the serial line that every run keeps, whatever is lost, delayed or repeated, and wherever an allocation failure cuts it short.
//!
//! Each is the contract of a function with an empty body, over lines that are said one after another (`world_lines`) and the events of the machine that each
//! line is; the laws themselves are those of `law_wire`, or parts of them (`Pipes`), and each is proved on the walk of `proof_walk`. `marks_go_on`,
//! `collisions_go_on`, `pipes_go_on`, `rooms_go_on`, `numbers_go_on` and `links_go_on` tie the machine to the transcript at each phase of a line; from them
//! follow `lines_mark_units`, `lines_collide_when_asked`, `lines_overrun_only_when_full`, `lines_overrun_when_full`, `lines_clear_at_restarts`,
//! `lines_clear_nowhere_else` and `ticks_are_told`.
//! The definitions are in `specs/`: `Collisions`, `Marks`, `Pipes`, `Rooms` and `Times` (what is known of each at each phase of a line), `Arrivals`
//! (what arrives of the units of a side since the host started), `Links` (what is known of the link of a side between two events of the line) and `Linked`
//! (what is known of both at each phase). From `links_go_on` follow `lines_keep_links` and `lines_clear_the_line`: both sides keep the rules of the line, just
//! the units find no room that had none, and just what was on its way is told at a restart.
#![tactic(auto)]

mod links;
mod marks;
mod pipes;
mod ties;
mod times;

pub use links::{lines_clear_the_line, lines_keep_links, links_go_on};
pub use marks::{lines_collide_when_asked, lines_mark_units};
pub use pipes::{
    lines_clear_at_restarts, lines_clear_nowhere_else, lines_overrun_only_when_full,
    lines_overrun_when_full,
};
pub use proof_traffic::{
    frames_fly_in_order, hosts_make_requests, hosts_obey_the_line, lines_make_requests,
    outsides_make_requests, requests_keep_facts,
};
pub use proof_walk::{
    a_restart_keeps_what_is_held, asides_keep_facts, events_keep_facts, first_facts_hold,
    laws_follow, records_keep_facts, restarts_keep_facts,
};
pub use proof_world::{
    hosts_write_well, lines_keep_and_ask_well, restarts_go_on, runs_take_once,
    the_machine_keeps_facts, units_are_judged_whole,
};
pub use ties::{collisions_go_on, marks_go_on, numbers_go_on, pipes_go_on, rooms_go_on};
pub use times::ticks_are_told;
