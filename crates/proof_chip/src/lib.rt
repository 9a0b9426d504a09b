//! What the chip does for the host in every run: the frames that it has for the host, which it writes in order, drops or lets wait.
//!
//! Three ties are the contracts of functions with an empty body, over lines that are said one after another (`world_lines`) and the events of the machine that
//! each line is, and are proved on the walk of `proof_walk`: `nodes_go_on`, `calls_go_on` and, on the ground of that, `results_are_told`. What else goes along
//! that walk, with the walk of both links (`proof_line`), `proof_answers` brings to an end.
//! The definitions are in `specs/`: `Serving` (what the chip's link did and was given, beside the transcript), `Knowing` (which nodes it knows at each phase
//! of a line), `Sending` (which SendData it has under way, and what that needs to be known of chip and transcript), `Calling` (the results that it waits
//! for), `Tally` (how many frames it has for the host, by the transcript and by what it was given), `Staying` (that none waits where a line or tick
//! begins), `Told` (that it has told of the results that are due), `Served` (what of all that is so in a whole run) and `Bringing` (that what was heard is
//! brought in order, with worked transcripts).
#![tactic(auto)]

mod calls;
mod due;
mod nodes;
mod worked;

pub use calls::calls_go_on;
pub use due::results_are_told;
pub use nodes::nodes_go_on;
pub use proof_air::{a_restart_keeps_what_is_held, attempts_have_what_they_give, facts_are_kept};
pub use proof_line::{
    collisions_go_on, frames_fly_in_order, hosts_make_requests, hosts_obey_the_line,
    hosts_write_well, lines_keep_and_ask_well, lines_make_requests, links_go_on, marks_go_on,
    outsides_make_requests, requests_keep_facts, restarts_go_on, runs_take_once,
    the_machine_keeps_facts, ticks_are_told, units_are_judged_whole,
};
pub use worked::worked_bringing;
