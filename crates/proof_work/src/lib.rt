//! What a host has to do, and that it leaves nothing lying: facts of a host alone, whatever bytes come from its chip and whatever its keeper does.
//!
//! Each is the contract of a function with an empty body, over the definitions of `host_model`. Every event that hosts do keeps their work in order
//! (`hosts_keep_their_work`; in plain words `work_in_order_means`): an attempt that runs has something that wakes it, and a node is told at most once that
//! there is no more for it. Where a pump ends, nothing that is due lacks its request (`hosts_leave_nothing_due`, and turn by turn
//! `turns_of_a_pump_leave_nothing`). Pumps, ticks and items of the chip are such events (`hosts_do_these`), and so is what lines ask for, so that the
//! machine keeps its host's work in order (`machines_keep_their_work`), and is tended as each line and tick begins (`hosts_are_tended`).
//! Tasks end in the order in which they were added (`tasks_end_in_order`), which is entered (`ends_of_tasks_are_told`); and the frame of the request under
//! way is on the line until it is acknowledged (`requests_stay_on_the_line`).
//! The definitions are in `specs/`: `Doing` (which events hosts do), `Work` (what every event keeps), `Rests` (where a pump ends), `Line` (where the frame
//! of a request is), `Tasks` (which tasks a host has, gets and has done), `Machines`, and `Phases` (what is known of it at each phase of a line).
#![tactic(auto)]

mod line;
mod machine;
mod tended;
mod turns;
mod work;

pub use line::requests_stay_on_the_line;
pub use machine::machines_keep_their_work;
pub use proof_walk::laws_follow;
pub use tended::hosts_are_tended;
pub use turns::{ends_of_tasks_are_told, tasks_end_in_order};
pub use work::{
    hosts_do_these, hosts_keep_their_work, hosts_leave_nothing_due, turns_of_a_pump_leave_nothing,
    work_in_order_means,
};
