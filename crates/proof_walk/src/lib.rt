//! One walk for all laws of whole runs: a line is a path through phases, one event at a time, and a law over lines follows from what it owes at each step.
//!
//! It promises that the events of every line, whole or cut short by an allocation failure, are such a path (`lines_are_paths`), and what is
//! known of time at each phase (`time_goes_on`). There is no code here.
//! The definitions are in `specs/`: `Phases` (where in a line the machine is, which events may come there, and which part begins next), `Paths`,
//! `Walk` (what a law owes: something for the words of a line, for each event where it may come, and for each part that begins), `ByLine` (less, for
//! a law that tells apart only what a line has done), `Outside` (what a law owes of what happens outside the host, with the number of the tick dealt
//! with once; less where only the link of the chip concerns it) and `Time`. `proofs/Lines` has what a walk gives of lines that are said one after
//! another: `lines_stand`, and `lines_lead` where all were run whole; `proofs/Over` puts one walk on the ground of another. `proofs/Where` walks along
//! events that all have something more (`where_stand`; `where_lead` and `where_whole` say what is known where they end). `proofs/Machines` has
//! `machine_keeps`: what is owed outside the host, with the units and notes of the host, is enough for each event of the machine.
#![tactic(auto)]

mod paths;
mod time;

pub use paths::lines_are_paths;
pub use proof_device::{changes_are_shown, devices_go_on, devices_stay_the_same};
pub use proof_host::{
    a_host_begins_with_what_is_kept, a_pump_ends, a_restart_keeps_what_is_held, asides_keep_facts,
    attempts_have_what_they_give, events_keep_facts, facts_are_kept, first_facts_hold, laws_follow,
    nodes_are_told_in_few_turns, records_keep_facts, restarts_keep_facts,
};
pub use time::time_goes_on;
