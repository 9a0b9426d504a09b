//! The machine of the simulator as definitions: the host with its keeper, and the chip, air, serial line, time and
//! devices outside it.
//!
//! It says what may happen to the machine, what each event does to it and which entries it has, and which events a line
//! of a scenario is. The world that does them and the laws that are proved of them are above, beside each other.
//! It promises that lists of events can be joined (`lists_go_on`). The definitions are in `specs/`: `State`,
//! `Refusals`, `Events`, `Did` (lists of events, and what was done when memory ran out), `Settling`, `Ticking` and
//! `Lines` (which events a line is), and `Table`.
#![tactic(auto)]

mod laws;

pub use host_model::{a_restart_keeps_what_is_held, attempts_have_what_they_give, facts_are_kept};
pub use laws::lists_go_on;
