//! What events do to the parts of a host: its requests, nodes, commands and values, and its side of the line.
//!
//! Each function borrows the parts that it changes, and says in the words of `host_model` what any host with these
//! parts is then. It promises that an order is accepted whole or leaves nothing, that the end of a request is told to
//! its node and its command with everything that is entered then, and how an attempt of a command starts. The host
//! itself, which has its facts after each event, is in `host_step` above. `specs/` has `Within` for a host that has
//! these parts, `Choices` for the answer to an order, `Heard` and `Parts` for what the calls distinguish, `Ending` for
//! lists that are made beforehand.
#![tactic(auto)]

mod accepting;
mod command;
mod ends;
mod finishing;
mod hearing;
mod keeping;
mod line;
mod restarting;
mod starts;
mod ticks;

pub use accepting::accept;
pub use command::{Command, set_outcome};
pub use finishing::{confirm, hold, outcome_of};
pub use hearing::{Heard, request_hears};
pub use keeping::keep_record;
pub use line::{answer, front_frame, is_busy, put_on_line, submit_attempt};
pub use restarting::restart_all;
pub use starts::Start;
pub use ticks::{tick_line, tick_node};
