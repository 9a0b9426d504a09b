//! What a stretch of quiet lines and ticks makes of a calm machine, beyond its traffic.
//!
//! It promises that few frames are on the air as each tick begins (`few_frames_fly`): no two devices end their work in the same tick, and each that hears
//! something answers with two payloads at most. So the request of the host stays tied over each stretch in which it asks to send to nodes that are reached
//! (`requests_stay_tied` of `proof_calm`, which assumes no more than this). Where each frame of the host that arrives is heard by a device, the call for each
//! payload of the host says so (`payloads_are_heard`). Where the lines of a stretch are for some nodes alone, these alone speak on the air, and the host has
//! to do with no others (`workers_hear`, `workers_alone_speak`): the rest may sleep. Then a series ends no attempt but as the wait of one runs out
//! (`attempts_stay_first`); and each service of another node brings a node that has work nearer to its turn (`nodes_are_served_in_turn`). That each frame
//! is heard is assumed of events there, and these tell which are: a node whose device is of a kind that listens hears each that is sent to it
//! (`listeners_hear`), and where the devices of some nodes are such and the frames are for these, that stays so (`nodes_hear`); a node that sleeps hears each
//! from its `wake` line, which is its last (`nodes_are_woken_last`), until it is told that there is no more for it, and counts as awake while something is left
//! for it (`sleepers_are_where_they_may_be`). There is no code here.
//! The definitions are in `specs/`: `Few` (for how long devices are at work, and how many frames are on the air, at each phase), `Listening`, `Heard` (what
//! calls say), `Outward` (for which nodes frames are), `Workers` (which nodes lines, host and air have to do with), `FirstAttempts`, `Sleepers`, `Said`
//! (what devices say at an event), and `Turns`.
#![tactic(auto)]

mod attempts;
mod few;
mod heard;
mod hearing;
mod listening;
mod serving;
mod sleepers;
mod working;

pub use attempts::attempts_stay_first;
pub use few::few_frames_fly;
pub use heard::payloads_are_heard;
pub use hearing::nodes_hear;
pub use listening::listeners_hear;
pub use proof_calm::{frames_fly_in_order, hosts_are_tended, work_in_order_means};
pub use serving::nodes_are_served_in_turn;
pub use sleepers::{nodes_are_woken_last, sleepers_are_where_they_may_be};
pub use working::{workers_alone_speak, workers_hear};
