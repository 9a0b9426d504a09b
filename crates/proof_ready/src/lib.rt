//! What a calm moment of the transcript is of the machine, piece by piece, and that its host and its nodes are ready for a stretch there.
//!
//! Each is the contract of a function with an empty body, over lines that were all run whole, from the first machine on. Where the last request is over by the
//! transcript, the host has none under way, its side of the line is free, and it leaves nothing undone (`calm_hosts_are_done`). Where nothing is to be lost by
//! it, no unit, frame or acknowledgement is marked, and no stall lasts (`calm_machines_are_unmarked`). Where each frame has had its fate, none is on the air
//! (`calm_air_is_empty`), and few frames are where no device is at work (`calm_machines_have_few_frames`). Where no stall lasts, the host has heard all that
//! came (`calm_hosts_have_heard_all`). Where the host wrote few units too, and acknowledged the last frame of the chip, so has the chip, and no frame of it is
//! on the line; and no result is due to it where it took nothing in the tick of the clock (`calm_chips_rest`, `calm_chips_are_owed_nothing`). It waits for
//! calls of frames on the air and for results that are due alone (`lines_await_calls`). A node that can be reached by the transcript is reached
//! (`calm_machines_are_reached`), and the host has its facts (`lines_leave_hosts_fit`). Together these tie the request of the host (`calm_requests_are_tied`),
//! where the host knows nothing of nodes that have not joined (`hosts_know_their_members`).
//! A joined node has a place in the tables, and is joined in the air (`joined_nodes_are_there`). Nothing is to be done for a node that is not joined, nor in a
//! calm moment for one that is joined and for which no command waits (`nodes_are_still`). So where these are all nodes for which one does, the host has to do
//! with these alone (`hosts_are_ready`). It knows of each node what its device lists (`hosts_know_what_devices_list`), and one whose device listens, or sleeps,
//! has one that does at every moment (`listeners_are_there`, `sleepers_are_there`); one that sleeps is asleep in the host (`sleepers_are_asleep`). All of it is
//! one record (`machines_are_ready`), which so is had of the nodes at work in a quiet stretch for fit ones, where all is still: plain listeners, one plain
//! node that sleeps, or one of any kind (`still_machines_are_ready`). So a stretch may begin there (`stretches_may_begin`). An order that is
//! accepted is for a node that is joined and lists Supervision (`orders_are_let_in`): so the lines are for the nodes at work alone
//! (`stretches_are_for_their_workers`), and these take by their kinds what is not sealed, or are a lock (`workers_are_plain`). So such lines are a stretch for
//! these (`still_stretches_begin`), and each command of these has its final outcome in time, where another series of attempts is to come by the text for each
//! node that is to wait for one (`still_stretches_end_in_time`). So it has the one that its device's kind says (`still_nodes_are_answered`), by the text
//! alone (`stretches_are_answered_in_time`). There is no code here. The definitions are in `specs/Ease`, `specs/Ready`, `specs/LetIn`, `specs/Stretch` and
//! `specs/Each`. `proofs/Untold` has that the records keep nothing of a node that is not joined, `Stillness` is of one node, `Workers` of the host,
//! `Listening` of devices and classes; `LetIn`, `Marks`, `Reading`, `Waiting` and `Working` are of what the transcript says.
#![tactic(auto)]

mod accepting;
mod air;
mod at_rest;
mod calls;
mod chip;
mod due;
mod ends;
mod facts;
mod host;
mod known;
mod nodes;
mod pipes;
mod reach;
mod ready;
mod stretch;
mod stuck;
mod tied;
mod unmarked;

pub use accepting::orders_are_let_in;
pub use air::{calm_air_is_empty, calm_machines_have_few_frames};
pub use at_rest::lines_leave_a_host_at_rest;
pub use calls::lines_await_calls;
pub use chip::calm_chips_rest;
pub use due::calm_chips_are_owed_nothing;
pub use ends::{
    rejected_ends, still_nodes_are_answered, stretches_are_answered_in_time, stretches_end_by_kind,
    worked_ends,
};
pub use facts::lines_leave_hosts_fit;
pub use host::calm_hosts_are_done;
pub use known::{
    devices_are_the_same, hosts_know_what_devices_list, listeners_are_there, sleepers_are_there,
    workers_are_known,
};
pub use nodes::{hosts_know_their_members, joined_nodes_are_there, nodes_are_still};
pub use pipes::{calm_hosts_have_heard_all, lines_lead_links};
pub use reach::{calm_machines_are_reached, lines_join_the_same_nodes};
pub use ready::{hosts_are_ready, sleepers_are_asleep};
pub use stretch::{
    machines_are_ready, still_machines_are_ready, still_stretches_begin,
    stretches_are_for_their_workers, stretches_may_begin, workers_are_plain,
};
pub use stuck::{series_to_come_are_waited_for, still_stretches_end_in_time};
pub use tied::calm_requests_are_tied;
pub use unmarked::calm_machines_are_unmarked;
