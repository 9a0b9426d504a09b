//! A calm machine: what is so of it while no line disturbs it, with which each command has its outcome in time.
//!
//! It promises that quiet lines and ticks mark nothing (`quiet_lines_mark_nothing`): from a machine on which nothing is to be lost, changed or refused and
//! no stall lasts, none of that comes to be. On such a line each pass of a settling brings a frame (`each_pass_brings_a_frame`): what is on its way is
//! taken whole by the other side, each frame is acknowledged, and the next of the chip's is written. So the line rests after each quiet line and each tick
//! (`the_line_rests`), where the chip takes the payload of each frame of the host; and the chip sends one payload at most then, for the host's only frame
//! on the air (`the_chip_sends_one`). It takes each that is of 1 to 46 bytes and for a joined node, where it sends nothing (`the_chip_takes_payloads`);
//! and the host's request stays under way until its call comes (`calls_end_requests`). Which nodes are joined, and the links of the air, stay
//! (`quiet_lines_leave_the_network`). Where few frames are on the air, and the chip is asked to send to nodes alone that are reached, the host asks to
//! send to joined nodes alone, the chip takes each payload and has a route for it, and each request ends by its one call (`requests_stay_tied`). There is
//! no code here.
//! The definitions are in `specs/`: `Marks`, `Quiet` (what is known at each phase while only quiet lines were said), `Passes` (which units are on their
//! way, and which frames of each side are on the line), `Settling` (where a settling stands, and in how many passes it ends), `Resting` (what is known of
//! the line at each phase), `Sending`, `Calls`, `Networks`, `Awaited` (which calls are to come), `Routed` and `Live` (that each payload has a route, and
//! no frame is lost), `Known` and `Homeward` (that joined nodes alone are known and speak), `Tied` (where the request is), and `Undisturbed` (all that is
//! so of the machine between the lines and ticks of a stretch; of this the line, what the chip sends and the request are proved).
#![tactic(auto)]

mod calls;
mod marks;
mod members;
mod passes;
mod resting;
mod taking;
mod tied;
mod under_way;

pub use calls::the_chip_sends_one;
pub use marks::quiet_lines_mark_nothing;
pub use members::quiet_lines_leave_the_network;
pub use passes::each_pass_brings_a_frame;
pub use proof_waking::frames_fly_in_order;
pub use proof_work::{hosts_are_tended, work_in_order_means};
pub use resting::the_line_rests;
pub use taking::the_chip_takes_payloads;
pub use tied::requests_stay_tied;
pub use under_way::calls_end_requests;
