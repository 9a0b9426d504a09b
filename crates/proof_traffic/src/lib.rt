//! The traffic between host, chip and air, whatever it means: the requests on their way to the chip, and their frames
//! on the air.
//!
//! Nothing here is a byte, and there is no code here. The crate promises that at most two frames of the host are on the
//! air at once (`two_at_most`, and of the whole machine `at_most_two_are_on_the_air`), one of them of a payload that
//! was given up, whatever is lost or written twice, and however long the line stalls. For that, what the host does is
//! steps of the requests' course (`hosts_make_requests`), and so are what happens outside it (`outsides_make_requests`)
//! and the events of every line (`lines_make_requests`). The host hears of an answer only while no frame of its own is
//! on its way to the chip, and a request falls silent only while no call is to come. Frames arrive in the order in
//! which they went on the air (`frames_fly_in_order`). The host's link obeys the rules of the serial line
//! (`hosts_obey_the_line`).
//!
//! The definitions are in `specs/`: `Requests` (what there is, and what may happen) and `Facts` (what stays true); `Links` (steps of the host's link);
//! `HostTraffic`, `OutsideTraffic` and `Course` (the course beside host, outside and machine); `Flights` (frames as a
//! list) and `OnAir` (how many there are, read from the machine).
#![tactic(auto)]

mod flights_in_order;
mod host_steps;
mod links;
mod outside_steps;
mod request_steps;
mod world_steps;

pub use flights_in_order::frames_fly_in_order;
pub use host_steps::hosts_make_requests;
pub use links::hosts_obey_the_line;
pub use outside_steps::outsides_make_requests;
pub use proof_device::{devices_go_on, devices_stay_the_same};
pub use request_steps::{requests_keep_facts, two_at_most};
pub use world_steps::{at_most_two_are_on_the_air, lines_make_requests};
