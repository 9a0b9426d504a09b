//! The laws of the chip and of the air over whole transcripts, as definitions.
//!
//! The crate promises nothing of a program. Each law reads a transcript, the devices' states at the beginning and, if
//! it says so, a course of the chip's link. Worked transcripts, and others with one thing wrong, show what each law
//! means.
//!
//! The definitions are in `specs/`: `Networks` (the links of the air and of the chip's table), `Routes` and `Reach`
//! (whether a node can be reached), `Arriving` (fates, repeats and what the chip forgets); `Asked`, `Taking` (which
//! SendData the chip accepts and which frames it puts on the air), `Results`, `Given` and `Answering` (what it has for
//! the host and what it writes); `Marks` (which units are lost, changed or answered CAN because a line asks for it) and
//! `Pipes` (which units find no room); `Serial` and `Links` (what the sides of the serial line write, hear and tick),
//! `Clearing` (what a restart loses) and `Times` (when the number of a tick stands); `Doings` and `Shown` (where what devices do stands, and what is
//! shown of them) and `Halted` (what a device did when an allocation failure ended the run).
//! `Worked..` are the transcripts that the functions here speak of.
#![tactic(auto)]

mod answers;
mod arriving;
mod chip;
mod doings;
mod fates;
mod full;
mod halted;
mod links;
mod marks;
mod moments;
mod networks;
mod pipes;
mod records;
mod routes;
mod taking;
mod times;

pub use answers::{
    rejected_callbacks, rejected_notices, rejected_responses, rejected_taken, worked_ack_marks,
    worked_callbacks, worked_capabilities, worked_failures, worked_notices, worked_responses,
    worked_taken,
};
pub use arriving::{rejected_arrivals, worked_arrivals, worked_forgetting, worked_repeats};
pub use chip::{
    rejected_chip, rejected_telling, worked_answers, worked_drops, worked_taking, worked_telling,
};
pub use doings::{rejected_doings, rejected_showing, worked_doings, worked_showing};
pub use fates::{
    rejected_fates, rejected_hearings, rejected_hops, rejected_landings, worked_fates,
    worked_hearings, worked_hops, worked_landings,
};
pub use full::{rejected_waits, worked_full, worked_waits};
pub use halted::{rejected_halted, worked_halted};
pub use law_transcript::{
    worked_bringing, worked_cancels, worked_devices, worked_frames, worked_payloads, worked_stores,
    worked_units,
};
pub use links::{rejected_links, rejected_service, worked_links, worked_service};
pub use marks::{
    rejected_answers_by, rejected_losses, rejected_marks, worked_answers_by, worked_collisions,
    worked_losses, worked_marks,
};
pub use moments::{rejected_hearing, rejected_ticks, worked_asking, worked_hearing, worked_ticks};
pub use networks::{worked_air_links, worked_repeaters, worked_table};
pub use pipes::{rejected_pipes, rejected_room, worked_bytes, worked_pipes, worked_room};
pub use records::{rejected_records, worked_records};
pub use routes::{
    rejected_reach, rejected_routes, rejected_walks, worked_reach, worked_routes, worked_walks,
};
pub use taking::{rejected_airing, worked_airing, worked_course, worked_takes, worked_under_way};
pub use times::{rejected_clearing, rejected_times, worked_clearing, worked_times};
