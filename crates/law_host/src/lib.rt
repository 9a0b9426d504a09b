//! What a host alone does, as definitions: each entry that it makes of what it heard.
//!
//! The laws of this crate speak of the host alone, over what it heard: no device, chip or air. After each event stand
//! exactly the notes that it makes, in order, over whatever records the keeper kept; and a host is legal where these
//! and the laws of the crates below hold of what it heard. A run is legal where all laws of every run hold of it. The
//! crate promises nothing of a program.
//!
//! The definitions are in `specs/`: `Course` (what stands next, and what no entry shows), `Nonces`, `Messages`, `Ends`,
//! `Frames` and `Ticks` (what each event makes), `Following` and `Notes` (the law of notes and nonces); `Heard` (what a
//! host heard of a run); `HostLegal` (the laws of the host, as one), `Starting` (how it starts from records), `Story` (how
//! it starts from any, whoever left them) and `Legal` (those of a run, as one). `Worked` has the transcripts that the functions here speak of.
#![tactic(auto)]

mod heard;
mod heeds;
mod legal;
mod nonces;
mod notes;
mod story;
mod values;

pub use heard::worked_heard;
pub use heeds::{rejected_heeds, worked_heedings, worked_heeds};
pub use legal::{
    rejected_legal, rejected_life, rejected_run, rejected_start, worked_legal, worked_life,
    worked_open_life, worked_run, worked_start,
};
pub use nonces::{rejected_nonces, worked_nonces};
pub use notes::{rejected_notes, worked_notes};
pub use story::{rejected_story, worked_story};
pub use values::{rejected_shown_values, worked_shown_values};
