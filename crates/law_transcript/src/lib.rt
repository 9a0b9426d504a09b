//! The laws of whole transcripts, as definitions: what holds of the transcript of a run, whatever the lines, nodes,
//! losses and restarts.
//!
//! The crate promises nothing of a program. Each law reads a transcript by the views of `zw_text`, the lines, the
//! devices' states at the beginning and the end and, if it says so, the keeper's records. Worked transcripts, and
//! others with one thing wrong, show what each law means.
//!
//! The definitions are in `specs/`, one file a law: `Nodes` and `Commands` (what is known of nodes, and what is asked
//! of them), `Restarts`, `Sessions`, `Once`, `Values` and `Headline`; `Answers` and `Stores` of the host, `Payloads`
//! of what it sends; `Units`, `Links` and `Carrying` of the serial line; `Fates` and `Repeats` of the air; `Devices`,
//! `Records`, `Table`. `Lists` has their words for lists; `Worked..` are the transcripts that the functions here speak
//! of.
#![tactic(auto)]

mod air;
mod device;
mod host;
mod once;
mod wire;

pub use air::{rejected_fates, worked_fates, worked_frames, worked_freshness, worked_losses};
pub use device::{
    rejected_devices, rejected_made, rejected_records, worked_devices, worked_made, worked_records,
    worked_table,
};
pub use device_sim::{sessions_rise, when_changes_come};
pub use host::{
    rejected_answers, rejected_lines, worked_answers, worked_bounds, worked_cancels,
    worked_choices, worked_first, worked_heard, worked_properties, worked_refusals, worked_stores,
};
pub use once::{
    rejected_headline, rejected_once, rejected_sessions, worked_confirmed, worked_headline,
    worked_once, worked_sessions, worked_successes, worked_values,
};
pub use wire::{
    rejected_payloads, rejected_wire, worked_begins, worked_bringing, worked_payloads, worked_units,
};
