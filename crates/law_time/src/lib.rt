//! The laws of the host's waits and of answers in time, as definitions.
//!
//! They say how requests end, when nodes count as awake or asleep, when a command is given up, what the host owes when
//! it rests, and how soon a stretch that begins in a calm moment answers. The crate promises nothing of a program. Each
//! law reads a transcript by the views of `zw_text` and the words of `law_transcript` and, for calm moments, the
//! devices as they are then. Worked transcripts, and others with one thing wrong, show what each law means.
//!
//! The definitions are in `specs/`, one file a law: `Moments` (the clock, and laws that judge each entry by those
//! before it), `Judged`, `Requests` and `Ends` (what the host has judged, its last request, and how that ends); `Heeds`
//! (by which messages it goes); `Errands`, `Questions` and `Interviews` (what is said of ends); `Waking` and `Holds`;
//! `Sessions` (whether attempts of a session run), `Wants` and `Queue` (which requests wait), `Attempts` (what an
//! attempt has sent, and when it is over) and `Choice` (which request is next); `Unanswered`; `Rests` (what is owed
//! when the host rests) and `Prompt` (those of the queue, of turns, attempts and rests as one); `Calm` and `Stretches`.
//! `Worked..` and `Wrong..` are the transcripts that the functions here speak of.
#![tactic(auto)]

mod calm;
mod choice;
mod queue;
mod requests;
mod waits;
mod waking;

pub use calm::{
    owed_stretches, rejected_calm, rejected_stretches, stuck_stretches, unkept_stretches,
    worked_calm, worked_stretches,
};
pub use choice::{
    rejected_callbacks, rejected_choice, rejected_one_by_one, worked_callbacks, worked_choice,
    worked_one_by_one,
};
pub use law_wire::{
    rejected_links, rejected_records, worked_answers, worked_arrivals, worked_bringing,
    worked_cancels, worked_collisions, worked_devices, worked_doings, worked_fates,
    worked_forgetting, worked_frames, worked_landings, worked_links, worked_losses, worked_marks,
    worked_payloads, worked_pipes, worked_records, worked_repeats, worked_routes, worked_service,
    worked_showing, worked_stores, worked_units,
};
pub use queue::{rejected_queue, rejected_turns, worked_queue, worked_turns};
pub use requests::{
    rejected_errands, rejected_interviews, rejected_questions, worked_errands, worked_interviews,
    worked_questions,
};
pub use waits::{
    rejected_prompt, rejected_rests, rejected_waits, worked_attempts, worked_prompt, worked_rests,
};
pub use waking::{rejected_waking, worked_holds, worked_sleeping, worked_waking};
