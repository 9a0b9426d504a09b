//! What a host asks its chip to send, and why: by its own tables, and by the transcript of a run.
//!
//! Of one host, `hosts_send_for_reasons` says that each payload that it asks to be sent has its reason;
//! `what_is_judged_gives_reasons` has the reasons that nodes give, and `lines_ask_for_what_is_queued` those of lines;
//! `frames_ask_for_their_purpose` says that a frame asks for what its purpose is, and nothing else. By
//! `hosts_ask_what_is_due` the payload is due by the transcript, where that shows the reason.
//! `lines_send_what_is_due` says so of every run of lines. Each is the contract of a function with an empty body.
//! The definitions are in `specs/`: `Reasons` (why a payload may be sent, by the tables of the host), `Heard` (what
//! nodes say that is a reason), `Due` (the same as `Reasons`, by the transcript), `Arriving` (what arrives of the chip's
//! units) and `Knowing` (what is known at each phase of a line).
#![tactic(auto)]

mod asked;
mod lines;
mod reasons;

pub use asked::lines_ask_for_what_is_queued;
pub use lines::lines_send_what_is_due;
pub use proof_line::{
    lines_clear_at_restarts, lines_clear_nowhere_else, lines_clear_the_line,
    lines_collide_when_asked, lines_keep_links, lines_mark_units, lines_overrun_only_when_full,
    lines_overrun_when_full, ticks_are_told,
};
pub use proof_spoken::{orders_are_carried_as_said, tables_keep_orders};
pub use reasons::{
    frames_ask_for_their_purpose, hosts_ask_what_is_due, hosts_send_for_reasons,
    what_is_judged_gives_reasons,
};
