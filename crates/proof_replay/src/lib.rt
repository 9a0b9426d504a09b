//! The hosts of `sim`, `replay` and `host` are hosts alone, over what they heard: so the laws of such hosts are theirs.
//!
//! All laws of a host alone (`proof_alone`) that are proved are one record (`hosts_keep_laws`), and with a network key such a host is legal in all that a host
//! alone is asked (`hosts_are_legal`), from a start from records too (`hosts_are_legal_from_starts`). What the host of `sim` heard of its lines is told by a
//! run of such a host, so it keeps these laws over that and is legal (`lines_that_ran_are_heard`, `lines_that_ran_are_legal`). Lines of `replay` that are run
//! whole are one too, with the units that come in the bytes before what is made of them (`replays_are_a_hosts`, `texts_that_ran_are_heard`); and so are the
//! steps of `host`, which go on from what hosts heard in earlier runs over the same keeper (`served_steps_are_heard`), each from its start from the records.
//! The definitions are in `specs/Heard` and `specs/HostSteps` (what is heard) and `specs/Laws`. `proofs/Replaying` goes over what a line is: what it asks
//! for or the bytes that are taken, and a pump; or ticks, each with its pump. `proofs/Serving` goes over steps by the same parts. `proofs/Words` is of the
//! lines that are heard, of which none is for others; `proofs/Started` of runs that have gone through a start, which `proofs/Starting` makes.
#![tactic(auto)]

mod port;
mod replay;
mod sim;

pub use port::served_steps_are_heard;
pub use proof_asking::{
    lines_answer_questions, lines_ask_one_by_one, lines_clear_at_restarts,
    lines_clear_nowhere_else, lines_clear_the_line, lines_collide_when_asked, lines_end_interviews,
    lines_keep_links, lines_mark_units, lines_overrun_only_when_full, lines_overrun_when_full,
    lines_say_how_done, lines_send_what_is_due, lines_wake_as_told, ticks_are_told,
};
pub use proof_noting::{
    lines_count_nonces, lines_fall_asleep_as_told, lines_hold_as_asked, lines_leave_nothing,
    lines_note_ends, lines_note_in_full, lines_say_what_is_not_kept, lines_seal_once,
};
pub use replay::{
    hosts_are_legal, hosts_are_legal_from_starts, hosts_keep_laws, replays_are_a_hosts,
    runs_are_prompt, texts_that_ran_are_heard,
};
pub use sim::{lines_that_ran_are_heard, lines_that_ran_are_legal};
