//! What `sim` writes is read back as it was entered, and judged by `audit` to be in order where each rule is kept.
//!
//! Each is the contract of a function with an empty body, over transcripts and over lines that are said one after another (`world_lines`).
//! `text` has that each entry of a run is read back. By laws of a transcript each rule is kept: `books` has the rules of sessions and once, `frames` and
//! `payloads` those of the air and of payloads, `tables` those of confirmed values and of the table, and `rules` all of them (`specs/Rules`). `whole` has what
//! follows from the rules together.
//! The definitions are in `specs/`: `Legible` (which entries are read back as they were written), `Books`, `Frames` and `Tables` (what a transcript shows
//! besides its laws, where it keeps the rules) and `Whole` (what a transcript keeps that is judged to be in order, entry by entry).
#![tactic(auto)]

mod books;
mod frames;
mod payloads;
mod rules;
mod tables;
mod text;
mod whole;

pub use books::{
    accepted_orders_were_asked, changes_are_entered_whole, changes_are_made_once,
    sessions_are_in_order, sessions_begin_before_changes,
};
pub use frames::frames_keep_the_rule_of_the_air;
pub use payloads::{carried_payloads_keep_their_rule, garbled_units_ask_nothing};
pub use proof_headline::{
    askable_nodes_have_the_headline, devices_as_made_begin_courses, nodes_have_the_headline,
    nodes_report_after_the_change, supervised_nodes_are_plain_or_locks,
};
pub use proof_transcript::{
    all_frames_land_in_the_end, commands_are_taken_back_when_asked, lines_are_answered,
    lines_carry_units, lines_lose_marked_frames, lines_number_frames, lines_show_what_is_kept,
    records_are_what_is_shown, sessions_begin_with_their_unit, tables_are_what_is_shown,
    ticks_decide_each_frame, values_are_stored_as_asked,
};
pub use rules::laws_keep_every_rule;
pub use tables::{
    a_table_is_its_lines, tables_are_as_due, values_are_stored_directly, values_stand_after_success,
};
pub use text::{entries_are_legible, lines_show_texts};
pub use whole::kept_rules_answer_yes;
