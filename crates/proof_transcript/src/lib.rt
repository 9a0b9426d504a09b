//! What every run's transcript shows of the answers to lines, of frames, of commands, of the table at the end, and of the records.
//!
//! This holds whatever is lost, delayed or repeated, whatever the host does, and whatever becomes of the devices. Each
//! law is the contract of a function with an empty body, over lines that are said one after another (`proof_spoken`)
//! and the events of the machine that each line is; the laws themselves are those of `law_transcript`. Of answers:
//! `lines_are_answered` (`specs/Answering`); and what lines show, `lines_show_what_is_kept` (`specs/Showing`). Of frames:
//! `lines_number_frames`, `ticks_decide_each_frame`, `all_frames_land_in_the_end`, `lines_lose_marked_frames`,
//! `lines_carry_units` (`specs/Carrying`). Of commands: `commands_are_taken_back_when_asked`,
//! `values_are_stored_as_asked`, `sessions_begin_with_their_unit`. Of the table:
//! `what_is_told` covers the clock, the joined nodes and the heard values (`specs/Told`), line by line, and
//! `tables_are_what_is_shown` the whole table if all lines were run whole (`AreWhole` of `proof_spoken`). Of the
//! records at exit: `records_are_what_is_shown`, over `specs/Records`, where all lines were run whole too.
#![tactic(auto)]

mod answers;
mod carrying;
mod commands;
mod frames;
mod records;
mod shows;
mod table;

pub use answers::lines_are_answered;
pub use carrying::lines_carry_units;
pub use commands::{
    commands_are_taken_back_when_asked, sessions_begin_with_their_unit, values_are_stored_as_asked,
};
pub use frames::{
    all_frames_land_in_the_end, lines_lose_marked_frames, lines_number_frames,
    ticks_decide_each_frame,
};
pub use proof_air::laws_follow;
pub use proof_spoken::{
    answers_stand_after_their_lines, interviews_give_what_is_known, lines_tell_what_nodes_list,
    orders_are_carried_as_said, restarts_go_on, runs_take_once, tables_are_what_was_said,
    tables_keep_orders, the_machine_keeps_facts,
};
pub use records::records_are_what_is_shown;
pub use shows::lines_show_what_is_kept;
pub use table::{tables_are_what_is_shown, what_is_told};
