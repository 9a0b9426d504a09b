//! What was said and told: the entry of an accepted order directly follows its line, and interviews tell what nodes
//! list.
//!
//! An interview that ends well concerns a joined node, and tells what the first device of that node lists. Each law is
//! the contract of a function with an empty body, over lines that are said one after another (`world_lines`) and the
//! events of the machine that each line is. `answers_stand_after_their_lines` is the induction over the lines.
//! `tables_are_what_was_said` gives what `proof_once` asks of the table, and `orders_are_carried_as_said` how each of
//! its orders is carried. `interviews_give_what_is_known` says which
//! classes the host then knows, and `lines_tell_what_nodes_list` that they are those that the device lists: the list
//! goes from the kind of a device to the chip (`proofs/ListsAtChip`), through the chip's frames (`proofs/Frames`,
//! `proofs/NoticeLists`) and over the line to the host (`proofs/HeardLists`).
//! The definitions are in `specs/`: `Spoken` (with what is assumed of restarts), `Said` (what is claimed of an order, and
//! what is assumed of interviews) and `Interviews`.
#![tactic(auto)]

mod interviews;
mod said;

pub use interviews::{interviews_tell_what_nodes_list, lines_tell_what_nodes_list};
pub use proof_once::{
    changes_are_shown, courses_tie_their_ends, devices_change_in_sessions, devices_go_on,
    devices_stay_the_same, endings_are_shown, headlines_follow, hosts_leave_nonces,
};
pub use proof_world::{
    hosts_write_well, lines_keep_and_ask_well, restarts_go_on, runs_take_once,
    the_machine_keeps_facts, units_are_judged_whole,
};
pub use said::{
    answers_stand_after_their_lines, interviews_give_what_is_known, orders_are_carried_as_said,
    runs_have_their_tables, tables_are_what_was_said, tables_keep_orders,
};
