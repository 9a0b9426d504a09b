//! What messages mean at both ends: the device does what the order asks, and the host is told what the device did.
//!
//! Each law is the contract of a function with an empty body, over the definitions of orders, of wraps and of devices,
//! with neither machine nor air.
//! Of messages: `messages_open` and `messages_do_what_is_asked`, `segments_tell` and `messages_come_in_slices` for segments,
//! `sealed_messages_do_what_is_asked`, `others_are_no_messages` for everything else that the host sends, `reports_tell`
//! for what a device answers, `messages_follow_the_course` for what becomes of its sessions, and `devices_end_sessions`
//! for how a device ends those that it takes.
//! Of nonces and of sealed messages, by the numbers of nonces: `accounts_give_as_the_courses_do`,
//! `accounts_spend_as_the_courses_do` and `sealers_take_as_the_courses_do` for the books of one end;
//! `locks_hear_by_numbers` and `locks_answer_sealed_messages` for a lock; `hosts_leave_nonces`,
//! `hosts_open_what_was_sealed` and `hosts_seal_what_waits` for the host; `others_carry_no_nonce` for what else they
//! send; and `the_air_counts_nonces` for how old a frame is.
//!
//! The definitions are in `specs/`: `Asking`, `Landing`, `Others`, `Reporting`, `Segments`, `Slices` and `Ending` for messages
//! and sessions; `Numbers` (which nonce has which number), `Payloads` (what is sealed for which), `Locks`, `Hosts`,
//! `Opened`, `Shown` and `Waiting` for nonces.
#![tactic(auto)]

mod hosts;
mod landing;
mod locks;
mod messages;
mod no_nonces;
mod numbers;
mod opened;
mod others;
mod reports;
mod sealed;
mod segments;
mod sessions;
mod shown;
mod slices;
mod waiting;

pub use device_sim::when_changes_come;
pub use host_model::attempts_have_what_they_give;
pub use hosts::hosts_leave_nonces;
pub use landing::messages_follow_the_course;
pub use locks::locks_hear_by_numbers;
pub use messages::{messages_do_what_is_asked, messages_open};
pub use no_nonces::others_carry_no_nonce;
pub use numbers::{
    accounts_give_as_the_courses_do, accounts_spend_as_the_courses_do,
    sealers_take_as_the_courses_do,
};
pub use opened::{hosts_open_what_was_sealed, hosts_seal_what_waits};
pub use others::others_are_no_messages;
pub use reports::reports_tell;
pub use sealed::{sealed_messages_do_what_is_asked, what_is_sealed_opens};
pub use segments::segments_tell;
pub use sessions::devices_end_sessions;
pub use shown::the_air_counts_nonces;
pub use slices::messages_come_in_slices;
pub use waiting::locks_answer_sealed_messages;
