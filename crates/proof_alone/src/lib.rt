//! A host alone, over what it hears: the host of the simulator is one, so the laws of such hosts are its laws.
//!
//! The machine of the simulator is read as a host alone: its transcript, and what the host heard of it, are those of a run of such a host
//! (`lines_are_a_hosts`, `what_is_heard_is_a_hosts`). What holds of all runs of a host alone therefore holds of all lines.
//! The definitions are in `specs/`: `State` and `Steps` (what a host alone is, and what may happen to it), `Phases` (where each step may come), `Runs`
//! (runs, and what a law owes: something for each step, and for each part that begins), `Careful` (runs that judge what has come as programs do, and hear
//! nothing but frames in a tick before the host's part: those of the simulator's machine are), `Reading` (how that machine is read so, at each phase of a
//! line), and `Time`, `Words` and `Tables` (the grounds of laws).
//! `proofs/Running` has what a walk gives of a run (`run_keeps`), and one walk on the ground of another (`over`); `proofs/Carefully` has careful runs, a
//! step at a time. Three grounds are proved: the clock of the host is that of the transcript (`hosts_tell_time`), the words of a
//! line stand last where the host is asked (`proofs/Words`), and its tables are what the transcript shows (`hosts_keep_their_tables`).
//! `hosts_answer_what_is_asked` is a law over the last two. From any records, whoever left them, the tables go on too (`hosts_keep_their_tables_from_records`,
//! over `proofs/Since`: what is known as a host starts goes on from there).
#![tactic(auto)]

mod from_records;
mod hosts;
mod tables;
mod time;

pub use from_records::{
    hosts_keep_their_tables_after_a_story, hosts_keep_their_tables_from_records, stories_are_told,
};
pub use hosts::{lines_are_a_hosts, machines_are_read_as_hosts, what_is_heard_is_a_hosts};
pub use proof_line::{
    frames_fly_in_order, hosts_obey_the_line, lines_make_requests, outsides_make_requests,
};
pub use tables::{
    hosts_answer_what_is_asked, hosts_keep_their_tables, what_is_heard_keeps_the_laws_of_hosts,
};
pub use time::hosts_tell_time;
