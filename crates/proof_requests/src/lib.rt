//! The requests of a host, by its transcript: how the last one stands, what each entry makes of it, and that it is what the host holds; and which nodes listen.
//!
//! A host has one request at a time, and `law_time` says by its transcript how the last one ends. What those rules look at is little: its frame, its copies,
//! the answers of the chip after the last one, and the frames of the chip that were judged since (`requests_stand_by_entries`). The side of the line and the
//! request under way of a host alone (`proof_alone`) are tied to that at each phase (`hosts_ask_as_told`). The ground is what is known of its tables, its time
//! and what it judged, that answers are judged as they come, and that what waits to be asked can be read as the request that it is.
//! By what the request before the last one brought, each node listens by the transcript as in the host (`hosts_listen_as_told`). Where the request ends in
//! the host it ends by the transcript, in the same way and there, and what tells of ends stands just so (`hosts_tell_of_ends`): so questions are answered where
//! the first response to them is judged (`hosts_answer_questions`), and interviews end as the transcript tells (`hosts_end_interviews`).
//! The definitions are in `specs/`: `Standing` (what the rules look at, and their words over that), `Effects` and `Saying` (what an answer and a frame of the
//! chip make of it), `Carrying` (what a request carries), `Asking` (the tie), `Walking` (the tie at each phase, and its ground), `Ends` (how a request ends,
//! and what is to be told of it) and `Numbers` (the callback ids). `proofs/Growing` has the last request after more entries, `proofs/Standing` how it stands
//! then; `Line`, `Judging`, `Ended` and `UnderWay` go on with the line, with what was judged, with its end and with its wait; `Saying` has frames of the chip
//! as text and as what the host makes of them; `OnLine` and `Moving` what happens to a host, `Doing` and `Events` its events, `Telling` the entries,
//! `Walking` and `Stepping` the walk, and `Ending` what follows. Of its ground `Came` has the units that came, `Spelled` requests as they are read, `Carried`
//! what they carry, `Queued` and `Queueing` those that wait, and `Grounds` all of it. `Brought` has what an interview is told, and `Listening` what it says.
//! `EndsHere` has what a frame that is judged ends, `EndsLate` waits and the line, `EndsDone` the word for it, `Untold` entries that tell of no end, and
//! `EndsTold` the walk over them; `Questions` and `Interviews` read their laws off it.
#![tactic(auto)]

mod asking;
mod ends;
mod entries;

pub use asking::{hosts_ask_as_told, hosts_listen_as_told};
pub use ends::{
    hosts_answer_questions, hosts_end_interviews, hosts_tell_of_ends, lines_answer_questions,
    lines_end_interviews,
};
pub use entries::requests_stand_by_entries;
pub use proof_messages::hosts_leave_nonces;
pub use proof_waking::{
    hosts_judge_as_told, hosts_keep_their_tables, hosts_obey_the_line, hosts_tell_time,
    lines_are_a_hosts, what_is_heard_is_a_hosts,
};
