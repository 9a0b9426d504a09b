//! That a host notes what happens, and nothing else.
//!
//! The law of the host's notes (`NotesWhatHappens` of `law_host`) is a course over the transcript, which chooses what is due and takes one note after
//! another. `proof_following` says what the course makes of one step. Here the course is walked with a host alone along each of its runs, one time: at
//! each phase it stands to the host as `specs/Noting` says, each kind of step keeps that (`notes_go_beside`, `notes_go_with_requests`,
//! `notes_go_with_items`, `notes_go_with_payloads`, `notes_go_with_ticks`), and so the law holds of each run (`hosts_note_what_happens`), and of what is
//! heard after a host has started again from its records (`hosts_note_from_starts`): the walk is the same, and only where the course begins is not.
//! The definitions are in `specs/`: `Sure` (of which runs this is said), `Ground` (what is known of the host along them by other crates), `Following`,
//! `Behind` and `Ticking` (how the course stands between the host's parts, after an item that was judged, and in the host's part of a tick), `Noting` (all of
//! these, by phase), `Steps` (what is owed of each kind of step), `Parts` (all that is) and `Starts` (a start in the middle of a run).
//! `proofs/Whole` is the walk, from where it begins (`Starting`, `KeptBooks`, `KeptNonces`) to the law (`InFull`, `InFront`), over `Grounding`, `Lately`,
//! `Quietly`, `Surely` and `Fitted`. Steps of others, of lines and of time are in `Others`, `Onwards`, `Becoming`, `Going`, `Choosing`, `Lines`, `Begun` and
//! `Rested`; requests in `NewRequests`, `NewlyAsked`, `Requested`, `Sendings` and `StartsAgain`; items in `ItemsGo`, `ItemsFit`, `FramesGo`, `ByAnswers`,
//! `ByRefusals`, `GoneSo` and `Aborts`, with the end of a request in `EndNotes`, `EndCourse`, `EndLeaves`, `LeftBooks` and `EndedBooks`; payloads in those
//! that begin with `Payload`, `Acknowledged`, `Followers` and `Unopened`; ticks in those that begin with `Tick`, and `Ascending`. `JudgedFrame` has what is
//! known where any frame is judged, `Marks` what marks and notes leave, `Followed` where the course follows by what is under way, and `AsksSealed` what the
//! request under way is while something of its node is to be sealed.
#![tactic(auto)]

mod beside;
mod items;
mod noting;
mod payloads;
mod requests;
mod ticks;

pub use beside::notes_go_beside;
pub use items::notes_go_with_items;
pub use noting::{hosts_note_from_starts, hosts_note_what_happens};
pub use payloads::notes_go_with_payloads;
pub use proof_hearing::{
    hosts_are_prompt, hosts_count_nonces, hosts_fall_asleep_as_told, hosts_go_by_messages,
    hosts_hold_as_asked, hosts_note_ends, hosts_note_in_full, hosts_say_what_is_not_kept,
    hosts_seal_once, lines_count_nonces, lines_fall_asleep_as_told, lines_hold_as_asked,
    lines_leave_nothing, lines_note_ends, lines_note_in_full, lines_say_what_is_not_kept,
    lines_seal_once,
};
pub use requests::notes_go_with_requests;
pub use ticks::notes_go_with_ticks;
