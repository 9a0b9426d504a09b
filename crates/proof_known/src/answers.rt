//! The answers of a host alone, and all that is proved of it here.

ghost use Rattle.std.specs.Prelude.{◌≡◌, Bool, true, false, Some, List, []};
ghost use Rattle.s0_crypto.specs.declared.key_pair.Keys.{Keys};
ghost use Rattle.zw_text.specs.declared.entry.Entry.{Entry};
ghost use Rattle.proof_transcript.specs.law_transcript.Answers.{AnswersAfter, refusals_by_host};
ghost use Rattle.proof_transcript.specs.law_host.Heard.{heard_by_host, listing_heard};
ghost use Rattle.proof_waking.specs.proof_alone.State.{HostMachine, first_alone};
ghost use Rattle.proof_waking.specs.proof_alone.Phases.{Phase, Resting};
ghost use Rattle.proof_waking.specs.proof_alone.Runs.{Run, Told, ToldWhole};
ghost use Rattle.proof_known.specs.Known.{AreForHost, KeepsWhatIsSaid};

use crate::known::{hosts_keep_what_is_said, hosts_know_what_was_told};
use crate::records::hosts_record_what_is_shown;
use crate::shown::hosts_show_what_they_keep;
use proof_transcript::{laws_follow, tables_are_what_was_said};
use proof_waking::{hosts_answer_what_is_asked, hosts_keep_their_tables};

/// In any run of a host alone, over a keeper that tells its records and has none at first, in which no line is refused that is for others: each line has the
/// one answer that the transcript before it demands, and no answer stands elsewhere; where the run does not end at rest, its last line may lack its answer.
/// So it is of what the host heard of any run.
pub fn hosts_answer_lines()
    ensures told { (keys : Keys) (told : List Entry) → Told (first_alone keys (Some [])) told → AreForHost told →
        AnswersAfter [] false listing_heard (refusals_by_host listing_heard) told }
    ensures whole { (keys : Keys) (told : List Entry) → ToldWhole (first_alone keys (Some [])) told → AreForHost told →
        AnswersAfter [] true listing_heard (refusals_by_host listing_heard) told }
    ensures heard { (keys : Keys) (told : List Entry) → Told (first_alone keys (Some [])) told → AreForHost (heard_by_host told) }
{
    hosts_know_what_was_told();
    tables_are_what_was_said();
    laws_follow();
}

/// So any run of a host alone over such a keeper, in which no line is refused that is for others, answers lines, takes back what a line asks for, has one
/// session of a node at a time and each command in one, stores what is confirmed and shows what it stored; and where it ends at rest, the keeper's records
/// give what its transcript shows.
pub fn hosts_do_as_is_said()
    ensures { (keys : Keys) (whole : Bool) (here : Phase) (told : List Entry) (m : HostMachine) → Run (first_alone keys (Some [])) here told m →
        (whole ≡ true → here ≡ Resting) → AreForHost told → KeepsWhatIsSaid whole told m.records }
{
    hosts_keep_their_tables();
    hosts_answer_what_is_asked();
    hosts_keep_what_is_said();
    hosts_show_what_they_keep();
    hosts_record_what_is_shown();
    hosts_answer_lines();
}
