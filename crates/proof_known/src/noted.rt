//! What a host alone notes of messages.

ghost use Rattle.std.specs.Prelude.{Some, List, [], ◌++◌};
ghost use Rattle.s0_crypto.specs.declared.key_pair.Keys.{Keys};
ghost use Rattle.zw_text.specs.declared.entry.Entry.{Entry};
ghost use Rattle.proof_waking.specs.proof_alone.State.{first_alone};
ghost use Rattle.proof_waking.specs.proof_alone.Runs.{Told};
ghost use Rattle.proof_transcript.specs.law_host.Worked.{
  begun,
  ended_by_other,
  ended_by_work,
  ended_of_another,
  ended_otherwise,
  failure_told,
  other_told,
  unread_payload,
  unsupported_told,
  value_again,
  value_heard,
};
ghost use Rattle.proof_known.specs.Noted.{NotesWhatOpens, NotesWhatWasTold};
ghost use Rattle.proof_known.specs.WorkedNotes.{ended_by_nothing, ended_unreported, lock_believed, lock_unread};

use crate::known::hosts_know_what_was_told;
use host_node::a_restart_needs_the_records_alone;
use proof_transcript::{laws_follow, tables_are_what_was_said};
use proof_waking::hosts_judge_as_told;

/// In any run of a host alone, over a keeper that tells its records and has none at first: a command ends only where a payload of its node was judged that
/// tells a report with the id of the node's last session, which is that of the command, and how it ended, sealed where the node lists Security 0; so it is
/// of old reports. A value is noted only of a payload that tells it, and stored where there is room, and that a payload cannot be read only of that one. What
/// of this is of a payload that is sealed, its node sealed with the host's keys, in a text that tells it.
pub fn hosts_note_what_was_told()
    ensures told { (keys : Keys) (told : List Entry) → Told (first_alone keys (Some [])) told → NotesWhatWasTold told }
    ensures opened { (keys : Keys) (told : List Entry) → Told (first_alone keys (Some [])) told → NotesWhatOpens keys told }
{
    hosts_know_what_was_told();
    hosts_judge_as_told();
    tables_are_what_was_said();
    laws_follow();
    a_restart_needs_the_records_alone();
}

/// Each ending by its report, an old one, a value and what cannot be read keep the law, and so does a lock whose report comes openly and is not read.
pub fn worked_telling()
    ensures failure { NotesWhatWasTold (begun ++ failure_told) }
    ensures unsupported { NotesWhatWasTold (begun ++ unsupported_told) }
    ensures old { NotesWhatWasTold (begun ++ other_told) }
    ensures value { NotesWhatWasTold value_heard }
    ensures unread { NotesWhatWasTold unread_payload }
    ensures openly { NotesWhatWasTold lock_unread }
{}

/// It is broken where a command ends without a report, by the report of another session, by one that the node is at work, otherwise than told, or as another
/// command; where a lock is believed that reports openly; and where a value is noted again that is not told.
pub fn rejected_telling()
    ensures unreported { NotesWhatWasTold (begun ++ ended_unreported) → ⊥ }
    ensures by_other { NotesWhatWasTold (begun ++ ended_by_other) → ⊥ }
    ensures by_work { NotesWhatWasTold (begun ++ ended_by_work) → ⊥ }
    ensures otherwise { NotesWhatWasTold (begun ++ ended_otherwise) → ⊥ }
    ensures another { NotesWhatWasTold (begun ++ ended_of_another) → ⊥ }
    ensures believed { NotesWhatWasTold lock_believed → ⊥ }
    ensures again { NotesWhatWasTold value_again → ⊥ }
{}

/// Where nothing that is judged is sealed, nothing is asked of what it opens to. A command does not end by two bytes that are sealed and seal nothing, though
/// they may be said to tell anything.
pub fn worked_opening()
    ensures openly { (keys : Keys) → NotesWhatOpens keys (begun ++ failure_told) }
    ensures anything { NotesWhatWasTold (begun ++ ended_by_nothing) }
    ensures nothing { (keys : Keys) → NotesWhatOpens keys (begun ++ ended_by_nothing) → ⊥ }
{}
