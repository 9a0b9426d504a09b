//! What a host notes of a payload.

ghost use Rattle.std.specs.Prelude.{true, false, Some, List, []};
ghost use Rattle.s0_crypto.specs.declared.key_pair.Keys.{Keys};
ghost use Rattle.device_sim.specs.State.{State};
ghost use Rattle.zw_text.specs.declared.entry.Entry.{Entry};
ghost use Rattle.proof_attempts.specs.world_model.State.{first_machine};
ghost use Rattle.proof_attempts.specs.world_lines.Spoken.{Spoken, transcript_of};
ghost use Rattle.proof_attempts.specs.world_lines.Done.{AreDone};
ghost use Rattle.proof_attempts.specs.world_lines.Whole.{AreWhole};
ghost use Rattle.proof_known.specs.law_host.Heard.{heard_by_host};
ghost use Rattle.proof_known.specs.proof_alone.State.{first_alone};
ghost use Rattle.proof_known.specs.proof_alone.Runs.{Told, ToldWhole};
ghost use Rattle.proof_notes.specs.Full.{NotesInFull};

use proof_attempts::{hosts_listen_as_told, hosts_show_open_sessions};
use proof_known::{
    hosts_know_what_was_told, laws_follow, lines_are_a_hosts, tables_are_what_was_said,
    what_is_heard_is_a_hosts,
};

/// In any run of a host alone, over a keeper that tells its records and has none at first: after each payload that was judged stand exactly the notes of its
/// messages, in order and before anything else is done, where it is not sealed; where it is, that it is not read, or the notes of what it opens to with the
/// host's keys. A report of the open session ends it, with the values that it confirms, or its record is not kept; one of another session is old, and one
/// that a node which lists Security 0 tells openly is not read. Where the run ends at rest, no note is left.
pub fn hosts_note_in_full()
    ensures told { (keys : Keys) (told : List Entry) → Told (first_alone keys (Some [])) told → NotesInFull keys false told }
    ensures whole { (keys : Keys) (told : List Entry) → ToldWhole (first_alone keys (Some [])) told → NotesInFull keys true told }
{
    hosts_know_what_was_told();
    hosts_listen_as_told();
    hosts_show_open_sessions();
    tables_are_what_was_said();
    laws_follow();
}

/// So it is over any lines from the first on, the last of which an allocation failure may have cut short, over a keeper that tells its records and has none at
/// first, also in the end where all were run whole; and of what a host heard of them.
pub fn lines_note_in_full()
    ensures lines { (keys : Keys) (devices : List State) (lines : List Spoken) → AreDone (first_machine keys (Some []) devices) lines →
        NotesInFull keys false (transcript_of (first_machine keys (Some []) devices) lines)
        × NotesInFull keys false (heard_by_host (transcript_of (first_machine keys (Some []) devices) lines)) }
    ensures whole { (keys : Keys) (devices : List State) (lines : List Spoken) → AreDone (first_machine keys (Some []) devices) lines →
        AreWhole (first_machine keys (Some []) devices) lines →
        NotesInFull keys true (transcript_of (first_machine keys (Some []) devices) lines)
        × NotesInFull keys true (heard_by_host (transcript_of (first_machine keys (Some []) devices) lines)) }
{
    lines_are_a_hosts();
    what_is_heard_is_a_hosts();
    hosts_note_in_full();
}
