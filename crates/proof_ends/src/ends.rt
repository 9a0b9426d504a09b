//! What a host notes of the ends of its requests.

ghost use Rattle.std.specs.Prelude.{◌≡◌, true, false, Some, List, []};
ghost use Rattle.s0_crypto.specs.declared.key_pair.Keys.{Keys};
ghost use Rattle.device_sim.specs.State.{State};
ghost use Rattle.zw_text.specs.declared.entry.Entry.{Entry};
ghost use Rattle.world_model.specs.State.{first_machine};
ghost use Rattle.proof_rests.specs.world_lines.Spoken.{Spoken, transcript_of};
ghost use Rattle.proof_rests.specs.world_lines.Done.{AreDone};
ghost use Rattle.proof_rests.specs.world_lines.Whole.{AreWhole};
ghost use Rattle.proof_rests.specs.proof_requests.law_host.Heard.{heard_by_host};
ghost use Rattle.proof_rests.specs.proof_requests.proof_alone.State.{HostMachine, first_alone};
ghost use Rattle.proof_rests.specs.proof_requests.proof_alone.Phases.{Resting};
ghost use Rattle.proof_rests.specs.proof_requests.proof_alone.Runs.{Run, Told};
ghost use Rattle.proof_ends.specs.Ends.{NotesOfEnds};

use proof_rests::{
    hosts_show_open_sessions, hosts_tell_of_ends, hosts_tell_of_sleep, lines_are_a_hosts,
    what_is_heard_is_a_hosts,
};

/// In any run of a host alone, over a keeper that tells its records and has none at first: the notes of each end of a request stand together, once and in
/// order, and so do those of a command that is given up; none of them stands elsewhere. A request is asked where the last one is over, and where a line or a
/// tick begins none has ended with its notes to come; nor has one where the run rests, with no tick of its line to come.
pub fn hosts_note_ends()
    ensures told { (keys : Keys) (told : List Entry) → Told (first_alone keys (Some [])) told → NotesOfEnds false told }
    ensures whole { (keys : Keys) (told : List Entry) (m : HostMachine) → Run (first_alone keys (Some [])) Resting told m → m.left ≡ 0 →
        NotesOfEnds true told }
{
    hosts_tell_of_sleep();
    hosts_tell_of_ends();
    hosts_show_open_sessions();
}

/// So it is over any lines from the first on, the last of which an allocation failure may have cut short, over a keeper that tells its records and has none at
/// first, also in the end where all were run whole; and of what a host heard of them.
pub fn lines_note_ends()
    ensures lines { (keys : Keys) (devices : List State) (lines : List Spoken) → AreDone (first_machine keys (Some []) devices) lines →
        NotesOfEnds false (transcript_of (first_machine keys (Some []) devices) lines)
        × NotesOfEnds false (heard_by_host (transcript_of (first_machine keys (Some []) devices) lines)) }
    ensures whole { (keys : Keys) (devices : List State) (lines : List Spoken) → AreDone (first_machine keys (Some []) devices) lines →
        AreWhole (first_machine keys (Some []) devices) lines →
        NotesOfEnds true (transcript_of (first_machine keys (Some []) devices) lines)
        × NotesOfEnds true (heard_by_host (transcript_of (first_machine keys (Some []) devices) lines)) }
{
    lines_are_a_hosts();
    what_is_heard_is_a_hosts();
    hosts_note_ends();
}
