//! What a host leaves undone where it rests: nothing that lines asked for, and no abort.

ghost use Rattle.std.specs.Prelude.{◌≡◌, Some, List, [], false, true};
ghost use Rattle.s0_crypto.specs.declared.key_pair.Keys.{Keys};
ghost use Rattle.device_sim.specs.State.{State};
ghost use Rattle.zw_text.specs.declared.entry.Entry.{Entry};
ghost use Rattle.proof_nonces.specs.proof_work.world_model.State.{first_machine};
ghost use Rattle.proof_nonces.specs.proof_work.world_lines.Spoken.{Spoken, transcript_of};
ghost use Rattle.proof_nonces.specs.proof_work.world_lines.Done.{AreDone};
ghost use Rattle.proof_nonces.specs.proof_work.world_lines.Whole.{AreWhole};
ghost use Rattle.proof_nonces.specs.proof_attempts.proof_requests.law_host.Heard.{heard_by_host};
ghost use Rattle.proof_nonces.specs.proof_attempts.proof_requests.proof_alone.State.{HostMachine, first_alone};
ghost use Rattle.proof_nonces.specs.proof_attempts.proof_requests.proof_alone.Phases.{Resting};
ghost use Rattle.proof_nonces.specs.proof_attempts.proof_requests.proof_alone.Runs.{Run, Told};
ghost use Rattle.proof_nonces.specs.proof_attempts.Since.{AlongRuns};
ghost use Rattle.proof_rests.specs.Known.{KnowsAll};
ghost use Rattle.proof_rests.specs.Undone.{LeavesNothing};

use proof_nonces::{
    ends_of_tasks_are_told, hosts_ask_as_told, hosts_know_their_work, hosts_tell_of_ends,
    lines_are_a_hosts, tasks_end_in_order, what_is_heard_is_a_hosts,
};

/// In any run of a host alone, over a keeper that tells its records and has none at first, the Sets, Gets and interviews that lines asked for
/// are counted: at each line and each tick before which the last request was over, no abort is owed, and each Set, Get and interview that lines asked for since
/// the host started has ended; of a node for which the keeper has failed since then an interview may be left without an end. Where the run ends at rest, with
/// no tick of its line to come, so it is in the end.
pub fn hosts_leave_nothing()
    ensures known { (keys : Keys) → AlongRuns keys KnowsAll }
    ensures told { (keys : Keys) (told : List Entry) → Told (first_alone keys (Some [])) told → LeavesNothing false told }
    ensures whole { (keys : Keys) (told : List Entry) (m : HostMachine) → Run (first_alone keys (Some [])) Resting told m → m.left ≡ 0 →
        LeavesNothing true told }
{
    hosts_know_their_work();
    hosts_ask_as_told();
    hosts_tell_of_ends();
    tasks_end_in_order();
    ends_of_tasks_are_told();
}

/// So it is over any lines from the first on, the last of which an allocation failure may have cut short, over a keeper that tells its records and has none at
/// first, also in the end where all were run whole; and of what a host heard of them.
pub fn lines_leave_nothing()
    ensures lines { (keys : Keys) (devices : List State) (lines : List Spoken) → AreDone (first_machine keys (Some []) devices) lines →
        LeavesNothing false (transcript_of (first_machine keys (Some []) devices) lines)
        × LeavesNothing false (heard_by_host (transcript_of (first_machine keys (Some []) devices) lines)) }
    ensures whole { (keys : Keys) (devices : List State) (lines : List Spoken) → AreDone (first_machine keys (Some []) devices) lines →
        AreWhole (first_machine keys (Some []) devices) lines →
        LeavesNothing true (transcript_of (first_machine keys (Some []) devices) lines)
        × LeavesNothing true (heard_by_host (transcript_of (first_machine keys (Some []) devices) lines)) }
{
    lines_are_a_hosts();
    what_is_heard_is_a_hosts();
    hosts_leave_nothing();
}
