//! When a node that is done with falls asleep.

ghost use Rattle.std.specs.Prelude.{◌≡◌, Some, List, [], false, true};
ghost use Rattle.s0_crypto.specs.declared.key_pair.Keys.{Keys};
ghost use Rattle.device_sim.specs.State.{State};
ghost use Rattle.zw_text.specs.declared.entry.Entry.{Entry};
ghost use Rattle.proof_work.specs.law_time.Waking.{FallsAsleep};
ghost use Rattle.proof_requests.specs.law_host.Heard.{heard_by_host};
ghost use Rattle.proof_work.specs.world_model.State.{first_machine};
ghost use Rattle.proof_work.specs.world_lines.Spoken.{Spoken, transcript_of};
ghost use Rattle.proof_work.specs.world_lines.Done.{AreDone};
ghost use Rattle.proof_work.specs.world_lines.Whole.{AreWhole};
ghost use Rattle.proof_requests.specs.proof_alone.State.{HostMachine, first_alone};
ghost use Rattle.proof_requests.specs.proof_alone.Phases.{Resting};
ghost use Rattle.proof_requests.specs.proof_alone.Runs.{Run, Told};
ghost use Rattle.proof_attempts.specs.Asleep.{KnowsSleep};
ghost use Rattle.proof_attempts.specs.Since.{AlongRuns};

use crate::waking::hosts_count_awake;
use crate::work::hosts_know_their_work;
use proof_requests::{
    hosts_ask_as_told, hosts_listen_as_told, hosts_tell_of_ends, lines_are_a_hosts,
    what_is_heard_is_a_hosts,
};
use proof_work::work_in_order_means;

/// Along each run of a host alone, over a keeper that tells its records and has none at first: each No More Information that it asks its chip to send tells a
/// node that there is no more for it; once one is over its node has fallen asleep, or listens, and while it is under way the node has not; a request that is
/// under way has not ended before the tick whose number is to be entered; and the nodes that are to tick are nodes.
pub fn hosts_tell_of_sleep()
    ensures { (keys : Keys) → AlongRuns keys KnowsSleep }
{
    hosts_count_awake();
    hosts_know_their_work();
    hosts_listen_as_told();
    hosts_ask_as_told();
    hosts_tell_of_ends();
    work_in_order_means();
}

/// In any such run a node falls asleep where it counts as awake and does not listen, and its third attempt or its No More Information has ended; and wherever
/// one of these has, it does before the next line, tick or request of the host. Where the run ends at rest, with no tick of its line to come, none is left to.
pub fn hosts_fall_asleep_as_told()
    ensures told { (keys : Keys) (told : List Entry) → Told (first_alone keys (Some [])) told → FallsAsleep false told }
    ensures whole { (keys : Keys) (told : List Entry) (m : HostMachine) → Run (first_alone keys (Some [])) Resting told m → m.left ≡ 0 →
        FallsAsleep true told }
{
    hosts_tell_of_sleep();
}

/// So it is over any lines from the first on, the last of which an allocation failure may have cut short, over a keeper that tells its records and has none at
/// first, also in the end where all were run whole; and of what a host heard of them.
pub fn lines_fall_asleep_as_told()
    ensures lines { (keys : Keys) (devices : List State) (lines : List Spoken) → AreDone (first_machine keys (Some []) devices) lines →
        FallsAsleep false (transcript_of (first_machine keys (Some []) devices) lines)
        × FallsAsleep false (heard_by_host (transcript_of (first_machine keys (Some []) devices) lines)) }
    ensures whole { (keys : Keys) (devices : List State) (lines : List Spoken) → AreDone (first_machine keys (Some []) devices) lines →
        AreWhole (first_machine keys (Some []) devices) lines →
        FallsAsleep true (transcript_of (first_machine keys (Some []) devices) lines)
        × FallsAsleep true (heard_by_host (transcript_of (first_machine keys (Some []) devices) lines)) }
{
    lines_are_a_hosts();
    what_is_heard_is_a_hosts();
    hosts_fall_asleep_as_told();
}
