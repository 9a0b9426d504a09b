//! When nodes count as awake.

ghost use Rattle.std.specs.Prelude.{Some, List, [], Option, ℕ};
ghost use Rattle.s0_crypto.specs.declared.key_pair.Keys.{Keys};
ghost use Rattle.proof_alone.specs.device_sim.State.{State};
ghost use Rattle.zw_text.specs.declared.entry.Entry.{Entry};
ghost use Rattle.proof_alone.specs.law_host.Heard.{heard_by_host};
ghost use Rattle.proof_alone.specs.law_time.Waking.{WakesAsTold};
ghost use Rattle.proof_alone.specs.world_model.State.{first_machine};
ghost use Rattle.proof_alone.specs.world_lines.Spoken.{Spoken, transcript_of};
ghost use Rattle.proof_alone.specs.world_lines.Done.{AreDone};
ghost use Rattle.proof_alone.specs.State.{first_alone};
ghost use Rattle.proof_alone.specs.Runs.{Told};

use proof_alone::{lines_are_a_hosts, what_is_heard_is_a_hosts};

/// Of a host alone: a node counts as awake where a payload of it was judged that may tell so, and directly after one that tells nothing else.
pub fn hosts_wake_as_told()
    ensures { (keys : Keys) (records : Option (List (List ℕ))) (told : List Entry) → Told (first_alone keys records) told → WakesAsTold told }
{}

/// So it is of any lines from the first on, the last of which an allocation failure may have cut short, over a keeper that tells its records and has none at
/// first; and of what a host heard of them.
pub fn lines_wake_as_told()
    ensures lines { (keys : Keys) (devices : List State) (lines : List Spoken) → AreDone (first_machine keys (Some []) devices) lines →
        WakesAsTold (transcript_of (first_machine keys (Some []) devices) lines) }
    ensures heard { (keys : Keys) (devices : List State) (lines : List Spoken) → AreDone (first_machine keys (Some []) devices) lines →
        WakesAsTold (heard_by_host (transcript_of (first_machine keys (Some []) devices) lines)) }
{
    lines_are_a_hosts();
    what_is_heard_is_a_hosts();
    hosts_wake_as_told();
}
