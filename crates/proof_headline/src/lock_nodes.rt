//! Locks, which take their commands sealed: that both ends are tied.

ghost use Rattle.std.specs.Prelude.{◌≡◌, ℕ, List, Some, []};
ghost use Rattle.device_sim.specs.State.{State};
ghost use Rattle.law_transcript.specs.Nodes.{device_of};
ghost use Rattle.proof_course_sealed.specs.LockNodes.{IsLockNode};
ghost use Rattle.s0_crypto.specs.declared.key_pair.Keys.{Keys};
ghost use Rattle.world_model.specs.State.{first_machine};
ghost use Rattle.proof_spoken.specs.proof_once.Tied.{AreTied};
ghost use Rattle.world_lines.specs.Spoken.{Spoken, after_all};
ghost use Rattle.world_lines.specs.Done.{AreDone};
ghost use Rattle.proof_headline.specs.Truly.{LinesAreTrue};

use proof_course_sealed::{lines_ask_plainly, lines_have_courses};
use proof_spoken::{courses_tie_their_ends, lines_keep_and_ask_well};

/// Over any lines that were read, a lock is tied to the host in the end, and each success that the host is told of it is true at the moment it is told.
pub fn locks_are_tied()
    ensures tied { (keys : Keys) (devices : List State) (lines : List Spoken) (node : ℕ) (device : State) → IsLockNode keys devices node →
        AreDone (first_machine keys (Some []) devices) lines →
        device_of node (after_all (first_machine keys (Some []) devices) lines).outside.devices ≡ Some device →
        AreTied (after_all (first_machine keys (Some []) devices) lines).host.state node device }
    ensures truth { (keys : Keys) (devices : List State) (lines : List Spoken) (node : ℕ) → IsLockNode keys devices node →
        AreDone (first_machine keys (Some []) devices) lines → LinesAreTrue node (first_machine keys (Some []) devices) lines }
{
    lines_ask_plainly();
    lines_have_courses();
    courses_tie_their_ends();
    lines_keep_and_ask_well();
}
