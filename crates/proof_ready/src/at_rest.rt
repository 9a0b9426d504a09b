//! The host of the machine, as a host alone.

ghost use Rattle.std.specs.Prelude.{List, Some, []};
ghost use Rattle.s0_crypto.specs.declared.key_pair.Keys.{Keys};
ghost use Rattle.proof_rests.specs.proof_requests.proof_alone.State.{first_alone};
ghost use Rattle.proof_rests.specs.proof_requests.proof_alone.Reading.{ReadsAtRest};
ghost use Rattle.proof_rests.specs.proof_attempts.proof_host.device_sim.State.{State};
ghost use Rattle.proof_rests.specs.proof_attempts.world_model.State.{first_machine};
ghost use Rattle.proof_rests.specs.world_lines.Spoken.{Spoken, after_all, transcript_of};
ghost use Rattle.proof_rests.specs.world_lines.Done.{AreDone};
ghost use Rattle.proof_rests.specs.world_lines.Whole.{AreWhole};

use proof_chip::{hosts_write_well, lines_keep_and_ask_well, units_are_judged_whole};
use proof_rests::machines_are_read_as_hosts;

/// After lines that were all run whole the machine is read as a host alone at rest, to which a careful run has led, and what has come for it is frames alone.
pub fn lines_leave_a_host_at_rest()
    ensures { (keys : Keys) (devices : List State) (lines : List Spoken) → AreDone (first_machine keys (Some []) devices) lines →
        AreWhole (first_machine keys (Some []) devices) lines →
        ReadsAtRest (first_alone keys (Some [])) 0 (transcript_of (first_machine keys (Some []) devices) lines)
        (after_all (first_machine keys (Some []) devices) lines) }
{
    machines_are_read_as_hosts();
    units_are_judged_whole();
    hosts_write_well();
    lines_keep_and_ask_well();
}
