//! What of the serial line goes on the air.

ghost use Rattle.std.specs.Prelude.{Some, List, []};
ghost use Rattle.s0_crypto.specs.declared.key_pair.Keys.{Keys};
ghost use Rattle.device_sim.specs.State.{State};
ghost use Rattle.law_host.specs.law_transcript.Carrying.{CarriesUnits};
ghost use Rattle.proof_air.specs.world_model.State.{first_machine};
ghost use Rattle.proof_air.specs.world_lines.Spoken.{Spoken, transcript_of};
ghost use Rattle.proof_air.specs.world_lines.Done.{AreDone};

use chip_sim::rules_of_events;
use proof_air::history_goes_on;
use proof_spoken::{hosts_write_well, lines_keep_and_ask_well, units_are_judged_whole};

/// Over lines that are said one after another, the last of which an allocation failure may have cut short, over a keeper that tells its records and has none at
/// first: each frame of the controller on the air carries what a SendData asks to be sent that came to the chip before, whole and with its right checksum, one
/// each and in order.
pub fn lines_carry_units()
    ensures { (keys : Keys) (devices : List State) (lines : List Spoken) → AreDone (first_machine keys (Some []) devices) lines →
        CarriesUnits (transcript_of (first_machine keys (Some []) devices) lines) }
{
    rules_of_events();
    history_goes_on();
    units_are_judged_whole();
    hosts_write_well();
    lines_keep_and_ask_well();
}
