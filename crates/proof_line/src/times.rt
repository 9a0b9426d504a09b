//! Numbers of ticks.

ghost use Rattle.std.specs.Prelude.{◌≡◌, Bool, true, Option, List, ℕ};
ghost use Rattle.s0_crypto.specs.declared.key_pair.Keys.{Keys};
ghost use Rattle.proof_world.specs.device_sim.State.{State};
ghost use Rattle.law_wire.specs.Serial.{ended};
ghost use Rattle.law_wire.specs.Times.{TellsTime};
ghost use Rattle.proof_walk.specs.world_model.State.{first_machine};
ghost use Rattle.proof_walk.specs.world_lines.Spoken.{Spoken, transcript_of};
ghost use Rattle.proof_walk.specs.world_lines.Done.{AreDone};
ghost use Rattle.proof_walk.specs.world_lines.Whole.{AreWhole};

use crate::numbers_go_on;
use proof_walk::time_goes_on;

/// Over any lines from the first on, the last of which an allocation failure may have cut short, the number of a tick stands once, before its first entry, and
/// nowhere else: each is later than all ticks that began before it and asked for by a line, and nothing else stands directly after the words of a `tick`; and
/// where all lines were run whole, none stands last.
pub fn ticks_are_told()
    ensures { (keys : Keys) (records : Option (List (List ℕ))) (devices : List State) (lines : List Spoken) (whole : Bool) →
        AreDone (first_machine keys records devices) lines →
        (whole ≡ true → AreWhole (first_machine keys records devices) lines) →
        TellsTime (ended whole (transcript_of (first_machine keys records devices) lines)) }
{
    time_goes_on();
    numbers_go_on();
}
