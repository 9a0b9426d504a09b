//! When frames have their fate.

ghost use Rattle.std.specs.Prelude.{◌≡◌, Bool, true, Option, List, [], ℕ};
ghost use Rattle.s0_crypto.specs.declared.key_pair.Keys.{Keys};
ghost use Rattle.law_wire.specs.device_sim.State.{State};
ghost use Rattle.law_wire.specs.Arriving.{LandsInTime, MayLand};
ghost use Rattle.law_wire.specs.Serial.{ended};
ghost use Rattle.proof_walk.specs.world_model.State.{first_machine};
ghost use Rattle.proof_walk.specs.world_lines.Spoken.{Spoken, transcript_of};
ghost use Rattle.proof_walk.specs.world_lines.Done.{AreDone};
ghost use Rattle.proof_walk.specs.world_lines.Whole.{AreWhole};
ghost use Rattle.proof_walk.specs.Phases.{Between};
ghost use Rattle.proof_walk.specs.Time.{KnowTime};
ghost use Rattle.proof_walk.specs.Walk.{WalkOver, both_know};
ghost use Rattle.proof_air.specs.Hearing.{KnowAir};
ghost use Rattle.proof_air.specs.Landing.{KnowLanding};

use crate::history_goes_on;
use proof_walk::time_goes_on;

/// At each phase of a line, where the history of the air and time are known, those frames have had their fate that were sent before the last tick that has
/// begun, but for those that are still to arrive in it.
pub fn landings_go_on()
    ensures walk { WalkOver (both_know KnowAir KnowTime) MayLand KnowLanding }
    ensures first { (keys : Keys) (records : Option (List (List ℕ))) (devices : List State) →
        KnowLanding Between [] (first_machine keys records devices) }
{}

/// Over any lines from the first on, the last of which an allocation failure may have cut short, each frame has its fate in the tick after the one in which it
/// went on the air, also where nothing else is entered in that tick; and in the end too, where each line was run whole.
pub fn lines_land_in_time()
    ensures { (keys : Keys) (records : Option (List (List ℕ))) (devices : List State) (lines : List Spoken) (whole : Bool) →
        AreDone (first_machine keys records devices) lines →
        (whole ≡ true → AreWhole (first_machine keys records devices) lines) →
        LandsInTime (ended whole (transcript_of (first_machine keys records devices) lines)) }
{
    history_goes_on();
    time_goes_on();
    landings_go_on();
}
