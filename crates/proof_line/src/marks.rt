//! Marks that lines set on the serial line.

ghost use Rattle.std.specs.Prelude.{◌≡◌, Bool, true, Option, List, ℕ};
ghost use Rattle.s0_crypto.specs.declared.key_pair.Keys.{Keys};
ghost use Rattle.proof_world.specs.device_sim.State.{State};
ghost use Rattle.law_wire.specs.Marks.{CollidesWhenAsked, MarksUnits};
ghost use Rattle.law_wire.specs.Serial.{ended};
ghost use Rattle.proof_walk.specs.world_model.State.{first_machine};
ghost use Rattle.proof_walk.specs.world_lines.Spoken.{Spoken, transcript_of};
ghost use Rattle.proof_walk.specs.world_lines.Done.{AreDone};
ghost use Rattle.proof_walk.specs.world_lines.Whole.{AreWhole};

use crate::{collisions_go_on, marks_go_on};

/// Over any lines from the first on, the last of which an allocation failure may have cut short, the chip answers a good frame CAN where a line has asked for a
/// collision that has not come, and ACK only where there is none.
pub fn lines_collide_when_asked()
    ensures { (keys : Keys) (records : Option (List (List ℕ))) (devices : List State) (lines : List Spoken) →
        AreDone (first_machine keys records devices) lines →
        CollidesWhenAsked (transcript_of (first_machine keys records devices) lines) }
{
    collisions_go_on();
}

/// Over any such lines, directly after a unit stands that it was lost, where a `drop` of its side waits, and else, of a data frame, that it was changed, as the
/// oldest `garble` of its side that waits says; and no other unit is told so. The same is so in the end, where all lines were run whole.
pub fn lines_mark_units()
    ensures { (keys : Keys) (records : Option (List (List ℕ))) (devices : List State) (lines : List Spoken) (whole : Bool) →
        AreDone (first_machine keys records devices) lines →
        (whole ≡ true → AreWhole (first_machine keys records devices) lines) →
        MarksUnits (ended whole (transcript_of (first_machine keys records devices) lines)) }
{
    marks_go_on();
}
