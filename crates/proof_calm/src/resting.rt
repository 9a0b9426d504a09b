//! The serial line, over quiet lines.

ghost use Rattle.std.specs.Prelude.{List, Option, ℕ};
ghost use Rattle.s0_crypto.specs.declared.key_pair.Keys.{Keys};
ghost use Rattle.device_sim.specs.State.{State};
ghost use Rattle.world_model.specs.Did.{AllAlong};
ghost use Rattle.world_model.specs.State.{Machine, first_machine};
ghost use Rattle.world_lines.specs.Spoken.{Spoken, after_all, transcript_of};
ghost use Rattle.world_lines.specs.Done.{AreDone, events_of};
ghost use Rattle.world_lines.specs.Whole.{AreWhole};
ghost use Rattle.proof_work.specs.proof_walk.Walk.{WalkWhere};
ghost use Rattle.proof_work.specs.Phases.{AsksNothing};
ghost use Rattle.proof_calm.specs.Quiet.{AreQuiet};
ghost use Rattle.proof_calm.specs.Resting.{KnowLine, LineRests};
ghost use Rattle.proof_calm.specs.Settling.{IsServed};

use proof_waking::frames_fly_in_order;
use proof_work::turns_of_a_pump_leave_nothing;

/// At first the serial line rests: nothing is marked to be lost, no byte is on its way, and neither side has a frame of its own on the line or in a queue.
/// Where the chip takes the payload of each frame that it judges, it rests again after each quiet line and each tick: whatever frames arrive, every settling
/// brings all that the chip has for the host, and ends in fewer than 64 passes.
pub fn the_line_rests()
    ensures first { (keys : Keys) (records : Option (List (List ℕ))) (devices : List State) → LineRests (first_machine keys records devices) }
    ensures walk { WalkWhere IsServed AsksNothing KnowLine }
    ensures lines { (m : Machine) (lines : List Spoken) → AreDone m lines → AreWhole m lines → AllAlong IsServed m (events_of lines) →
        AreQuiet (transcript_of m lines) → LineRests m → LineRests (after_all m lines) }
{
    frames_fly_in_order();
    turns_of_a_pump_leave_nothing();
}
