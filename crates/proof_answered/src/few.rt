//! How many frames are on the air, over quiet lines.

ghost use Rattle.std.specs.Prelude.{◌+◌, Bool, List, Option, ℕ};
ghost use Rattle.s0_crypto.specs.declared.key_pair.Keys.{Keys};
ghost use Rattle.device_sim.specs.State.{State};
ghost use Rattle.world_model.specs.Did.{AllAlong};
ghost use Rattle.world_model.specs.State.{Machine, first_machine};
ghost use Rattle.world_lines.specs.Spoken.{Spoken, after_all, transcript_of};
ghost use Rattle.world_lines.specs.Done.{AreDone, events_of};
ghost use Rattle.world_lines.specs.Whole.{AreWhole};
ghost use Rattle.proof_calm.specs.proof_work.proof_walk.Walk.{WalkWhere};
ghost use Rattle.proof_calm.specs.proof_work.Phases.{AsksNothing};
ghost use Rattle.proof_calm.specs.Tied.{IsTied};
ghost use Rattle.proof_answered.specs.Few.{AreFew, AreIdle, IsStretched, KnowFew, woken_in};
ghost use Rattle.proof_answered.specs.Outward.{IsSentTo};

use device_sim::when_changes_come;
use proof_calm::{frames_fly_in_order, requests_stay_tied};

/// While at most 16 of the quiet lines wake a device, few frames are on the air: those that calls are to come for, three of devices, and one of each that
/// was woken. So it is at each phase, from each machine where no device is at work, and few frames are on the air. The request of the host stays tied then,
/// where the chip is asked to send to nodes alone that are reached.
pub fn few_frames_fly()
    ensures first { (keys : Keys) (records : Option (List (List ℕ))) (devices : List State) → AreIdle devices →
        AreFew 0 3 (first_machine keys records devices) }
    ensures walk { (these : List Bool) → WalkWhere (IsSentTo these) AsksNothing (KnowFew these) }
    ensures lines { (these : List Bool) (m : Machine) (lines : List Spoken) → AreDone m lines → AreWhole m lines →
        AllAlong (IsSentTo these) m (events_of lines) → IsStretched (transcript_of m lines) → IsTied these m → AreFew 0 3 m →
        IsTied these (after_all m lines) × AreFew 0 (3 + woken_in (transcript_of m lines)) (after_all m lines) }
{
    frames_fly_in_order();
    requests_stay_tied();
    when_changes_come();
}
