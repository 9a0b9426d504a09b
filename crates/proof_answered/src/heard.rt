//! Payloads that are heard, over quiet lines.

ghost use Rattle.std.specs.Prelude.{◌≡◌, Bool, List, ℕ};
ghost use Rattle.serial_frame.specs.Frame.{FrameParts};
ghost use Rattle.chip_functions.specs.declared.notice.TransmitStatus.TheVariants.{CompleteOk};
ghost use Rattle.world_model.specs.Did.{AllAlong};
ghost use Rattle.world_model.specs.State.{Machine};
ghost use Rattle.world_lines.specs.Spoken.{Spoken, after_all, transcript_of};
ghost use Rattle.world_lines.specs.Done.{AreDone, events_of};
ghost use Rattle.world_lines.specs.Whole.{AreWhole};
ghost use Rattle.proof_calm.specs.proof_work.proof_walk.Walk.{WalkWhere};
ghost use Rattle.proof_calm.specs.proof_work.Phases.{AsksNothing};
ghost use Rattle.proof_calm.specs.Tied.{Ends, IsCalled, IsTied, unheard};
ghost use Rattle.proof_answered.specs.Few.{AreFew, IsStretched};
ghost use Rattle.proof_answered.specs.Heard.{AllSayHeard, IsHeardFor, KnowHeard};

use crate::few_frames_fly;
use proof_calm::frames_fly_in_order;

/// Where each frame of the host that arrives is heard by a device, and the chip is asked to send to nodes alone that are reached, the call for each payload
/// says that it was heard. So at each phase of quiet lines and
/// ticks the call that the host has not judged says so, with which its request ends well.
pub fn payloads_are_heard()
    ensures walk { (these : List Bool) → WalkWhere (IsHeardFor these) AsksNothing (KnowHeard these) }
    ensures lines { (these : List Bool) (m : Machine) (lines : List Spoken) → AreDone m lines → AreWhole m lines →
        AllAlong (IsHeardFor these) m (events_of lines) → IsStretched (transcript_of m lines) → IsTied these m → AreFew 0 3 m →
        AllSayHeard (unheard (after_all m lines).outside.outer) }
    ensures called { (e : Ends) (pending asking : List FrameParts) (is : IsCalled e pending asking) → AllSayHeard pending → is.status ≡ CompleteOk }
{
    few_frames_fly();
    frames_fly_in_order();
}
