//! The network, over quiet lines.

ghost use Rattle.std.specs.Prelude.{◌≡◌, List};
ghost use Rattle.world_model.specs.State.{Machine};
ghost use Rattle.world_lines.specs.Spoken.{Spoken, after_all, transcript_of};
ghost use Rattle.world_lines.specs.Done.{AreDone};
ghost use Rattle.world_lines.specs.Whole.{AreWhole};
ghost use Rattle.proof_work.specs.proof_walk.Walk.{Walk};
ghost use Rattle.proof_work.specs.Phases.{AsksNothing};
ghost use Rattle.proof_calm.specs.Networks.{KnowMembers, Members, members};
ghost use Rattle.proof_calm.specs.Quiet.{AreQuiet};

/// Quiet lines and ticks leave which nodes are joined, to the chip and in the air, which of them listen to the chip, and the links of the air. Of the chip's
/// table a link may be forgotten.
pub fn quiet_lines_leave_the_network()
    ensures walk { (these : Members) → Walk AsksNothing (KnowMembers these) }
    ensures lines { (m : Machine) (lines : List Spoken) → AreDone m lines → AreWhole m lines → AreQuiet (transcript_of m lines) →
        members (after_all m lines).outside.outer ≡ members m.outside.outer }
{}
