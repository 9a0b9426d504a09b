//! The way of each frame, and what the chip forgets of it.

ghost use Rattle.std.specs.Prelude.{Some, List, [], ℕ, true};
ghost use Rattle.s0_crypto.specs.declared.key_pair.Keys.{Keys};
ghost use Rattle.device_sim.specs.State.{State};
ghost use Rattle.law_wire.specs.Routes.{GoesByRoute};
ghost use Rattle.law_wire.specs.Arriving.{ForgetsDeadHops};
ghost use Rattle.law_wire.specs.Serial.{ended};
ghost use Rattle.proof_routes.specs.Forgetting.{KnowPassages, MayForget};
ghost use Rattle.proof_routes.specs.Knowing.{KnowNetworks};
ghost use Rattle.proof_walk.specs.Phases.{Between};
ghost use Rattle.proof_walk.specs.Walk.{WalkOver};
ghost use Rattle.proof_walk.specs.world_model.State.{first_machine};
ghost use Rattle.proof_walk.specs.world_lines.Spoken.{Spoken, transcript_of};
ghost use Rattle.proof_walk.specs.world_lines.Done.{AreDone};
ghost use Rattle.proof_walk.specs.world_lines.Whole.{AreWhole};

use crate::networks_go_on;
use chip_sim::rules_of_events;

/// Over any lines from the first on, the last of which an allocation failure may have cut short, each frame goes over the route of its moment: one of the
/// controller over that of the chip's table, one of a device over that of the air, from its other end; and only nodes that are joined send to the controller.
/// The keeper tells its records, whatever they are at first.
pub fn frames_go_by_route()
    ensures { (keys : Keys) (texts : List (List ℕ)) (devices : List State) (lines : List Spoken) → AreDone (first_machine keys (Some texts) devices) lines →
        GoesByRoute devices (transcript_of (first_machine keys (Some texts) devices) lines) }
{
    networks_go_on();
}

/// At each phase of a line, where the networks are known, the air has sent the frames that the transcript shows, over their ways; those arrive nowhere that
/// use up a mark of `lose`, and those of devices that have no way. As many marks are left as the transcript says.
pub fn frames_go_on()
    ensures walk { (devices : List State) → WalkOver (KnowNetworks devices) MayForget KnowPassages }
    ensures first { (keys : Keys) (texts : List (List ℕ)) (devices : List State) → KnowPassages Between [] (first_machine keys (Some texts) devices) }
{
    rules_of_events();
}

/// Over the same, directly after a frame of the controller that nobody heard the chip forgets the first hop of its way that is no link, where its table
/// has it; and it forgets no other.
pub fn dead_hops_are_forgotten()
    ensures { (keys : Keys) (texts : List (List ℕ)) (devices : List State) (lines : List Spoken) → AreDone (first_machine keys (Some texts) devices) lines →
        ForgetsDeadHops (transcript_of (first_machine keys (Some texts) devices) lines) }
{
    networks_go_on();
    frames_go_on();
}

/// Over lines that were all run whole so also in the end: no hop is left that the chip should have forgotten.
pub fn dead_hops_are_forgotten_in_the_end()
    ensures { (keys : Keys) (texts : List (List ℕ)) (devices : List State) (lines : List Spoken) → AreDone (first_machine keys (Some texts) devices) lines →
        AreWhole (first_machine keys (Some texts) devices) lines →
        ForgetsDeadHops (ended true (transcript_of (first_machine keys (Some texts) devices) lines)) }
{
    networks_go_on();
    frames_go_on();
}
