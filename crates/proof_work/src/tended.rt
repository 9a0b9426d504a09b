//! The work of the machine's host, at each phase of a line.

ghost use Rattle.std.specs.Prelude.{List, [], ℕ, Some};
ghost use Rattle.s0_crypto.specs.declared.key_pair.Keys.{Keys};
ghost use Rattle.device_sim.specs.State.{State};
ghost use Rattle.proof_walk.specs.world_model.State.{first_machine};
ghost use Rattle.proof_walk.specs.world_lines.Spoken.{Spoken, after_all};
ghost use Rattle.proof_walk.specs.world_lines.Done.{AreDone};
ghost use Rattle.proof_walk.specs.world_lines.Whole.{AreWhole};
ghost use Rattle.proof_walk.specs.Phases.{Between};
ghost use Rattle.proof_walk.specs.Walk.{Walk};
ghost use Rattle.proof_work.specs.Phases.{AsksNothing, KnowsWork};
ghost use Rattle.proof_work.specs.Rests.{IsTended};

use crate::hosts_keep_their_work;

/// Over a keeper that tells its records the host's work is in order at each phase of a line, and nothing that is due lacks its request but where the host does
/// something and pumps: so as the words of each line stand and before each tick, and after lines that were all run whole.
pub fn hosts_are_tended()
    ensures walk { Walk AsksNothing KnowsWork }
    ensures first { (keys : Keys) (texts : List (List ℕ)) (devices : List State) → KnowsWork Between [] (first_machine keys (Some texts) devices) }
    ensures lines { (keys : Keys) (texts : List (List ℕ)) (devices : List State) (lines : List Spoken) →
        AreDone (first_machine keys (Some texts) devices) lines → AreWhole (first_machine keys (Some texts) devices) lines →
        IsTended (after_all (first_machine keys (Some texts) devices) lines).host.state }
{
    hosts_keep_their_work();
}
