//! Marks, over quiet lines.

ghost use Rattle.std.specs.Prelude.{List, Option, ℕ};
ghost use Rattle.s0_crypto.specs.declared.key_pair.Keys.{Keys};
ghost use Rattle.device_sim.specs.State.{State};
ghost use Rattle.world_model.specs.State.{Machine, first_machine};
ghost use Rattle.world_lines.specs.Spoken.{Spoken, after_all, transcript_of};
ghost use Rattle.world_lines.specs.Done.{AreDone};
ghost use Rattle.world_lines.specs.Whole.{AreWhole};
ghost use Rattle.proof_work.specs.proof_walk.Walk.{Walk};
ghost use Rattle.proof_work.specs.Phases.{AsksNothing};
ghost use Rattle.proof_calm.specs.Marks.{IsUnmarked};
ghost use Rattle.proof_calm.specs.Quiet.{AreQuiet, KnowUnmarked};

/// At first nothing is marked to be lost, changed or refused, and no stall lasts; at each phase of quiet lines and ticks that stays so, and after whole ones.
pub fn quiet_lines_mark_nothing()
    ensures first { (keys : Keys) (records : Option (List (List ℕ))) (devices : List State) → IsUnmarked (first_machine keys records devices) }
    ensures walk { Walk AsksNothing KnowUnmarked }
    ensures lines { (m : Machine) (lines : List Spoken) → AreDone m lines → AreWhole m lines → AreQuiet (transcript_of m lines) → IsUnmarked m →
        IsUnmarked (after_all m lines) }
{}
