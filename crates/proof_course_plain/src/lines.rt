//! Labels beside what is on its way on the serial line.

ghost use Rattle.std.specs.Prelude.{ℕ, List, Option};
ghost use Rattle.supervision.specs.Ends.{Report};
ghost use Rattle.chip_sim.specs.State.{ChipState};
ghost use Rattle.chip_sim.specs.Events.{ChipEvent};
ghost use Rattle.chip_sim.specs.Did.{MayAll, after_all};
ghost use Rattle.chip_sim.specs.Rules.{WaitsWell};
ghost use Rattle.proof_course_plain.specs.Ways.{Beside};
ghost use Rattle.proof_course_plain.specs.Mesh.{IsTold};
ghost use Rattle.proof_course_plain.specs.Chip.{GivesAs, ChipMoves};

/// Whatever the chip does, reports that are on their way to the host stay on it in their order, but that some are lost and some come
/// several times in their place; and those of the payloads that it is given come after them. A frame waits at the chip only while its link
/// is busy.
pub fn chips_carry_reports()
    ensures moves { (node : ℕ) (s : ChipState) (events : List ChipEvent) (marks : List (Option Report)) → MayAll s events →
        WaitsWell s.port → Beside (GivesAs IsTold node) events marks → ChipMoves IsTold node s events marks }
    ensures waits { (s : ChipState) (events : List ChipEvent) → WaitsWell s.port → WaitsWell (after_all s events).port }
{}
