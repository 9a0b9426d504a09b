//! The law of whole runs of `generate`, as the contract of a function that does nothing.

ghost use Rattle.std.specs.Prelude.{ℕ, List};
ghost use Rattle.run_lines.specs.declared.status.Status.{Status};
ghost use Rattle.run_all.specs.Around.{Around};
ghost use Rattle.proof_commands.specs.Generate.{GenerateKeepsLaws};

use crate::lines_are_read_as_said;
use proof_audit::tables_are_what_is_shown;

/// Every run of `generate` has a story, whose lines are those of the scenario, and writes the summary of its transcript. Where it runs out of memory
/// the lines are the first of these.
pub fn generate_keeps_laws()
    ensures { (ended : Status) (key : List ℕ) (old new : Around) → GenerateKeepsLaws ended key old new }
{
    lines_are_read_as_said();
    tables_are_what_is_shown();
}
