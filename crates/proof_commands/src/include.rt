//! The laws of whole runs of `include`: each is the contract of a function that does nothing.

ghost use Rattle.std.specs.Prelude.{◌≡◌, ℕ, List, Option, length};
ghost use Rattle.run_lines.specs.declared.status.Status.{Status};
ghost use Rattle.proof_commands.specs.Include.{IncludeKeepsLaws};

use proof_include::{added_locks_become_secure, lines_lead_on};

/// Every run of `include` keeps the laws: its transcript is cut where its lines are, and an `add` that is accepted ends well.
pub fn include_keeps_laws()
    ensures { (status : Status) (key : List ℕ) (left left' sink sink' : Option (List ℕ)) → length key ≡ 16 →
        IncludeKeepsLaws status key left left' sink sink' }
{
    lines_lead_on();
    added_locks_become_secure();
}
