//! The laws of every command that has laws, as one promise.

ghost use Rattle.std.specs.Prelude.{◌≡◌, ℕ, List, length};
ghost use Rattle.run_lines.specs.declared.status.Status.{Status};
ghost use Rattle.proof_commands.specs.All.{KeepsLaws};
ghost use Rattle.run_all.specs.Around.{Around};

use crate::generate::generate_keeps_laws;
use crate::include::include_keeps_laws;
use crate::laws::every_story_keeps_laws;
use crate::port::port_keeps_laws;
use crate::replay::replay_keeps_laws;
use crate::sim::{restarts_read_records, sim_keeps_laws};

/// Every run of the program keeps the laws of the command that it was. A key is 16 bytes.
pub fn commands_keep_laws()
    ensures { (ended : Status) (words : List (List ℕ)) (key : List ℕ) (old new : Around) → length key ≡ 16 → KeepsLaws ended words key old new }
{
    sim_keeps_laws();
    restarts_read_records();
    generate_keeps_laws();
    every_story_keeps_laws();
    replay_keeps_laws();
    include_keeps_laws();
    port_keeps_laws();
}
