//! The mesh that the program simulates is one that the laws of a run are of.

ghost use Rattle.std.specs.Prelude.{◌≡◌, ℕ, List, [], Some};
ghost use Rattle.run_all.specs.Around.{Around};
ghost use Rattle.proof_commands.specs.Laws.{Ran};
ghost use Rattle.proof_commands.specs.Mesh.{mesh};
ghost use Rattle.proof_commands.specs.Sim.{IsAuditable};

/// With these devices and a new keeper, all that the laws of runs of `sim` assume holds of every story.
pub fn the_mesh_is_auditable()
    ensures { (key : List ℕ) (old : Around) (story : List Ran) → old.devices ≡ mesh key → old.records ≡ Some [] → IsAuditable key old story }
{}
