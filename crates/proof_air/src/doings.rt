//! Who does what is entered of devices.

ghost use Rattle.std.specs.Prelude.{Option, List, ℕ};
ghost use Rattle.s0_crypto.specs.declared.key_pair.Keys.{Keys};
ghost use Rattle.law_wire.specs.device_sim.State.{State};
ghost use Rattle.law_wire.specs.Doings.{DoneByDevices};
ghost use Rattle.proof_walk.specs.world_model.State.{first_machine};
ghost use Rattle.proof_walk.specs.world_lines.Spoken.{Spoken, transcript_of};
ghost use Rattle.proof_walk.specs.world_lines.Done.{AreDone};

/// Over any lines from the first on, the last of which an allocation failure may have cut short, each change of a device and each frame that is not the
/// controller's is of a node that has a device in the list at entry.
pub fn lines_are_done_by_devices()
    ensures { (keys : Keys) (records : Option (List (List ℕ))) (devices : List State) (lines : List Spoken) →
        AreDone (first_machine keys records devices) lines →
        DoneByDevices devices (transcript_of (first_machine keys records devices) lines) }
{}
