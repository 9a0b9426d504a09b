//! Units without room, and what restarts lose.

ghost use Rattle.std.specs.Prelude.{◌≡◌, Bool, true, Option, Some, List, [], ℕ};
ghost use Rattle.s0_crypto.specs.declared.key_pair.Keys.{Keys};
ghost use Rattle.proof_world.specs.device_sim.State.{State};
ghost use Rattle.law_wire.specs.Pipes.{OverrunsWhenFull};
ghost use Rattle.law_wire.specs.Serial.{ended};
ghost use Rattle.proof_walk.specs.world_model.State.{first_machine};
ghost use Rattle.proof_walk.specs.world_lines.Spoken.{Spoken, transcript_of};
ghost use Rattle.proof_walk.specs.world_lines.Done.{AreDone};
ghost use Rattle.proof_walk.specs.world_lines.Whole.{AreWhole};
ghost use Rattle.proof_line.specs.Pipes.{ClearsAtRestarts, ClearsNowhereElse, OverrunsOnlyWhenFull};

use crate::{pipes_go_on, rooms_go_on};
use proof_world::{hosts_write_well, lines_keep_and_ask_well};

/// Over any lines from the first on, the last of which an allocation failure may have cut short, a unit is overrun only where what its pipe may still hold, by
/// what stands before it, leaves it no room in 4,096 bytes.
pub fn lines_overrun_only_when_full()
    ensures { (keys : Keys) (records : Option (List (List ℕ))) (devices : List State) (lines : List Spoken) →
        AreDone (first_machine keys records devices) lines →
        OverrunsOnlyWhenFull (transcript_of (first_machine keys records devices) lines) }
{
    pipes_go_on();
}

/// Over any such lines, bytes are cleared only directly after the words of a `restart`, at most once for each side and the host's first, and no more than the
/// pipe of the side may hold by what stands before them.
pub fn lines_clear_at_restarts()
    ensures { (keys : Keys) (records : Option (List (List ℕ))) (devices : List State) (lines : List Spoken) →
        AreDone (first_machine keys records devices) lines →
        ClearsAtRestarts (transcript_of (first_machine keys records devices) lines) }
{
    pipes_go_on();
}

/// And so what stands directly after restarts that were not refused is all that is told of lost bytes.
pub fn lines_clear_nowhere_else()
    ensures { (keys : Keys) (records : Option (List (List ℕ))) (devices : List State) (lines : List Spoken) →
        AreDone (first_machine keys records devices) lines →
        (whole : Bool) → ClearsNowhereElse whole (transcript_of (first_machine keys records devices) lines) }
{
    lines_clear_at_restarts();
}

/// Over any such lines, over a keeper that tells its records and has none at first, a unit that is neither lost nor overrun surely fits too, by what stands
/// before it: data frames that are not answered, and answers given since the other side wrote, leave it room. The same is so in the end, where all
/// lines were run whole.
pub fn lines_overrun_when_full()
    ensures { (keys : Keys) (devices : List State) (lines : List Spoken) (whole : Bool) →
        AreDone (first_machine keys (Some []) devices) lines →
        (whole ≡ true → AreWhole (first_machine keys (Some []) devices) lines) →
        OverrunsWhenFull (ended whole (transcript_of (first_machine keys (Some []) devices) lines)) }
{
    lines_overrun_only_when_full();
    rooms_go_on();
    hosts_write_well();
    lines_keep_and_ask_well();
}
