//! The work of the machine's host.

ghost use Rattle.std.specs.Prelude.{List, [], Some};
ghost use Rattle.s0_crypto.specs.declared.key_pair.Keys.{Keys};
ghost use Rattle.zw_text.specs.declared.line.Line.{Line};
ghost use Rattle.device_sim.specs.State.{State};
ghost use Rattle.proof_walk.specs.world_model.State.{Machine, first_machine};
ghost use Rattle.proof_walk.specs.world_model.Events.{Event, happens, May};
ghost use Rattle.proof_walk.specs.world_model.Did.{happens_all, MayAll};
ghost use Rattle.proof_walk.specs.world_model.Prefixes.{LinePart};
ghost use Rattle.proof_world.specs.proof_serial.Line.{AreLines};
ghost use Rattle.proof_world.specs.Restarts.{KeepsWell};
ghost use Rattle.proof_work.specs.Machines.{AllDoWell, DoesWell};
ghost use Rattle.proof_work.specs.Work.{HostWork};

use crate::hosts_keep_their_work;
use proof_world::lines_keep_and_ask_well;

/// In each line, whole or cut short, the host does such events alone. Each event of the machine that may happen keeps its host's work in order, where the
/// keeper tells its records if the host starts again; so it is in every run of lines over a keeper that tells its records and has none at first.
pub fn machines_keep_their_work()
    ensures line { (line : Line) (m : Machine) (events : List Event) → LinePart line m events → AllDoWell m events }
    ensures each { (m : Machine) (event : Event) → HostWork m.host.state → May m event → DoesWell m event → KeepsWell m event →
        HostWork (happens m event).host.state }
    ensures run { (keys : Keys) (devices : List State) (lines : List Line) (events : List Event) →
        AreLines lines (first_machine keys (Some []) devices) events → MayAll (first_machine keys (Some []) devices) events →
        HostWork (happens_all (first_machine keys (Some []) devices) events).host.state }
{
    hosts_keep_their_work();
    lines_keep_and_ask_well();
}
