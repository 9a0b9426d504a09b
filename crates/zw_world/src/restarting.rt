//! The host stops, and a new one starts from the records.

ghost use Rattle.std.specs.Prelude.{◌≡◌, ◌∷◌, [], Some, List as Items, OnOk, OnErr, IfOk, false};
ghost use Rattle.device_sim.specs.State.{State};
ghost use Rattle.zw_words.specs.declared.side.Side.TheVariants as side;
ghost use Rattle.zw_text.specs.declared.line.Line.TheVariants as line;
ghost use Rattle.zw_text.specs.declared.entry.Entry.TheVariants.{Refused as refused_entry};
ghost use Rattle.zw_text.specs.declared.entry.Refusal.{Refusal as TheRefusal};
ghost use Rattle.outside_model.specs.Events.{Clears_pipe, Host_notes};
ghost use Rattle.outside_model.specs.Did.{Goes};
ghost use Rattle.world_model.specs.Did.{Does, Stops};
ghost use Rattle.world_model.specs.Prefixes.{RestartPrefix};
ghost use Rattle.world_model.specs.Lines.{IsEffect};
ghost use Rattle.zw_world.specs.World.{scene};
ghost use Rattle.zw_world.specs.Effects.{ClearsInPart, shown_unopened};
ghost use Rattle.zw_world.specs.Keeping.{GoesOn, KeepsOrRefuses};

use crate::World;
use host_core::{Host, OpenFault};
use host_keep::Keeper;
use zw_base::{List, NoMemory};
use zw_text::{Entry, Refusal, Side};

impl World {
    /// A host that starts from the records takes over, and the bytes on their way are lost; or that is refused, and the old host stays.
    pub(crate) fn restart<P: Keeper>(
        &mut self,
        keeper: &mut P,
        out: &mut List<Entry>,
    ) -> Result<(), NoMemory>
        ensures ok { OnOk result ((ds : Items State) →
            Does (IsEffect line.Restart) (scene self.old ds (P.shelf keeper.old) out.old.items)
            (scene self.new ds (P.shelf keeper.new) out.new.items)) }
        ensures err { OnErr result ((ds : Items State) →
            Stops RestartPrefix (scene self.old ds (P.shelf keeper.old) out.old.items)
            (scene self.new ds (P.shelf keeper.new) out.new.items)) }
        ensures goes_on { GoesOn (P.number keeper.old) (P.number keeper.new) (P.reads keeper.old) (P.reads keeper.new) }
        ensures keeps { OnOk result (self.old.outer.in_tick ≡ false →
            KeepsOrRefuses line.Restart out.old.items out.new.items
            (P.number keeper.old) (P.number keeper.new) (P.reads keeper.old) (P.reads keeper.new)) }
    {
        match Host::open(self.sides.alloc, self.key, keeper) {
            Ok(host) => self.go_on_with(host, out),
            Err(fault) => self.unopened(fault, out),
        }
    }

    // Another host takes over, and the bytes on their way are lost.
    fn go_on_with(&mut self, host: Host, out: &mut List<Entry>) -> Result<(), NoMemory>
        ensures ok { OnOk result (Goes (Clears_pipe side.Host ∷ Clears_pipe side.Chip ∷ []) self.old.outer self.new.outer out.old.items out.new.items) }
        ensures host { OnOk result (self.new.host ≡ host) }
        ensures keys { self.new.keys ≡ self.old.keys }
        ensures err { OnErr result (ClearsInPart self.old.outer out.old.items out.new.items) }
    {
        self.sides.host = host;
        self.sides.outer.clear(Side::Host, out)?;
        self.sides.outer.clear(Side::Chip, out)
    }

    // No host starts, and the old one stays; an allocation failure is no refusal.
    fn unopened(&mut self, fault: OpenFault, out: &mut List<Entry>) -> Result<(), NoMemory>
        ensures ok { OnOk result ((refusal : TheRefusal) × (shown_unopened fault ≡ Some refusal)
            × Goes (Host_notes (refused_entry refusal) ∷ []) self.old.outer self.new.outer out.old.items out.new.items) }
        ensures host { self.new.host ≡ self.old.host }
        ensures keys { self.new.keys ≡ self.old.keys }
        ensures err { OnErr result (out.new.items ≡ out.old.items) }
    {
        let refusal = unopened_as(fault)?;
        self.refuse(refusal, out)
    }
}

/// What is entered where no host starts.
fn unopened_as(fault: OpenFault) -> Result<Refusal, NoMemory>
    ensures { IfOk result (λ refusal. shown_unopened fault ≡ Some refusal) }
{
    match fault {
        OpenFault::KeeperFault => Ok(Refusal::KeeperFault),
        OpenFault::BadRecord(place) => Ok(Refusal::BadRecord { place }),
        OpenFault::NoMemory => Err(NoMemory),
    }
}
