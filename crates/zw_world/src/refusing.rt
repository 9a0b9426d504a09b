//! Lines that are refused.

ghost use Rattle.std.specs.Prelude.{◌≡◌, ◌∷◌, [], Some, IfOk, OnOk, OnErr};
ghost use Rattle.zw_text.specs.declared.entry.Entry.TheVariants.{Refused as refused_entry};
ghost use Rattle.zw_text.specs.declared.entry.Refusal.{Refusal as TheRefusal};
ghost use Rattle.outside_model.specs.Events.{Host_notes};
ghost use Rattle.outside_model.specs.Did.{Goes};
ghost use Rattle.world_model.specs.Refusals.{shown};
ghost use Rattle.host_core.specs.Orders.{shown_uncancelled};
ghost use Rattle.zw_world.specs.Effects.{Answers};

use crate::World;
use host_core::{CancelFault, refusal_of, uncancelled_as};
use host_orders::Refused;
use zw_base::{List, NoMemory};
use zw_text::{Entry, Refusal};

impl World {
    /// A line is refused so.
    pub(crate) fn refuse(&mut self, refusal: Refusal, out: &mut List<Entry>) -> Result<(), NoMemory>
        ensures ok { OnOk result (Goes (Host_notes (refused_entry refusal) ∷ []) self.old.outer self.new.outer out.old.items out.new.items) }
        ensures host { self.new.host ≡ self.old.host }
        ensures keys { self.new.keys ≡ self.old.keys }
        ensures err { OnErr result (out.new.items ≡ out.old.items) }
    {
        self.sides.outer.note(Entry::Refused { refusal }, out)
    }

    /// The host refuses a line; an allocation failure is no refusal.
    pub(crate) fn refused(
        &mut self,
        refused: Refused,
        out: &mut List<Entry>,
    ) -> Result<(), NoMemory>
        ensures ok { OnOk result ((refusal : TheRefusal) × (shown refused ≡ Some refusal)
            × Goes (Host_notes (refused_entry refusal) ∷ []) self.old.outer self.new.outer out.old.items out.new.items) }
        ensures host { self.new.host ≡ self.old.host }
        ensures keys { self.new.keys ≡ self.old.keys }
        ensures err { OnErr result (out.new.items ≡ out.old.items) }
    {
        let refusal = refusal_of(refused)?;
        self.refuse(refusal, out)
    }

    /// A command is not taken back; an allocation failure is no refusal.
    pub(crate) fn uncancelled(
        &mut self,
        command: u32,
        fault: CancelFault,
        out: &mut List<Entry>,
    ) -> Result<(), NoMemory>
        ensures ok { OnOk result ((refusal : TheRefusal) × (shown_uncancelled command fault ≡ Some refusal)
            × Goes (Host_notes (refused_entry refusal) ∷ []) self.old.outer self.new.outer out.old.items out.new.items) }
        ensures host { self.new.host ≡ self.old.host }
        ensures keys { self.new.keys ≡ self.old.keys }
        ensures err { OnErr result (out.new.items ≡ out.old.items) }
    {
        let refusal = uncancelled_as(command, fault)?;
        self.refuse(refusal, out)
    }

    /// The host took what was asked for, and nothing is entered; or it refuses.
    pub(crate) fn unless_refused(
        &mut self,
        answer: Result<(), Refused>,
        out: &mut List<Entry>,
    ) -> Result<(), NoMemory>
        ensures ok { OnOk result (Answers answer self.old.outer self.new.outer out.old.items out.new.items) }
        ensures host { self.new.host ≡ self.old.host }
        ensures keys { self.new.keys ≡ self.old.keys }
        ensures err { OnErr result (out.new.items ≡ out.old.items) }
    {
        match answer {
            Ok(()) => Ok(()),
            Err(refused) => self.refused(refused, out),
        }
    }
}
