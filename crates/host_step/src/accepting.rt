//! An order that becomes a command, or is refused.

ghost use Rattle.std.specs.Prelude.{◌≡◌, ◌+◌, ◌≤◌, ◌<◌, ◌∷◌, [], length, IfOk, OnOk, OnErr, Err};
ghost use Rattle.host_keep.specs.Keeping.{Adds, Fails};
ghost use Rattle.host_keep.specs.Rows.{IsRecord};
ghost use Rattle.host_keep.specs.RecordText.{record_text};
ghost use Rattle.host_keep.specs.declared.record.Record.TheVariants.{Accepted as the_accepted};
ghost use Rattle.host_model.specs.Events.{Accepts};
ghost use Rattle.host_model.specs.Asking.{carriage_for, refusal_for};
ghost use Rattle.host_parts.specs.Choices.{Judges};
ghost use Rattle.host_step.specs.Changes.{parts_after};

use crate::HostCore;
use host_keep::Keeper;
use host_model::facts_are_kept;
use host_orders::Refused;
use host_parts::accept;
use zw_base::Order;

impl HostCore {
    /// An order becomes the command of the next number, which waits for its node, once that is kept; or it is refused by the
    /// first of the rules that applies.
    pub fn accept<P: Keeper>(&mut self, order: &Order, keeper: &mut P) -> Result<u32, Refused>
        ensures number { IfOk result (λ number.
            number ≡ length self.old.state.commands + 1) }
        ensures judges { Judges result (refusal_for self.old.state order.now) }
        ensures kept { OnOk result
            (Adds (record_text (the_accepted (length self.old.state.commands + 1)
            order.now) ∷ [])
            (P.shelf keeper.old) (P.shelf keeper.new)) }
        ensures in_range { OnOk result
            (IsRecord (the_accepted (length self.old.state.commands + 1)
            order.now)) }
        ensures state { OnOk result (self.new ≡
            parts_after self.old (Accepts order.now
            (carriage_for self.old.state order.now))) }
        ensures failed { result ≡ Err Refused.KeeperFault →
            Fails (P.shelf keeper.old) (P.shelf keeper.new) }
        ensures err { OnErr result (self.new ≡ self.old) }
        ensures no_record { OnErr result
            (Adds [] (P.shelf keeper.old) (P.shelf keeper.new)) }
        ensures never_falls { (P.shelf keeper.old).faults ≤ (P.shelf keeper.new).faults }
        ensures more { OnOk result (P.number keeper.old < P.number keeper.new) }
        ensures never_fewer { P.number keeper.old ≤ P.number keeper.new }
        ensures reads { P.reads keeper.new ≡ P.reads keeper.old }
    {
        facts_are_kept();
        accept(
            self.alloc,
            &mut self.nodes,
            &mut self.store,
            &mut self.commands,
            order,
            keeper,
        )
    }
}
