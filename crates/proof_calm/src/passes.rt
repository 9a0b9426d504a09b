//! What one pass of a settling makes of an unmarked line.

ghost use Rattle.std.specs.Prelude.{◌≡◌, ◌≤◌, ◌∷◌, List, [], Option, drop, length, map};
ghost use Rattle.std.specs.List.{AllByRecursion};
ghost use Rattle.serial_frame.specs.Frame.{FrameParts};
ghost use Rattle.serial_frame.specs.Stream.{Rest};
ghost use Rattle.serial_frame.specs.declared.item.Item.{Item};
ghost use Rattle.serial_frame.specs.declared.item.Item.TheVariants.{Good};
ghost use Rattle.serial_frame.specs.declared.unit.Unit.{Unit as LineUnit};
ghost use Rattle.serial_frame.specs.declared.unit.Unit.TheVariants.{Ack};
ghost use Rattle.serial_link.specs.declared.turn.Turn.{Turn};
ghost use Rattle.route_table.specs.declared.route.Route.{Route as TheRoute};
ghost use Rattle.host_model.specs.Did.{after_all};
ghost use Rattle.host_model.specs.Events.{HostEvent};
ghost use Rattle.world_model.specs.State.{Machine};
ghost use Rattle.proof_calm.specs.Passes.{
  ChipMayTake,
  HostMayTake,
  IsPlain,
  OnLine,
  SameChip,
  answers,
  chip_taken,
  host_taken,
  next_down,
  next_turn,
  turn_after,
};

use proof_waking::frames_fly_in_order;

/// On a line without marks the host acknowledges each frame on its way to it, and its own frame is over where it is acknowledged; an acknowledgement on its way
/// to the chip has the next of its frames written. The chip sends, and waits for, and has on the air what it did.
pub fn each_pass_brings_a_frame()
    ensures to_host { (m : Machine) (unit : LineUnit) (units : List LineUnit) (host turn : Turn) (frames : List FrameParts) (rest : Rest) (items : List Item)
        (events : List HostEvent) → AllByRecursion IsPlain (unit ∷ units) → length units ≤ 99 → OnLine [] (unit ∷ units) host turn frames m →
        HostMayTake m rest items events →
        OnLine (answers (unit ∷ units)) [] (turn_after host (unit ∷ units)) turn frames (host_taken m rest items events)
        × SameChip m.outside.outer (host_taken m rest items events).outside.outer × (items ≡ map (λ unit. Good unit) (unit ∷ units))
        × ((host_taken m rest items events).host.state ≡ after_all m.host.state events) }
    ensures to_chip { (m : Machine) (host turn : Turn) (frames : List FrameParts) (rest : Rest) (ways : List (Item × Option TheRoute)) →
        OnLine (Ack ∷ []) [] host turn frames m → ChipMayTake m rest ways →
        OnLine [] (next_down frames) host (next_turn frames) (drop 1 frames) (chip_taken m rest ways)
        × SameChip m.outside.outer (chip_taken m rest ways).outside.outer × ((chip_taken m rest ways).host ≡ m.host) }
{
    frames_fly_in_order();
}
