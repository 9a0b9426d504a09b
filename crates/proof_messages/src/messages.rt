//! The message of a session: what is in it, and what a device makes of it.

ghost use Rattle.std.specs.Prelude.{◌≡◌, ℕ, ◌≤◌, true, false, List, Some, map};
ghost use Rattle.zw_base.specs.declared.order.Order.{Order};
ghost use Rattle.zw_base.specs.declared.order.What.{What};
ghost use Rattle.supervision.specs.Session.{wire_id};
ghost use Rattle.supervision.specs.Device.{heard_of};
ghost use Rattle.class_info.specs.InfoReading.{info_at};
ghost use Rattle.encap.specs.Opening.{opened_at};
ghost use Rattle.host_orders.specs.Messages.{messages, commands_of};
ghost use Rattle.host_orders.specs.Refusals.{IsFit, is_bad};
ghost use Rattle.host_orders.specs.Settings.{settings};
ghost use Rattle.host_orders.specs.Wrapping.{ends_of, message_of};
ghost use Rattle.host_orders.specs.declared.actuator.Actuator.{Actuator};
ghost use Rattle.host_orders.specs.declared.carriage.Carriage.{Carriage};
ghost use Rattle.device_kinds.specs.Effects.{end_of};
ghost use Rattle.device_sim.specs.State.{State};
ghost use Rattle.device_sim.specs.Event.{Hears, device_after};
ghost use Rattle.proof_messages.specs.Asking.{message_in, read_as, NamesNode, takes_openly, verdict_on, MakesOnly, IsLeft, Follows};

/// The message of a session is one Supervision Get with the low six bits of the session's number, for the end point of the order, and its commands
/// are the messages of the order. The order is one that can be written (`IsFit`), to an end point of 0 to 127.
pub fn messages_open()
    ensures opened { (carriage : Carriage) (order : Order) (session : ℕ) → IsFit carriage.actuator order → order.end ≤ 127
        → opened_at (message_of carriage order session) ≡ Some (message_in carriage order session) }
    ensures target { (end : ℕ) → end_of (ends_of end) ≡ end }
    ensures read { (actuator : Actuator) (what : What) → is_bad actuator what ≡ false → NamesNode what
        → map info_at (commands_of actuator what) ≡ map read_as (messages actuator what) }
{}

/// What a device makes of the message of a session: where it is awake, knows Supervision and hears what is not sealed, it follows the id; the
/// settings that it makes then, at once or by work, are those of the order, and no others. Any other device is left as it was.
pub fn messages_do_what_is_asked()
    ensures heard { (device : State) (drawn : List ℕ) (carriage : Carriage) (order : Order) (session : ℕ)
        → IsFit carriage.actuator order → order.end ≤ 127 → device.awake ≡ true → takes_openly device.kind ≡ true
        → Follows device (device_after device (Hears (message_of carriage order session) drawn)) (verdict_on device carriage order)
        (heard_of device.sessions (wire_id session)) }
    ensures asked { (device : State) (carriage : Carriage) (order : Order) → is_bad carriage.actuator order.what ≡ false
        → MakesOnly (settings carriage.actuator order) (verdict_on device carriage order) }
    ensures asleep { (device : State) (payload drawn : List ℕ) → device.awake ≡ false → device_after device (Hears payload drawn) ≡ device }
    ensures deaf { (device : State) (drawn : List ℕ) (carriage : Carriage) (order : Order) (session : ℕ)
        → IsFit carriage.actuator order → order.end ≤ 127 → takes_openly device.kind ≡ false
        → IsLeft device (device_after device (Hears (message_of carriage order session) drawn)) }
{}
