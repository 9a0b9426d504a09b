//! The sealed message of a session: what a lock makes of it, and what waits to be sealed in answer.

ghost use Rattle.std.specs.Prelude.{◌≡◌, ℕ, ◌≤◌, true, List, length, Some};
ghost use Rattle.zw_base.specs.declared.order.Order.{Order};
ghost use Rattle.supervision.specs.Session.{wire_id};
ghost use Rattle.supervision.specs.Device.{heard_of};
ghost use Rattle.s0_crypto.specs.declared.key_pair.Keys.{Keys};
ghost use Rattle.s0_crypto.specs.declared.ends.SealEnds.{SealEnds};
ghost use Rattle.encap.specs.declared.plan.Outer.TheVariants as outers;
ghost use Rattle.host_orders.specs.Refusals.{IsFit};
ghost use Rattle.host_orders.specs.Wrapping.{message_of};
ghost use Rattle.host_orders.specs.declared.carriage.Carriage.{Carriage};
ghost use Rattle.s0_crypto.specs.Sealing.{keys_of, unsealed_at, sealed_text};
ghost use Rattle.device_kinds.specs.declared.kind.Kind.TheVariants as kinds;
ghost use Rattle.device_sim.specs.State.{State, host_node};
ghost use Rattle.device_sim.specs.Event.{Hears, device_after, device_replies};
ghost use Rattle.proof_messages.specs.Asking.{verdict_on, Follows};
ghost use Rattle.proof_messages.specs.Locks.{AsksToAnswer, IsLock};
ghost use Rattle.proof_messages.specs.Reporting.{HasAnswered};

/// What is sealed under two nonces of eight bytes opens to the same text, with the same keys, ends and nonce of its receiver.
pub fn what_is_sealed_opens()
    ensures { (keys : Keys) (own nonce plain : List ℕ) (ends : SealEnds) → length own ≡ 8 →
        unsealed_at keys nonce ends (sealed_text keys own nonce ends plain) ≡ Some plain }
{}

/// A lock follows the message of a session that was sealed for its live nonce; and where it answers, the text that waits to be sealed is heard as one
/// report of its last session, with the status that it keeps, and it asks for a nonce; where it does not answer it says nothing.
pub fn sealed_messages_do_what_is_asked()
    ensures heard { (device : State) (own nonce drawn : List ℕ) (carriage : Carriage) (order : Order) (session : ℕ)
        → IsFit carriage.actuator order → order.end ≤ 127 → carriage.outer ≡ outers.Security → device.awake ≡ true → device.kind ≡ kinds.Lock
        → length own ≡ 8 → device.given.live ≡ Some nonce
        → Follows device (device_after device
        (Hears (sealed_text (keys_of device.key) own nonce (record { sender = host_node; receiver = device.node }) (message_of carriage order session)) drawn))
        (verdict_on device carriage order) (heard_of device.sessions (wire_id session)) }
    ensures answered { (device : State) (own nonce drawn : List ℕ) (carriage : Carriage) (order : Order) (session : ℕ)
        → IsFit carriage.actuator order → order.end ≤ 127 → carriage.outer ≡ outers.Security → device.awake ≡ true → device.kind ≡ kinds.Lock
        → length own ≡ 8 → device.given.live ≡ Some nonce
        → HasAnswered device (device_after device
        (Hears (sealed_text (keys_of device.key) own nonce (record { sender = host_node; receiver = device.node }) (message_of carriage order session)) drawn))
        (heard_of device.sessions (wire_id session)) }
    ensures asks { (device : State) (own nonce drawn : List ℕ) (carriage : Carriage) (order : Order) (session : ℕ)
        → IsFit carriage.actuator order → order.end ≤ 127 → carriage.outer ≡ outers.Security → IsLock device → length own ≡ 8 → device.given.live ≡ Some nonce
        → AsksToAnswer (device_replies device
        (Hears (sealed_text (keys_of device.key) own nonce (record { sender = host_node; receiver = device.node }) (message_of carriage order session)) drawn))
        (heard_of device.sessions (wire_id session)) }
{}
