//! A lock that hears the sealed message of a session, and what it answers.

ghost use Rattle.std.specs.Prelude.{◌≡◌, ◌⊎◌, ℕ, ◌≤◌, true, List, length, None};
ghost use Rattle.zw_base.specs.declared.order.Order.{Order};
ghost use Rattle.supervision.specs.Session.{wire_id};
ghost use Rattle.supervision.specs.Device.{heard_of};
ghost use Rattle.encap.specs.declared.plan.Outer.TheVariants as outers;
ghost use Rattle.host_orders.specs.Refusals.{IsFit};
ghost use Rattle.host_orders.specs.Wrapping.{message_of};
ghost use Rattle.host_orders.specs.declared.carriage.Carriage.{Carriage};
ghost use Rattle.device_kinds.specs.declared.kind.Kind.TheVariants as kinds;
ghost use Rattle.s0_crypto.specs.Sealing.{keys_of};
ghost use Rattle.device_sim.specs.State.{State, fresh, host_node};
ghost use Rattle.device_sim.specs.Event.{Hears, device_after};
ghost use Rattle.proof_messages.specs.Asking.{verdict_on, Follows};
ghost use Rattle.proof_course.specs.NodeNonces as node;
ghost use Rattle.proof_course.specs.NonceLaws.{NamesLive};
ghost use Rattle.proof_messages.specs.Numbers.{IsNonce, HasGiven};
ghost use Rattle.proof_messages.specs.Payloads.{IsSealed};
ghost use Rattle.proof_messages.specs.Locks.{IsLock, SealsFor};
ghost use Rattle.proof_messages.specs.Waiting.{WaitsOwn, SaysSealed};

use crate::sealed_messages_do_what_is_asked;

/// A lock follows the message of a session that names its live nonce: by the courses that is the nonce for which it was sealed. What waits
/// to be sealed is always a report of the last session that it took, with the status that it keeps, so that is what it says when it seals
/// for a nonce of the host's.
pub fn locks_answer_sealed_messages()
    ensures follows { (device : State) (given : List (List ℕ)) (c : node.Nonces) (number : ℕ) (carriage : Carriage) (order : Order)
        (session : ℕ) (payload drawn : List ℕ) → IsLock device →
        HasGiven given c.given c.is_live device.given → IsFit carriage.actuator order → order.end ≤ 127 → carriage.outer ≡ outers.Security →
        IsSealed (keys_of device.key) (record { sender = host_node; receiver = device.node }) given number
        (message_of carriage order session) payload → NamesLive c number → node.names c number ≡ true →
        Follows device (device_after device (Hears payload drawn)) (verdict_on device carriage order) (heard_of device.sessions (wire_id session)) }
    ensures waits { (device : State) (given : List (List ℕ)) (c : node.Nonces) (number : ℕ) (carriage : Carriage) (order : Order)
        (session : ℕ) (payload drawn : List ℕ) → IsLock device →
        HasGiven given c.given c.is_live device.given → IsFit carriage.actuator order → order.end ≤ 127 → carriage.outer ≡ outers.Security →
        IsSealed (keys_of device.key) (record { sender = host_node; receiver = device.node }) given number
        (message_of carriage order session) payload → NamesLive c number → node.names c number ≡ true →
        WaitsOwn device → IsLock (device_after device (Hears payload drawn)) → WaitsOwn (device_after device (Hears payload drawn)) }
    ensures fresh { (node : ℕ) (key : List ℕ) → WaitsOwn (fresh node kinds.Lock key) }
    ensures kept { (old new : State) → IsLock old → IsLock new → new.sessions ≡ old.sessions →
        (new.sealing.pending ≡ old.sealing.pending) ⊎ (new.sealing.pending ≡ None) → WaitsOwn old → WaitsOwn new }
    ensures says { (device new : State) (shown : List (List ℕ)) (number seen : ℕ) (nonce drawn : List ℕ) (replies : List (List ℕ)) →
        SealsFor nonce drawn seen device new replies → IsNonce shown number nonce → length drawn ≡ 8 →
        WaitsOwn device → SaysSealed shown number device replies }
{
    sealed_messages_do_what_is_asked();
}
