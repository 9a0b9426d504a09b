//! What the host sends beside messages of sessions: it does nothing to the sessions of a device.

ghost use Rattle.std.specs.Prelude.{◌≡◌, ℕ, ◌≤◌, true, List};
ghost use Rattle.zw_base.specs.declared.order.Word.{Word};
ghost use Rattle.class_info.specs.InfoSpelling.{form};
ghost use Rattle.class_info.specs.declared.message.InfoMessage.TheVariants as messages;
ghost use Rattle.host_orders.specs.Errands.{send_text, get_text};
ghost use Rattle.device_kinds.specs.Kind.{lists};
ghost use Rattle.device_sim.specs.State.{State};
ghost use Rattle.device_sim.specs.Event.{Hears, device_after};
ghost use Rattle.proof_messages.specs.Asking.{IsLeft};
ghost use Rattle.proof_messages.specs.Others.{IsOther};

/// A Nonce Get, a Nonce Report, No More Information, and the Sets and Gets that a user asks for without Supervision are no messages of a session.
/// What is no such message leaves the sessions, the changes and the work of a device that knows Supervision as they were, and what it keeps of a datagram.
pub fn others_are_no_messages()
    ensures nonce_get { IsOther (form messages.NonceGet) }
    ensures nonce_report { (nonce : List ℕ) → IsOther (form (messages.NonceReport nonce)) }
    ensures no_more { IsOther (form messages.WakeUpNoMoreInformation) }
    ensures send { (classes : List ℕ) (word : Word) → IsOther (send_text classes word) }
    ensures get { (classes : List ℕ) (end : ℕ) → end ≤ 127 → IsOther (get_text classes end) }
    ensures left { (device : State) (payload drawn : List ℕ) → IsOther payload → lists device.kind 0x6C ≡ true
        → IsLeft device (device_after device (Hears payload drawn)) }
{}
