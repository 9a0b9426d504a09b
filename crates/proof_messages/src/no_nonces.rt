//! What carries no nonce and is not sealed.

ghost use Rattle.std.specs.Prelude.{ℕ, List};
ghost use Rattle.zw_base.specs.declared.order.Order.{Order};
ghost use Rattle.zw_base.specs.declared.order.Word.{Word};
ghost use Rattle.class_info.specs.InfoSpelling.{form};
ghost use Rattle.class_info.specs.declared.message.InfoMessage.TheVariants as messages;
ghost use Rattle.transport_segments.specs.Segment.{segment_text};
ghost use Rattle.host_orders.specs.Errands.{plain_text, send_text, get_text};
ghost use Rattle.host_orders.specs.Wrapping.{message_of};
ghost use Rattle.host_orders.specs.declared.carriage.Carriage.{Carriage};
ghost use Rattle.proof_messages.specs.Payloads.{IsUnnumbered};

/// A Nonce Get, No More Information, the Sets and Gets that a user asks for, any command of an actuator in the wraps of a plain text, the
/// message of a session where it is not sealed, and a segment are neither Security messages nor Nonce Reports, at who reads them and for
/// who counts nonces.
pub fn others_carry_no_nonce()
    ensures nonce_get { IsUnnumbered (form messages.NonceGet) }
    ensures no_more { IsUnnumbered (form messages.WakeUpNoMoreInformation) }
    ensures wrapped { (classes : List ℕ) (end : ℕ) (command : List ℕ) → IsUnnumbered command → IsUnnumbered (plain_text classes end command) }
    ensures send { (classes : List ℕ) (word : Word) → IsUnnumbered (send_text classes word) }
    ensures get { (classes : List ℕ) (end : ℕ) → IsUnnumbered (get_text classes end) }
    ensures message { (carriage : Carriage) (order : Order) (session : ℕ) → IsUnnumbered (message_of carriage order session) }
    ensures segment { (id size offset : ℕ) (payload : List ℕ) → IsUnnumbered (segment_text id size offset payload) }
{}
