//! What a lock makes of nonces and of what is sealed for it.

ghost use Rattle.std.specs.Prelude.{◌≡◌, ◌⊎◌, ℕ, List, length, slice_index, is_some, None};
ghost use Rattle.s0_session.specs.Nonces.{nonce_spent};
ghost use Rattle.class_info.specs.InfoSpelling.{form};
ghost use Rattle.class_info.specs.declared.message.InfoMessage.TheVariants.{NonceGet};
ghost use Rattle.device_kinds.specs.declared.kind.Kind.TheVariants as kinds;
ghost use Rattle.s0_crypto.specs.Sealing.{keys_of, sealed_text};
ghost use Rattle.device_sim.specs.State.{State, fresh, host_node};
ghost use Rattle.device_sim.specs.Event.{DeviceEvent, Hears, device_after, device_replies};
ghost use Rattle.proof_course.specs.NodeNonces.{taken_as};
ghost use Rattle.proof_messages.specs.Payloads.{IsOffer, IsUnnumbered};
ghost use Rattle.proof_messages.specs.Locks.{IsLock, Ignores, Offers, SealsIf, Spends, SpendsNone, IsUnheard};

/// A lock gives a nonce where a Nonce Get asks for one, and only where a payload does that is neither sealed nor a Nonce Report; it seals what waits only for a nonce
/// of the host's that counts as the last or the next; and what is sealed spends the nonce that it names. A message that names no live nonce
/// does nothing, to sessions neither. At no other event does it do anything with nonces, or say anything.
pub fn locks_hear_by_numbers()
    ensures fresh { (node : ℕ) (key : List ℕ) → IsLock (fresh node kinds.Lock key) }
    ensures unnumbered { (device : State) (payload drawn : List ℕ) → IsLock device → IsUnnumbered payload →
        Ignores device (device_after device (Hears payload drawn)) (device_replies device (Hears payload drawn)) ⊎
        Offers drawn device (device_after device (Hears payload drawn)) (device_replies device (Hears payload drawn)) }
    ensures asked { (device : State) (drawn : List ℕ) → IsLock device →
        Offers drawn device (device_after device (Hears (form NonceGet) drawn)) (device_replies device (Hears (form NonceGet) drawn)) }
    ensures offer { (device : State) (nonces : List (List ℕ)) (number : ℕ) (payload drawn : List ℕ) (offer : IsOffer nonces number payload) → IsLock device →
        SealsIf offer.nonce drawn (taken_as (is_some device.sealing.pending) device.sealing.seen number) device
        (device_after device (Hears payload drawn)) (device_replies device (Hears payload drawn)) }
    ensures sealed { (device : State) (own nonce plain drawn : List ℕ) → IsLock device → length own ≡ 8 →
        Spends (slice_index nonce 0) device
        (device_after device (Hears (sealed_text (keys_of device.key) own nonce (record { sender = host_node; receiver = device.node }) plain) drawn))
        (device_replies device (Hears (sealed_text (keys_of device.key) own nonce (record { sender = host_node; receiver = device.node }) plain) drawn)) }
    ensures unnamed { (device : State) (own nonce plain drawn : List ℕ) → IsLock device → length own ≡ 8 →
        nonce_spent device.given (slice_index nonce 0) ≡ None →
        SpendsNone device (device_after device
        (Hears (sealed_text (keys_of device.key) own nonce (record { sender = host_node; receiver = device.node }) plain) drawn))
        (device_replies device (Hears (sealed_text (keys_of device.key) own nonce (record { sender = host_node; receiver = device.node }) plain) drawn)) }
    ensures other { (device : State) (event : DeviceEvent) → IsLock device → IsUnheard event →
        Ignores device (device_after device event) (device_replies device event) }
{}
