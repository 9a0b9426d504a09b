//! Laws of the definition of devices alone.

ghost use Rattle.std.specs.Prelude.{◌≡◌, ℕ, ◌≤◌, true, List, length};
ghost use Rattle.zw_base.specs.declared.property.By.TheVariants.{Local};
ghost use Rattle.zw_base.specs.declared.property.Setting.{Setting};
ghost use Rattle.s0_session.specs.Nonces.{after_spend};
ghost use Rattle.encap.specs.Opening.{begins_with};
ghost use Rattle.device_stack.specs.Kinds.{Kind, Lock};
ghost use Rattle.device_stack.specs.Hearing.{nonce_named};
ghost use Rattle.device_sim.specs.State.{State, fresh};
ghost use Rattle.device_sim.specs.Event.{DeviceEvent, Hears, Ticks, Wakes, Sets, device_after};
ghost use Rattle.device_sim.specs.Laws.{IsHeard, IsTicked, IsChanged, IsInOrder};

/// When a change comes, and whose it is. A payload that takes no session leaves the journal as it was, but for a plain Set of a
/// kind without Supervision. One that takes the next session is heard by a device that is not at work, empties the reassembly,
/// and makes the one change of that session at once, or none, or begins work. Work ends at a tick, once, with the one change of
/// the session that the device is at.
pub fn when_changes_come()
    ensures heard { (device : State) (payload drawn : List ℕ) → IsHeard device (device_after device (Hears payload drawn)) }
    ensures ticked { (device : State) (drawn : List ℕ) → IsTicked device (device_after device (Ticks drawn)) }
    ensures woken { (device : State) → (device_after device Wakes).journal ≡ device.journal }
    ensures by_hand { (device : State) (value : ℕ) → (settings : List Setting) ×
        IsChanged device.journal Local settings (device_after device (Sets value)).journal }
{}

/// The session numbers of changes rise strictly, whatever happens to a device from its making on.
pub fn sessions_rise()
    ensures fresh { (node : ℕ) (kind : Kind) (key : List ℕ) → IsInOrder (fresh node kind key) }
    ensures kept { (device : State) (event : DeviceEvent) → IsInOrder device → IsInOrder (device_after device event) }
{}

/// A nonce that a Security message names is spent, whether the message opens or not.
pub fn nonces_are_spent()
    ensures { (device : State) (payload drawn : List ℕ) → device.kind ≡ Lock → device.awake ≡ true → begins_with payload 0x98 0x81 ≡ true → 20 ≤ length payload
        → (device_after device (Hears payload drawn)).given ≡ after_spend device.given (nonce_named payload) }
{}
