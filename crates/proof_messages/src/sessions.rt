//! The law of a device's sessions.

ghost use Rattle.std.specs.Prelude.{ℕ, List, [], ◌++◌};
ghost use Rattle.device_kinds.specs.declared.kind.Kind.{Kind};
ghost use Rattle.device_sim.specs.State.{State, fresh};
ghost use Rattle.device_sim.specs.Event.{DeviceEvent, device_after};
ghost use Rattle.proof_messages.specs.Ending.{HasEnded};

use device_sim::when_changes_come;

/// A device ends its sessions one after another, whatever happens to it: statuses are only added, and no status is ever changed. Its changes by
/// sessions are those of the sessions that ended with success, one each, in order.
pub fn devices_end_sessions()
    ensures fresh { (node : ℕ) (kind : Kind) (key : List ℕ) → HasEnded (fresh node kind key) [] }
    ensures kept { (device : State) (event : DeviceEvent) (finals : List ℕ) → HasEnded device finals → (more : List ℕ) ×
        HasEnded (device_after device event) (finals ++ more) }
{
    when_changes_come();
}
