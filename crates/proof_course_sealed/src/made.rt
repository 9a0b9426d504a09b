//! Which nodes are locks, by the kinds of their devices.

ghost use Rattle.std.specs.Prelude.{◌≡◌, ℕ, List, Some};
ghost use Rattle.std.specs.List.{AllByRecursion};
ghost use Rattle.s0_crypto.specs.Sealing.{keys_of};
ghost use Rattle.device_sim.specs.State.{State};
ghost use Rattle.law_transcript.specs.Headline.{IsAsMade};
ghost use Rattle.law_transcript.specs.Nodes.{device_of};
ghost use Rattle.proof_course_sealed.specs.LockNodes.{IsLockKind, IsLockNode};

use crate::device::locks_follow_the_courses;
use proof_course_plain::idle_devices_stay_idle;

/// Of devices as their makers left them, the first of a node is at the beginning of the courses of it, with the keys of the network, where
/// it takes commands in sessions and sealed; the others of the node are idle.
pub fn locks_as_made_begin_courses()
    ensures { (key : List ℕ) (devices : List State) (node : ℕ) (device : State) → AllByRecursion (IsAsMade key) devices → device_of node devices ≡ Some device →
        IsLockKind device.kind → IsLockNode (keys_of key) devices node }
{
    idle_devices_stay_idle();
    locks_follow_the_courses();
}
