//! What the host knows of nodes, and their devices.

ghost use Rattle.std.specs.Prelude.{◌≡◌, false, true, List, Some, ℕ};
ghost use Rattle.device_kinds.specs.Kind.{listens};
ghost use Rattle.zw_text.specs.declared.entry.Entry.{Entry};
ghost use Rattle.law_wire.specs.law_transcript.Nodes.{always, device_of, known_classes, listing_of};
ghost use Rattle.law_time.specs.Stretches.{is_quiet, workers};
ghost use Rattle.proof_rests.specs.proof_attempts.proof_host.device_sim.State.{State};
ghost use Rattle.proof_rests.specs.proof_requests.host_model.State.{node_of};
ghost use Rattle.proof_rests.specs.proof_attempts.proof_walk.proof_device.GoingOn.{AreSame};
ghost use Rattle.proof_in_time.specs.proof_answered.Listening.{HasListener};
ghost use Rattle.proof_in_time.specs.proof_answered.Sleepers.{HasSleeper};
ghost use Rattle.proof_ready.specs.Ease.{AfterLines};
ghost use Rattle.proof_ready.specs.Ready.{AreByFit, AreFit, AreKnown, AreUp, AreWorkers, marks_of};

use crate::nodes::joined_nodes_are_there;
use proof_in_time::{devices_go_on, devices_stay_the_same, listeners_hear};
use proof_rests::{interviews_give_what_is_known, lines_tell_what_nodes_list};

/// The host knows of each node the classes that its device lists, where an interview of it has succeeded by the transcript.
pub fn hosts_know_what_devices_list()
    ensures { AfterLines (λ devices past m. (n : ℕ) → (node_of m.host.state n).classes ≡ known_classes (always (listing_of devices)) past n) }
{
    interviews_give_what_is_known();
    lines_tell_what_nodes_list();
}

/// A node whose first device is of a kind that listens has one that listens at every moment.
pub fn listeners_are_there()
    ensures { AfterLines (λ devices past m. AreUp devices → (n : ℕ) → (device : State) → device_of n devices ≡ Some device → listens device.kind ≡ true →
        HasListener n m.outside.devices) }
{
    listeners_hear();
}

/// The devices are of the kinds and nodes that they were of at first.
pub fn devices_are_the_same()
    ensures { AfterLines (λ devices past m. AreSame devices m.outside.devices) }
{
    devices_go_on();
    devices_stay_the_same();
}

/// So a node whose first device is of a kind that does not listen has one that sleeps at every moment.
pub fn sleepers_are_there()
    ensures { AfterLines (λ devices past m. (n : ℕ) → (device : State) → device_of n devices ≡ Some device → listens device.kind ≡ false →
        HasSleeper n m.outside.devices) }
{
    devices_are_the_same();
}

/// The nodes at work in a quiet stretch for fit ones, with the devices as they are then, are joined, all of them listen or one sleeps, and no command waits
/// for others; and the host knows what they list, and whether they listen. They list neither Transport Service nor Security 0, or are one alone that listens
/// (`AreByFit`).
pub fn workers_are_known()
    ensures { AfterLines (λ devices past m. (key : List ℕ) (stretch : List Entry) → is_quiet key m.outside.devices past stretch ≡ true →
        (are_fit : AreFit m.outside.devices past stretch) →
        AreWorkers (marks_of (workers past stretch)) past × AreKnown (marks_of (workers past stretch)) devices past ×
        AreByFit (marks_of (workers past stretch)) devices m.outside.devices past stretch are_fit) }
{
    devices_are_the_same();
    joined_nodes_are_there();
}
