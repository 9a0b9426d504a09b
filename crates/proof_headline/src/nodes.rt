//! The laws of nodes that take commands in sessions.

ghost use Rattle.std.specs.Prelude.{◌≡◌, ℕ, true, Some, List, []};
ghost use Rattle.s0_crypto.specs.declared.key_pair.Keys.{Keys};
ghost use Rattle.device_sim.specs.State.{State};
ghost use Rattle.proof_spoken.specs.proof_device.Showing.{AreUnchanged};
ghost use Rattle.law_transcript.specs.Headline.{Headline, HeadlineOf};
ghost use Rattle.law_transcript.specs.Nodes.{always, device_of, is_supervised, listing_of};
ghost use Rattle.world_model.specs.State.{first_machine};
ghost use Rattle.proof_spoken.specs.proof_once.Tied.{AreTied};
ghost use Rattle.world_lines.specs.Spoken.{Spoken, after_all, transcript_of};
ghost use Rattle.world_lines.specs.Done.{AreDone, events_of};
ghost use Rattle.proof_headline.specs.Truly.{IsAskable, LinesAreTrue, SucceedsAfterChangeOf};
ghost use Rattle.proof_headline.specs.Supervised.{IsPlainOrLock};

use crate::lock_nodes::locks_are_tied;
use crate::plain_nodes::plain_nodes_are_tied;
use crate::{lines_have_the_headline, runs_report_after_the_change};
use proof_spoken::{devices_go_on, devices_stay_the_same, lines_tell_what_nodes_list};

/// Over any lines that were read, the last of which an allocation failure may have cut short, the device of a node that is plain or of a
/// lock is tied to the host in the end, and each success that the host is told of the node is true at the moment it is told.
pub fn nodes_are_tied()
    ensures tied { (keys : Keys) (devices : List State) (lines : List Spoken) (node : ℕ) (device : State) → IsPlainOrLock keys devices (events_of lines) node →
        AreDone (first_machine keys (Some []) devices) lines →
        device_of node (after_all (first_machine keys (Some []) devices) lines).outside.devices ≡ Some device →
        AreTied (after_all (first_machine keys (Some []) devices) lines).host.state node device }
    ensures truth { (keys : Keys) (devices : List State) (lines : List Spoken) (node : ℕ) → IsPlainOrLock keys devices (events_of lines) node →
        AreDone (first_machine keys (Some []) devices) lines → LinesAreTrue node (first_machine keys (Some []) devices) lines }
{
    plain_nodes_are_tied();
    locks_are_tied();
}

/// So over any such lines, whatever is lost, changed, delayed or repeated, and however often the host starts again: the device of such a
/// node that knows Supervision has applied a part of the commands accepted for it, in order, each at most once, with exactly the settings
/// that each asks for; every command reported successful is in it, and none that failed, was taken back or waits; and where the last change
/// of a property is of a command reported successful, its confirmed value is the device's.
///
/// The device may be that after further lines, of which nothing is entered and at which the host stays as it is.
pub fn nodes_have_the_headline()
    ensures { (keys : Keys) (devices : List State) (lines further : List Spoken) (node : ℕ) (device : State) →
        IsPlainOrLock keys devices (events_of further) node → AreUnchanged devices →
        AreDone (first_machine keys (Some []) devices) lines → AreDone (first_machine keys (Some []) devices) further →
        (after_all (first_machine keys (Some []) devices) further).host.state ≡ (after_all (first_machine keys (Some []) devices) lines).host.state →
        device_of node (after_all (first_machine keys (Some []) devices) further).outside.devices ≡ Some device → is_supervised device ≡ true →
        HeadlineOf (always (listing_of devices)) node (transcript_of (first_machine keys (Some []) devices) lines) device }
{
    nodes_are_tied();
    lines_have_the_headline();
}

/// And each success of a command of such a node is reported after the change.
pub fn nodes_report_after_the_change()
    ensures { (keys : Keys) (devices : List State) (lines : List Spoken) (node : ℕ) → IsPlainOrLock keys devices (events_of lines) node → AreUnchanged devices →
        AreDone (first_machine keys (Some []) devices) lines → SucceedsAfterChangeOf node (transcript_of (first_machine keys (Some []) devices) lines) }
{
    nodes_are_tied();
    lines_tell_what_nodes_list();
    runs_report_after_the_change();
}

/// So where the first node and each that has a device which knows Supervision are such, the whole headline holds, of the devices after further lines likewise.
pub fn askable_nodes_have_the_headline()
    ensures { (keys : Keys) (devices : List State) (lines further : List Spoken) →
        ((node : ℕ) → IsAskable devices node → IsPlainOrLock keys devices (events_of lines) node) →
        ((node : ℕ) → IsAskable devices node → IsPlainOrLock keys devices (events_of further) node) → AreUnchanged devices →
        AreDone (first_machine keys (Some []) devices) lines → AreDone (first_machine keys (Some []) devices) further →
        (after_all (first_machine keys (Some []) devices) further).host.state ≡ (after_all (first_machine keys (Some []) devices) lines).host.state →
        Headline devices (after_all (first_machine keys (Some []) devices) further).outside.devices
        (transcript_of (first_machine keys (Some []) devices) lines) }
{
    nodes_are_tied();
    lines_have_the_headline();
    devices_go_on();
    devices_stay_the_same();
}
