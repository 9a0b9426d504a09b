//! What becomes of the devices at the events of the machine.

ghost use Rattle.std.specs.Prelude.{List, ◌++◌};
ghost use Rattle.std.specs.List.{AllByRecursion};
ghost use Rattle.law_transcript.specs.device_sim.State.{State};
ghost use Rattle.law_transcript.specs.device_sim.Event.{DeviceEvent, device_after};
ghost use Rattle.world_model.specs.outside_model.State.{Outside};
ghost use Rattle.world_model.specs.outside_model.Events.{OuterEvent, devices_after};
ghost use Rattle.world_model.specs.outside_model.Did.{happens_all as happens_all_outside};
ghost use Rattle.world_model.specs.State.{Machine};
ghost use Rattle.law_transcript.specs.zw_text.declared.entry.Entry.{Entry};
ghost use Rattle.law_transcript.specs.zw_text.Transcript.{applied};
ghost use Rattle.world_model.specs.Events.{Event, happens, entries, May};
ghost use Rattle.world_model.specs.Did.{happens_all, entries_all, MayAll};
ghost use Rattle.proof_device.specs.GoingOn.{MovesOne, GoOn, IsSame, AreSame, AreInOrder, TakesOnce, TakeOnce};
ghost use Rattle.proof_device.specs.Showing.{AreApart, AllShow, AreUnchanged, IsShown, IsShownAmong, NeverFalls};

use law_transcript::{sessions_rise, when_changes_come};

/// An event outside the host moves at most one device, by one event of the device. So whatever happens to the machine, each device goes on at its
/// place by events of its own, and none is added or lost.
pub fn devices_go_on()
    ensures one { (w : Outside) (event : OuterEvent) → MovesOne w.devices (devices_after w event) }
    ensures outside { (w : Outside) (events : List OuterEvent) → GoOn w.devices (happens_all_outside w events).devices }
    ensures each { (m : Machine) (event : Event) → GoOn m.outside.devices (happens m event).outside.devices }
    ensures all { (m : Machine) (events : List Event) → GoOn m.outside.devices (happens_all m events).outside.devices }
{}

/// A device that goes on keeps its node, its kind and its key.
pub fn devices_stay_the_same()
    ensures event { (device : State) (event : DeviceEvent) → IsSame device (device_after device event) }
    ensures all { (old new : List State) → GoOn old new → AreSame old new }
{}

/// Devices that go on from journals in order have journals in order: the sessions of a journal's changes rise strictly, so each session
/// has changed its device at most once, and none is above those that the device is done with.
pub fn devices_take_once()
    ensures kept { (old new : List State) → GoOn old new → AreInOrder old → AreInOrder new }
    ensures once { (devices : List State) → AreInOrder devices → TakeOnce devices }
{
    sessions_rise();
}

/// Where no two devices are of one node, the `dev` entries of a node are the settings of the changes that its device made, in order: of an
/// event, of a run, and of a whole journal where the transcript begins with devices that have not changed. So the sessions on those lines
/// never fall: equal ones stand together, since a session has changed its device at most once. Whatever devices are of one node, each setting of a
/// device's journal is shown.
pub fn changes_are_shown()
    ensures each { (m : Machine) (event : Event) → May m event → AreApart m.outside.devices →
        AllShow (entries m event) m.outside.devices (happens m event).outside.devices }
    ensures all { (m : Machine) (events : List Event) → MayAll m events → AreApart m.outside.devices →
        AllShow (entries_all m events) m.outside.devices (happens_all m events).outside.devices }
    ensures among { (past : List Entry) (m : Machine) (event : Event) → May m event → AllByRecursion (IsShownAmong past) m.outside.devices →
        AllByRecursion (IsShownAmong (past ++ entries m event)) (happens m event).outside.devices }
    ensures whole { (transcript : List Entry) (old new : List State) → GoOn old new → AreUnchanged old → AllShow transcript old new →
        AllByRecursion (IsShown transcript) new }
    ensures groups { (transcript : List Entry) (device : State) → IsShown transcript device → TakesOnce device → NeverFalls (applied device.node transcript) }
{
    when_changes_come();
    devices_go_on();
    devices_stay_the_same();
}
