//! Devices that listen.

ghost use Rattle.std.specs.Prelude.{◌≡◌, List, ℕ, true};
ghost use Rattle.route_table.specs.Network.{Network};
ghost use Rattle.air_frames.specs.Flown.{Flown};
ghost use Rattle.air_frames.specs.declared.frame.Heading.TheVariants.{Outward};
ghost use Rattle.device_kinds.specs.Kind.{listens};
ghost use Rattle.device_kinds.specs.declared.kind.Kind.{Kind};
ghost use Rattle.device_sim.specs.Event.{DeviceEvent, device_after};
ghost use Rattle.device_sim.specs.State.{State, fresh};
ghost use Rattle.mesh_sim.specs.Fates.{fate_of};
ghost use Rattle.mesh_sim.specs.declared.fate.Fate.TheVariants.{AtDevice};
ghost use Rattle.world_model.specs.Did.{happens_all};
ghost use Rattle.world_model.specs.Events.{Event};
ghost use Rattle.world_model.specs.State.{Machine};
ghost use Rattle.proof_calm.specs.Live.{IsLive};
ghost use Rattle.proof_answered.specs.Listening.{HasListener, IsUp};

use proof_device::{devices_go_on, devices_stay_the_same};

/// A device of a kind that listens is awake as its maker leaves it, and whatever happens to it; so a node whose first device is one has one at every moment
/// after. Each frame of the host for such a node that is not lost, and of which no hop is dead, is heard by that device.
pub fn listeners_hear()
    ensures fresh { (node : ℕ) (kind : Kind) (key : List ℕ) → listens kind ≡ true → IsUp (fresh node kind key) }
    ensures each { (device : State) (event : DeviceEvent) → IsUp device → IsUp (device_after device event) }
    ensures all { (node : ℕ) (m : Machine) (events : List Event) → HasListener node m.outside.devices →
        HasListener node (happens_all m events).outside.devices }
    ensures heard { (net : Network) (devices : List State) (frame : Flown) (is : HasListener frame.node devices) → frame.heading ≡ Outward →
        IsLive net frame → fate_of net devices frame ≡ AtDevice is.place }
{
    devices_go_on();
    devices_stay_the_same();
}
