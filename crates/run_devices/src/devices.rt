//! The devices of the mesh: one for each node, of the kind that its number says.

ghost use Rattle.std.specs.Prelude.{◌≡◌, IfOk, Ok};
ghost use Rattle.device_kinds.specs.declared.kind.Kind.TheVariants as kinds;
ghost use Rattle.device_sim.specs.State.{fresh};
ghost use Rattle.audit_books.specs.Asking.{kind_at};
ghost use Rattle.run_devices.specs.Devices.{state_made};

use device_sim::{
    Configurable, Dimmer, Lock, Recorder, Relay, Sensor, Strip, Switch, Thermostat, make_config,
    make_dimmer, make_lock, make_relay, make_sensor, make_strip, make_switch, make_thermostat,
};
use std::alloc::Global;
use zw_base::{NoMemory, NodeId};

/// The network key of the host and of the simulated devices.
pub const KEY: [u8; 16] = [
    0x00, 0x01, 0x02, 0x03, 0x04, 0x05, 0x06, 0x07, 0x08, 0x09, 0x0A, 0x0B, 0x0C, 0x0D, 0x0E, 0x0F,
];

/// How many kinds of devices there are: the kind of a node's device is by its number.
const KINDS: u8 = 8;

/// The first node that has a device, which records what it hears.
pub const FIRST: u8 = 2;

/// The last node that has a device.
pub const LAST: u8 = 232;

/// A device of any kind, in a box. That of the first node records what it hears.
pub enum Made {
    Recorder(Box<Recorder<Switch>>),
    Configurable(Box<Configurable>),
    Relay(Box<Relay>),
    Switch(Box<Switch>),
    Dimmer(Box<Dimmer>),
    Lock(Box<Lock>),
    Sensor(Box<Sensor>),
    Thermostat(Box<Thermostat>),
    Strip(Box<Strip>),
}

/// Makes the device of a node, as its maker leaves it: of the kind that its number tells.
pub fn make_device(alloc: Global, node: NodeId) -> Result<Made, NoMemory>
    ensures { IfOk result (λ made. state_made made ≡ fresh node (kind_at node) KEY) }
{
    let number = node.number();
    match number % KINDS {
        _ if number == FIRST => Ok(Made::Recorder(boxed(alloc, make_recorder(alloc, node))?)),
        0 => Ok(Made::Configurable(boxed(alloc, make_config(alloc, node, KEY))?)),
        1 => Ok(Made::Relay(boxed(alloc, make_relay(alloc, node, KEY))?)),
        2 => Ok(Made::Switch(boxed(alloc, make_switch(alloc, node, KEY))?)),
        3 => Ok(Made::Dimmer(boxed(alloc, make_dimmer(alloc, node, KEY))?)),
        4 => Ok(Made::Lock(boxed(alloc, make_lock(alloc, node, KEY))?)),
        5 => Ok(Made::Sensor(boxed(alloc, make_sensor(alloc, node, KEY))?)),
        6 => Ok(Made::Thermostat(boxed(alloc, make_thermostat(alloc, node, KEY))?)),
        _ => Ok(Made::Strip(boxed(alloc, make_strip(alloc, node, KEY))?)),
    }
}

// A device in a box, where there was memory for it.
fn boxed<T: Drop>(alloc: Global, device: Result<T, NoMemory>) -> Result<Box<T>, NoMemory>
    ensures { IfOk result (λ boxed. device ≡ Ok boxed.value) }
{
    Ok(Box::new(alloc, device?)?)
}

// A switch that records what it hears.
fn make_recorder(alloc: Global, node: NodeId) -> Result<Recorder<Switch>, NoMemory>
    ensures { IfOk result (λ recorder. recorder.inner.stack ≡ fresh node kinds.Switch KEY) }
{
    Ok(Recorder::new(alloc, make_switch(alloc, node, KEY)?))
}
