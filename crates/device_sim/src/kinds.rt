//! The eight kinds of devices, each a type with its maker.

ghost use Rattle.std.specs.Prelude.{◌≡◌, IfOk};
ghost use Rattle.device_stack.specs.Kinds as kinds;
ghost use Rattle.device_stack.specs.State.{fresh};

use crate::{Kind, Simulated};
use device_stack::Stack;
use std::alloc::Global;
use zw_base::{NoMemory, NodeId};

/// Tells the type of a relay apart.
#[derive(Clone, Copy, Debug, PartialEq, Eq)]
pub struct RelayKind;

/// An unsupervised binary switch.
pub type Relay = Simulated<RelayKind>;

/// Tells the type of a switch apart.
#[derive(Clone, Copy, Debug, PartialEq, Eq)]
pub struct SwitchKind;

/// A supervised binary switch.
pub type Switch = Simulated<SwitchKind>;

/// Tells the type of a dimmer apart.
#[derive(Clone, Copy, Debug, PartialEq, Eq)]
pub struct DimmerKind;

/// A supervised dimmer, whose changes take time.
pub type Dimmer = Simulated<DimmerKind>;

/// Tells the type of a lock apart.
#[derive(Clone, Copy, Debug, PartialEq, Eq)]
pub struct LockKind;

/// A door lock that speaks Security 0 alone.
pub type Lock = Simulated<LockKind>;

/// Tells the type of a sensor apart.
#[derive(Clone, Copy, Debug, PartialEq, Eq)]
pub struct SensorKind;

/// A sensor that sleeps.
pub type Sensor = Simulated<SensorKind>;

/// Tells the type of a thermostat apart.
#[derive(Clone, Copy, Debug, PartialEq, Eq)]
pub struct ThermostatKind;

/// A thermostat with two setpoints.
pub type Thermostat = Simulated<ThermostatKind>;

/// Tells the type of a strip apart.
#[derive(Clone, Copy, Debug, PartialEq, Eq)]
pub struct StripKind;

/// A strip of four sockets beside its own switch.
pub type Strip = Simulated<StripKind>;

/// Tells the type of a device of parameters apart.
#[derive(Clone, Copy, Debug, PartialEq, Eq)]
pub struct ConfigurableKind;

/// A device of 256 parameters, with Transport Service.
pub type Configurable = Simulated<ConfigurableKind>;

/// A relay of that node with nothing taken, nothing given or seen, every value 0, and an empty journal.
pub fn make_relay(alloc: Global, node: NodeId, key: [u8; 16]) -> Result<Relay, NoMemory>
    ensures { IfOk result (λ device. device.stack ≡ fresh node kinds.Relay key) }
{
    Ok(Simulated {
        stack: Stack::new(alloc, node, Kind::Relay, key)?,
        kind: RelayKind,
    })
}

/// A switch of that node with nothing taken, nothing given or seen, every value 0, and an empty journal.
pub fn make_switch(alloc: Global, node: NodeId, key: [u8; 16]) -> Result<Switch, NoMemory>
    ensures { IfOk result (λ device. device.stack ≡ fresh node kinds.Switch key) }
{
    Ok(Simulated {
        stack: Stack::new(alloc, node, Kind::Switch, key)?,
        kind: SwitchKind,
    })
}

/// A dimmer of that node with nothing taken, nothing given or seen, every value 0, and an empty journal.
pub fn make_dimmer(alloc: Global, node: NodeId, key: [u8; 16]) -> Result<Dimmer, NoMemory>
    ensures { IfOk result (λ device. device.stack ≡ fresh node kinds.Dimmer key) }
{
    Ok(Simulated {
        stack: Stack::new(alloc, node, Kind::Dimmer, key)?,
        kind: DimmerKind,
    })
}

/// A lock of that node with nothing taken, nothing given or seen, every value 0, and an empty journal.
pub fn make_lock(alloc: Global, node: NodeId, key: [u8; 16]) -> Result<Lock, NoMemory>
    ensures { IfOk result (λ device. device.stack ≡ fresh node kinds.Lock key) }
{
    Ok(Simulated {
        stack: Stack::new(alloc, node, Kind::Lock, key)?,
        kind: LockKind,
    })
}

/// A sensor of that node with nothing taken, nothing given or seen, every value 0, and an empty journal.
pub fn make_sensor(alloc: Global, node: NodeId, key: [u8; 16]) -> Result<Sensor, NoMemory>
    ensures { IfOk result (λ device. device.stack ≡ fresh node kinds.Sensor key) }
{
    Ok(Simulated {
        stack: Stack::new(alloc, node, Kind::Sensor, key)?,
        kind: SensorKind,
    })
}

/// A thermostat of that node with nothing taken, nothing given or seen, every value 0, and an empty journal.
pub fn make_thermostat(alloc: Global, node: NodeId, key: [u8; 16]) -> Result<Thermostat, NoMemory>
    ensures { IfOk result (λ device. device.stack ≡ fresh node kinds.Thermostat key) }
{
    Ok(Simulated {
        stack: Stack::new(alloc, node, Kind::Thermostat, key)?,
        kind: ThermostatKind,
    })
}

/// A strip of that node with nothing taken, nothing given or seen, every value 0, and an empty journal.
pub fn make_strip(alloc: Global, node: NodeId, key: [u8; 16]) -> Result<Strip, NoMemory>
    ensures { IfOk result (λ device. device.stack ≡ fresh node kinds.Strip key) }
{
    Ok(Simulated {
        stack: Stack::new(alloc, node, Kind::Strip, key)?,
        kind: StripKind,
    })
}

/// A device of parameters of that node with nothing taken, nothing given or seen, every value 0, and an empty journal.
pub fn make_config(alloc: Global, node: NodeId, key: [u8; 16]) -> Result<Configurable, NoMemory>
    ensures { IfOk result (λ device. device.stack ≡ fresh node kinds.Configurable key) }
{
    Ok(Simulated {
        stack: Stack::new(alloc, node, Kind::Configurable, key)?,
        kind: ConfigurableKind,
    })
}
