//! Each kind, made and called through its bound.

use crate::playing::{KEY, node, plays};
use crate::steps::{CONFIGURABLE, DIMMER, LOCK, RELAY, SENSOR, STRIP, SWITCH, THERMOSTAT};
use device_sim::{
    Device, make_config, make_dimmer, make_lock, make_relay, make_sensor, make_strip, make_switch,
    make_thermostat,
};
use std::alloc::Global;
use std::process::Abort;
use std::test::Fail;

/// Plays these steps.
fn ends_well<D: Device>(
    rt: &impl Abort,
    alloc: Global,
    mut device: D,
    steps: &str,
) -> Result<(), Fail> {
    let wrong = plays(alloc, &mut device, steps)?;
    assert!(rt; wrong.is_none(), "{wrong:?}");
    Ok(())
}

#[test]
fn a_switch_plays_its_steps(rt: HostRuntime) -> Result<(), Fail> {
    let device = make_switch(rt.alloc(), node(2)?, KEY)?;
    ends_well(&rt, rt.alloc(), device, SWITCH)
}

#[test]
fn a_dimmer_plays_its_steps(rt: HostRuntime) -> Result<(), Fail> {
    let device = make_dimmer(rt.alloc(), node(3)?, KEY)?;
    ends_well(&rt, rt.alloc(), device, DIMMER)
}

#[test]
fn a_lock_plays_its_steps(rt: HostRuntime) -> Result<(), Fail> {
    let device = make_lock(rt.alloc(), node(4)?, KEY)?;
    ends_well(&rt, rt.alloc(), device, LOCK)
}

#[test]
fn a_sensor_plays_its_steps(rt: HostRuntime) -> Result<(), Fail> {
    let device = make_sensor(rt.alloc(), node(5)?, KEY)?;
    ends_well(&rt, rt.alloc(), device, SENSOR)
}

#[test]
fn a_thermostat_plays_its_steps(rt: HostRuntime) -> Result<(), Fail> {
    let device = make_thermostat(rt.alloc(), node(6)?, KEY)?;
    ends_well(&rt, rt.alloc(), device, THERMOSTAT)
}

#[test]
fn a_strip_plays_its_steps(rt: HostRuntime) -> Result<(), Fail> {
    let device = make_strip(rt.alloc(), node(7)?, KEY)?;
    ends_well(&rt, rt.alloc(), device, STRIP)
}

#[test]
fn a_configurable_device_plays_its_steps(rt: HostRuntime) -> Result<(), Fail> {
    let device = make_config(rt.alloc(), node(8)?, KEY)?;
    ends_well(&rt, rt.alloc(), device, CONFIGURABLE)
}

#[test]
fn a_relay_plays_its_steps(rt: HostRuntime) -> Result<(), Fail> {
    let device = make_relay(rt.alloc(), node(9)?, KEY)?;
    ends_well(&rt, rt.alloc(), device, RELAY)
}
