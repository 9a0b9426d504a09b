//! Devices that own a device.

use crate::playing::{DRAWN, KEY, node, plays};
use crate::steps::SWITCH;
use device_sim::{Device, Recorder, Starved, make_switch};
use std::alloc::Global;
use std::process::Abort;
use std::test::Fail;
use zw_base::Replies;

/// Whether it finds no memory for a payload.
fn starves<D: Device>(alloc: Global, device: &mut D) -> Result<bool, Fail> {
    let mut out = Replies::new(alloc)?;
    Ok(device.hear(&[0x25, 2], DRAWN, &mut out).is_err())
}

/// The payload that finds no memory is not kept; each one after it is.
fn records<D: Device>(rt: &impl Abort, alloc: Global, mut device: Recorder<D>) -> Result<(), Fail> {
    let starves = starves(alloc, &mut device)?;
    assert!(rt; starves && device.heard() == 0);
    let wrong = plays(alloc, &mut device, SWITCH)?;
    assert!(rt; wrong.is_none());
    assert!(rt; device.heard() == 14);
    Ok(())
}

#[test]
fn wrappers_starve_and_record(rt: HostRuntime) -> Result<(), Fail> {
    let alloc = rt.alloc();
    let inner = Starved::new(make_switch(alloc, node(2)?, KEY)?, 1);
    records(&rt, alloc, Recorder::new(alloc, inner))
}
