//! What happened on the air is told, and the chip learns of it.

ghost use Rattle.std.specs.Prelude.{◌≡◌, ◌+◌, ◌<◌, ◌^◌, ◌++◌, length, map, slice_get, OnOk, OnErr, Some};
ghost use Rattle.outside_model.specs.State.{Does, each};
ghost use Rattle.outside_model.specs.Did.{Enters};
ghost use Rattle.outside_model.specs.Results.{device_at};
ghost use Rattle.mesh_sim.specs.Fates.{place_of};
ghost use Rattle.outside_model.specs.Air.{deals, change_entries, change_at};

use device_sim::{Change, Device};
use mesh_sim::{AirEvent, place_in};
use outside_step::{OutsideCore, tell_sent};
use std::alloc::Global;
use zw_base::{List, NoMemory, NodeId};
use zw_text::Entry;

/// Events of the air, with the devices as they are now.
fn deal_all(
    core: &mut OutsideCore,
    events: &List<AirEvent>,
    devices: &Vec<Box<dyn Device>>,
    told: &mut List<Entry>,
) -> Result<(), NoMemory>
    requires few { length devices.now.items < 2 ^ 64 }
    ensures { OnOk result (Does (each (deals (map (λ d. state d) devices.now.items)) core.old events.now.items) core.new told.old.items told.new.items) }
{
    for event in events.as_slice() {
        deal(core, event, devices, told)?;
    }
    Ok(())
}

/// The same, and what they told is entered.
pub(crate) fn deal_and_enter(
    core: &mut OutsideCore,
    events: &List<AirEvent>,
    devices: &Vec<Box<dyn Device>>,
    out: &mut List<Entry>,
) -> Result<(), NoMemory>
    requires few { length devices.now.items < 2 ^ 64 }
    ensures ok { OnOk result (Enters (each (deals (map (λ d. state d) devices.now.items)) core.old events.now.items) core.new out.old.items out.new.items) }
    ensures err { OnErr result (out.new.items ≡ out.old.items) }
{
    let mut told = List::new(core.alloc());
    deal_all(core, events, devices, &mut told)?;
    core.enter(told, out)
}

/// One event of the air.
fn deal(
    core: &mut OutsideCore,
    event: &AirEvent,
    devices: &Vec<Box<dyn Device>>,
    told: &mut List<Entry>,
) -> Result<(), NoMemory>
    requires few { length devices.now.items < 2 ^ 64 }
    ensures { OnOk result (Does (deals (map (λ d. state d) devices.now.items) core.old event.now) core.new told.old.items told.new.items) }
{
    match event {
        AirEvent::Heard(frame) => told.push(Entry::Heard { frame: *frame })?,
        AirEvent::Lost(frame) => told.push(Entry::Lost { frame: *frame })?,
        AirEvent::Unheard(frame) => told.push(Entry::Unheard { frame: *frame })?,
        AirEvent::Sent { .. } => tell_sent(core.alloc(), event, told)?,
        AirEvent::Changed { node, at } => tell_change_of(core.alloc(), *node, *at, devices, told)?,
        AirEvent::ToChip { from, payload, .. } => core.reach_chip(*from, payload, told)?,
        AirEvent::Done { status, dead, .. } => core.end_frame(*status, *dead, told)?,
    }
    Ok(())
}

/// The change at a place of the journal of a node's first device is told.
fn tell_change_of(
    alloc: Global,
    node: NodeId,
    at: u64,
    devices: &Vec<Box<dyn Device>>,
    told: &mut List<Entry>,
) -> Result<(), NoMemory>
    requires few { length devices.now.items < 2 ^ 64 }
    ensures { OnOk result (told.new.items ≡ told.old.items
        ++ change_entries node (change_at (device_at (map (λ d. state d) devices.now.items) (place_of node (map (λ d. state d) devices.now.items))) at)) }
{
    match place_in(devices, node) {
        Some(place) => tell_change(alloc, node, at, &devices[place], told),
        None => Ok(()),
    }
}

/// The change at a place of a device's journal is told.
pub(crate) fn tell_change(
    alloc: Global,
    node: NodeId,
    at: u64,
    device: &Box<dyn Device>,
    told: &mut List<Entry>,
) -> Result<(), NoMemory>
    ensures { OnOk result (told.new.items ≡ told.old.items ++ change_entries node (slice_get (state device.now).journal at)) }
{
    match device.change(alloc, at)? {
        Some(change) => tell_settings(node, &change, told),
        None => Ok(()),
    }
}

/// The settings of a change are told.
fn tell_settings(node: NodeId, change: &Change, told: &mut List<Entry>) -> Result<(), NoMemory>
    ensures { OnOk result (told.new.items ≡ told.old.items ++ change_entries node (Some change.now)) }
{
    told.reserve(change.settings.len())?;
    for setting in change.settings.as_slice() {
        told.put(Entry::Dev {
            node,
            by: change.by,
            setting: *setting,
        });
    }
    Ok(())
}
