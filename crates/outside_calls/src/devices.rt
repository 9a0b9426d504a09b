//! What is read of a device in a box, and what it does.

ghost use Rattle.std.specs.Prelude.{◌≡◌, ◌+◌, ◌<◌, ◌^◌, ◌++◌, [], length, map, Some, IfOk, OnOk, OnErr};
ghost use Rattle.chip_sim.specs.Events.{FitsProfile};
ghost use Rattle.device_sim.specs.Event.{Ticks, device_after, device_replies};
ghost use Rattle.mesh_sim.specs.Fates.{place_of};
ghost use Rattle.outside_model.specs.Results.{told_profile, device_at};
ghost use Rattle.outside_calls.specs.Acting.{act_event};
ghost use Rattle.outside_model.specs.Devices.{device_entries, kept_entries};
ghost use Rattle.outside_model.specs.Nodes.{listens_at};

use crate::acting::Act;
use device_sim::Device;
use mesh_sim::place_in;
use outside_step::put_all;
use std::alloc::Global;
use zw_base::{List, NoMemory, NodeId, Profile, Replies, Setting};
use zw_text::Entry;

/// What a device tells of itself while it is awake.
pub(crate) fn told_profile(
    device: &Box<dyn Device>,
    alloc: Global,
) -> Result<Option<Profile>, NoMemory>
    ensures told { IfOk result (λ profile. profile ≡ told_profile (Some (state device.now))) }
    ensures fits { IfOk result (λ profile. FitsProfile profile) }
{
    if !device.awake() {
        return Ok(None);
    }
    Ok(Some(device.profile(alloc)?))
}

/// Whether the list has a device of that node that listens.
pub(crate) fn listens_in(
    devices: &Vec<Box<dyn Device>>,
    node: NodeId,
    alloc: Global,
) -> Result<bool, NoMemory>
    requires few { length devices.now.items < 2 ^ 64 }
    ensures { IfOk result (λ listens. listens ≡
        listens_at (device_at (map (λ d. state d) devices.now.items) (place_of node (map (λ d. state d) devices.now.items)))) }
{
    match place_in(devices, node) {
        Some(place) => listens(&devices[place], alloc),
        None => Ok(false),
    }
}

/// Whether a device listens.
fn listens(device: &Box<dyn Device>, alloc: Global) -> Result<bool, NoMemory>
    ensures { IfOk result (λ listens. listens ≡ listens_at (Some (state device.now))) }
{
    Ok(device.profile(alloc)?.listening)
}

/// What is shown of a device is told.
pub(crate) fn tell_device(
    device: &Box<dyn Device>,
    node: NodeId,
    alloc: Global,
    told: &mut List<Entry>,
) -> Result<(), NoMemory>
    ensures { OnOk result (told.new.items ≡ told.old.items ++ device_entries node (Some (state device.now))) }
{
    let shown = device.show(alloc)?;
    tell_shown(node, &shown, told)
}

/// What is shown of the first device of a node is told; nothing where there is none.
fn tell_first(
    devices: &Vec<Box<dyn Device>>,
    node: NodeId,
    alloc: Global,
    told: &mut List<Entry>,
) -> Result<(), NoMemory>
    requires few { length devices.now.items < 2 ^ 64 }
    ensures { OnOk result (told.new.items ≡ told.old.items ++ kept_entries node (map (λ d. state d) devices.now.items)) }
{
    match place_in(devices, node) {
        Some(place) => tell_device(&devices[place], node, alloc, told),
        None => Ok(()),
    }
}

/// What the first device of a node keeps, as the table at the end of a run has it; nothing where there is none.
pub fn list_device(
    alloc: Global,
    node: NodeId,
    devices: &Vec<Box<dyn Device>>,
    out: &mut List<Entry>,
) -> Result<(), NoMemory>
    requires few { length devices.now.items < 2 ^ 64 }
    ensures ok { OnOk result (out.new.items ≡ out.old.items ++ kept_entries node (map (λ d. state d) devices.now.items)) }
    ensures no_entries { OnErr result (out.new.items ≡ out.old.items) }
{
    let mut told = List::new(alloc);
    tell_first(devices, node, alloc, &mut told)?;
    out.reserve(told.len())?;
    put_all(told, out);
    Ok(())
}

/// Settings are told as those of a device.
fn tell_shown(node: NodeId, shown: &List<Setting>, told: &mut List<Entry>) -> Result<(), NoMemory>
    ensures { OnOk result (told.new.items ≡ told.old.items ++ map (λ setting. Entry.Device node setting) shown.now.items) }
{
    for setting in shown.as_slice() {
        told.push(Entry::Device {
            node,
            setting: *setting,
        })?;
    }
    Ok(())
}

/// The node of a device.
pub(crate) fn node_of(device: &Box<dyn Device>) -> NodeId
    ensures { result ≡ (state device.now).node }
{
    device.node()
}

/// How many changes a device made.
pub(crate) fn changes_of(device: &Box<dyn Device>) -> u64
    ensures { result ≡ length (state device.now).journal }
{
    device.changes()
}

/// The device in a box ticks. The answer is how many changes it made.
fn tick_in_box(device: &mut Box<dyn Device>, replies: &mut Replies) -> Result<u64, NoMemory>
    requires { replies.old ≡ [] }
    ensures ok { OnOk result (state device.new ≡ device_after (state device.old) (Ticks [])) }
    ensures replies { OnOk result (replies.new ≡ device_replies (state device.old) (Ticks [])) }
    ensures made { IfOk result (λ made. length (state device.new).journal ≡ length (state device.old).journal + made) }
    ensures err { OnErr result (state device.new ≡ state device.old) }
{
    device.tick(replies)
}

/// A device ticks. The answer is how many changes it made. One that makes none sends nothing.
pub(crate) fn tick_device(
    device: &mut Box<dyn Device>,
    replies: &mut Replies,
) -> Result<u64, NoMemory>
    requires { replies.old ≡ [] }
    ensures ok { OnOk result (state device.new ≡ device_after (state device.old) (Ticks [])) }
    ensures replies { OnOk result (replies.new ≡ device_replies (state device.old) (Ticks [])) }
    ensures made { IfOk result (λ made. length (state device.new).journal ≡ length (state device.old).journal + made) }
    ensures quiet { IfOk result (λ made. made ≡ 0 → replies.new ≡ []) }
    ensures err { OnErr result (state device.new ≡ state device.old) }
{
    let made = tick_in_box(device, replies)?;
    Ok(made)
}

/// A device does something.
pub(crate) fn act_one(
    device: &mut Box<dyn Device>,
    act: Act,
    replies: &mut Replies,
) -> Result<(), NoMemory>
    requires { replies.old ≡ [] }
    ensures ok { OnOk result (state device.new ≡ device_after (state device.old) (act_event act)) }
    ensures replies { OnOk result (replies.new ≡ device_replies (state device.old) (act_event act)) }
    ensures err { OnErr result (state device.new ≡ state device.old) }
{
    match act {
        Act::Wake => device.wake(replies),
        Act::Local(value) => device.local(value, replies),
    }
}
