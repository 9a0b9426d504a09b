//! What devices do of themselves or by hand.

ghost use Rattle.std.specs.Prelude.{◌≡◌, ◌+◌, ◌<◌, ◌^◌, ◌++◌, [], length, map, drop, Option, Some, None, OnOk, OnErr};
ghost use Rattle.route_table.specs.declared.route.Route.{Route as TheRoute};
ghost use Rattle.device_sim.specs.Event.{Ticks, device_after, device_replies};
ghost use Rattle.mesh_sim.specs.Fates.{place_of};
ghost use Rattle.outside_model.specs.State.{outside, Does, and_then, tells};
ghost use Rattle.outside_calls.specs.Acting.{act_event, HasActed, HasActedByHand};
ghost use Rattle.outside_model.specs.Devices.{acts, changes_entries, HasWay, sends, acts_by_hand, set_by_hand, MayActByHand};
ghost use Rattle.outside_model.specs.Events.{Shows};
ghost use Rattle.outside_model.specs.Did.{RunOf, PrefixOf, Stops, GoesFor, Enters};
ghost use Rattle.outside_model.specs.Schedules.{DeviceTicks, IsWake, IsSet, IsOne};

use crate::Outside;
use crate::dealing::tell_change;
use crate::devices::{act_one, changes_of, node_of, tell_device, tick_device};
use device_sim::Device;
use mesh_sim::place_in;
use outside_step::OutsideCore;
use std::alloc::Global;
use zw_base::{Draw, List, NoMemory, NodeId, Replies};
use zw_text::{Entry, Refusal};

/// What a device does by hand.
#[derive(Clone, Copy)]
pub enum Act {
    /// Somebody wakes it.
    Wake,
    /// Somebody sets its main property.
    Local(u8),
}

impl Outside {
    /// The devices tick, in the order of the list. Nothing is drawn for that: no device draws at a tick.
    pub fn tick_devices<D: Draw>(
        &mut self,
        devices: &mut Vec<Box<dyn Device>>,
        _draw: &mut D,
        out: &mut List<Entry>,
    ) -> Result<(), NoMemory>
        requires few { length devices.old.items < 2 ^ 64 }
        ensures ok { OnOk result (RunOf (DeviceTicks 0 (length devices.old.items))
            (outside self.old (map (λ d. state d) devices.old.items)) (outside self.new (map (λ d. state d) devices.new.items)) out.old.items out.new.items) }
        ensures err { OnErr result (Stops (PrefixOf (DeviceTicks 0 (length devices.old.items)))
            (outside self.old (map (λ d. state d) devices.old.items)) (map (λ d. state d) devices.new.items) out.old.items out.new.items) }
        ensures kept { length devices.new.items ≡ length devices.old.items }
    {
        let mut replies = Replies::new(self.core.alloc())?;
        tick_all(&mut self.core, devices.as_mut_slice(), &mut replies, out)
    }

    /// The device at a place does something.
    fn act_at(
        &mut self,
        place: usize,
        act: Act,
        devices: &mut Vec<Box<dyn Device>>,
        out: &mut List<Entry>,
    ) -> Result<(), NoMemory>
        requires few { length devices.old.items < 2 ^ 64 }
        requires within { place < length devices.old.items }
        ensures devices { OnOk result (map (λ d. state d) devices.new.items ≡ set_by_hand (map (λ d. state d) devices.old.items) (Some place) (act_event act)) }
        ensures ok { OnOk result ((route : Option TheRoute) × MayActByHand self.old (map (λ d. state d) devices.old.items) (Some place) (act_event act) route
            × Enters (acts_by_hand self.old (map (λ d. state d) devices.old.items) (Some place) (act_event act) route) self.new out.old.items out.new.items) }
        ensures no_entries { OnErr result (out.new.items ≡ out.old.items) }
        ensures err { OnErr result (HasActedByHand self.old (map (λ d. state d) devices.old.items) (map (λ d. state d) devices.new.items)
            (Some place) (act_event act)) }
        ensures kept { length devices.new.items ≡ length devices.old.items }
    {
        let mut told = List::new(self.core.alloc());
        perform(&mut self.core, &mut devices[place], act, &mut told)?;
        self.core.enter(told, out)
    }

    /// Somebody wakes the first device of a node.
    pub fn wake(
        &mut self,
        node: NodeId,
        devices: &mut Vec<Box<dyn Device>>,
        out: &mut List<Entry>,
    ) -> Result<(), NoMemory>
        requires few { length devices.old.items < 2 ^ 64 }
        ensures ok { OnOk result (RunOf (IsWake node) (outside self.old (map (λ d. state d) devices.old.items))
            (outside self.new (map (λ d. state d) devices.new.items)) out.old.items out.new.items) }
        ensures err { OnErr result (Stops (PrefixOf (IsWake node)) (outside self.old (map (λ d. state d) devices.old.items))
            (map (λ d. state d) devices.new.items) out.old.items out.new.items) }
        ensures kept { length devices.new.items ≡ length devices.old.items }
    {
        self.act_by_hand(node, Act::Wake, devices, out)
    }

    /// Somebody sets the main property of the first device of a node.
    pub fn local(
        &mut self,
        node: NodeId,
        value: u8,
        devices: &mut Vec<Box<dyn Device>>,
        out: &mut List<Entry>,
    ) -> Result<(), NoMemory>
        requires few { length devices.old.items < 2 ^ 64 }
        ensures ok { OnOk result (RunOf (IsSet node value) (outside self.old (map (λ d. state d) devices.old.items))
            (outside self.new (map (λ d. state d) devices.new.items)) out.old.items out.new.items) }
        ensures err { OnErr result (Stops (PrefixOf (IsSet node value)) (outside self.old (map (λ d. state d) devices.old.items))
            (map (λ d. state d) devices.new.items) out.old.items out.new.items) }
        ensures kept { length devices.new.items ≡ length devices.old.items }
    {
        self.act_by_hand(node, Act::Local(value), devices, out)
    }

    /// The first device of a node does something; refused where there is none.
    fn act_by_hand(
        &mut self,
        node: NodeId,
        act: Act,
        devices: &mut Vec<Box<dyn Device>>,
        out: &mut List<Entry>,
    ) -> Result<(), NoMemory>
        requires few { length devices.old.items < 2 ^ 64 }
        ensures devices { OnOk result
            (map (λ d. state d) devices.new.items ≡
            set_by_hand (map (λ d. state d) devices.old.items) (place_of node (map (λ d. state d) devices.old.items)) (act_event act)) }
        ensures ok { OnOk result ((route : Option TheRoute) ×
            MayActByHand self.old (map (λ d. state d) devices.old.items) (place_of node (map (λ d. state d) devices.old.items)) (act_event act) route
            × Enters (acts_by_hand self.old (map (λ d. state d) devices.old.items) (place_of node (map (λ d. state d) devices.old.items))
            (act_event act) route) self.new out.old.items out.new.items) }
        ensures no_entries { OnErr result (out.new.items ≡ out.old.items) }
        ensures err { OnErr result (HasActedByHand self.old (map (λ d. state d) devices.old.items) (map (λ d. state d) devices.new.items)
            (place_of node (map (λ d. state d) devices.old.items)) (act_event act)) }
        ensures kept { length devices.new.items ≡ length devices.old.items }
    {
        match place_in(devices, node) {
            Some(place) => self.act_at(place, act, devices, out),
            None => self.core.refuse(Refusal::NoDevice, out),
        }
    }

    /// What is kept by the first device of a node is shown; refused where there is none.
    pub fn show(
        &mut self,
        node: NodeId,
        devices: &Vec<Box<dyn Device>>,
        out: &mut List<Entry>,
    ) -> Result<(), NoMemory>
        requires few { length devices.now.items < 2 ^ 64 }
        ensures ok { OnOk result (GoesFor (map (λ d. state d) devices.now.items) (IsOne (Shows node)) self.old self.new out.old.items out.new.items) }
        ensures no_entries { OnErr result (out.new.items ≡ out.old.items) }
    {
        let Some(place) = place_in(devices, node) else {
            return self.core.refuse(Refusal::NoDevice, out);
        };
        let mut told = List::new(self.core.alloc());
        tell_device(&devices[place], node, self.core.alloc(), &mut told)?;
        self.core.enter(told, out)
    }
}

/// A device does something: what it changed is told, and what it sends goes on the air.
fn perform(
    core: &mut OutsideCore,
    device: &mut Box<dyn Device>,
    act: Act,
    told: &mut List<Entry>,
) -> Result<(), NoMemory>
    ensures device { OnOk result (state device.new ≡ device_after (state device.old) (act_event act)) }
    ensures ok { OnOk result ((route : Option TheRoute) ×
        HasWay core.old.air.network (state device.old).node (device_replies (state device.old) (act_event act)) route
        × Does (acts core.old (state device.old) (act_event act) route) core.new told.old.items told.new.items) }
    ensures err { OnErr result (HasActed core.old (state device.old) (state device.new) (act_event act)) }
{
    let node = node_of(device);
    let first = changes_of(device);
    let mut replies = Replies::new(core.alloc())?;
    act_one(device, act, &mut replies)?;
    tell_act(core, node, first, device, &replies, told)
}

/// The devices tick, in the order of the list. The same replies, of which there are none before and after, serve each device.
fn tick_all(
    core: &mut OutsideCore,
    devices: &mut [Box<dyn Device>],
    replies: &mut Replies,
    out: &mut List<Entry>,
) -> Result<(), NoMemory>
    requires { replies.old ≡ [] }
    ensures ok { OnOk result (RunOf (DeviceTicks 0 (length devices.old))
        (outside core.old (map (λ d. state d) devices.old)) (outside core.new (map (λ d. state d) devices.new)) out.old.items out.new.items) }
    ensures err { OnErr result (Stops (PrefixOf (DeviceTicks 0 (length devices.old)))
        (outside core.old (map (λ d. state d) devices.old)) (map (λ d. state d) devices.new) out.old.items out.new.items) }
{
    for device in devices.iter_mut() {
        tick_one(core, device, replies, out)?;
    }
    Ok(())
}

/// A device ticks. One that changes nothing sends nothing, and costs no more than that; else both are told and entered. The
/// same replies, of which there are none before and after, serve each device.
fn tick_one(
    core: &mut OutsideCore,
    device: &mut Box<dyn Device>,
    replies: &mut Replies,
    out: &mut List<Entry>,
) -> Result<(), NoMemory>
    requires { replies.old ≡ [] }
    ensures device { OnOk result (state device.new ≡ device_after (state device.old) (Ticks [])) }
    ensures ok { OnOk result ((route : Option TheRoute) ×
        HasWay core.old.air.network (state device.old).node (device_replies (state device.old) (Ticks [])) route
        × Enters (acts core.old (state device.old) (Ticks []) route) core.new out.old.items out.new.items) }
    ensures free { OnOk result (replies.new ≡ []) }
    ensures no_entries { OnErr result (out.new.items ≡ out.old.items) }
    ensures err { OnErr result (HasActed core.old (state device.old) (state device.new) (Ticks [])) }
{
    let made = tick_device(device, replies)?;
    if made == 0 {
        return Ok(());
    }
    let first = changes_of(device) - made;
    let mut told = List::new(core.alloc());
    tell_act(core, node_of(device), first, device, replies, &mut told)?;
    core.enter(told, out)?;
    replies.clear();
    Ok(())
}

/// What a device changed from a place of its journal on is told, and what it sends goes on the air.
fn tell_act(
    core: &mut OutsideCore,
    node: NodeId,
    first: u64,
    device: &Box<dyn Device>,
    replies: &Replies,
    told: &mut List<Entry>,
) -> Result<(), NoMemory>
    ensures { (route : Option TheRoute) × HasWay core.old.air.network node replies.now route × OnOk result (Does
        (and_then (tells core.old (changes_entries node (drop first (state device.now).journal))) (λ later. sends later node route replies.now))
        core.new told.old.items told.new.items) }
{
    let way = core.way_for(node, replies);
    tell_changes(core.alloc(), node, first, device, told)?;
    core.send(node, way, replies, told)
}

/// The changes that a device made from a place of its journal on are told.
fn tell_changes(
    alloc: Global,
    node: NodeId,
    first: u64,
    device: &Box<dyn Device>,
    told: &mut List<Entry>,
) -> Result<(), NoMemory>
    ensures { OnOk result (told.new.items ≡ told.old.items ++ changes_entries node (drop first (state device.now).journal)) }
{
    for at in first..changes_of(device) {
        tell_change(alloc, node, at, device, told)?;
    }
    Ok(())
}
