//! The air: frames that arrive or are heard again, and what is sent.

ghost use Rattle.std.specs.Prelude.{◌≡◌, ◌+◌, ◌-◌, ◌<◌, ◌^◌, ◌++◌, ◌∷◌, [], ℕ, length, map, Option, Some, None, OnOk, OnErr, MatchResult, List as Items};
ghost use Rattle.std.specs.Option.{ForSome, option_map};
ghost use Rattle.std.specs.List.{flat_map};
ghost use Rattle.route_table.specs.declared.route.Route.{Route as TheRoute};
ghost use Rattle.air_frames.specs.Flown.{IsSound};
ghost use Rattle.air_frames.specs.Ages.{refusal_of};
ghost use Rattle.air_frames.specs.declared.ages.Refusal.{Refusal as Refused};
ghost use Rattle.mesh_sim.specs.Faults.{IsFault};
ghost use Rattle.mesh_sim.specs.Routes.{IsRoute, backwards};
ghost use Rattle.mesh_sim.specs.Steps.{Arrives, Repeats, Did, IsArrival, IsRepeatOf, IsCut};
ghost use Rattle.outside_model.specs.State.{Does};
ghost use Rattle.outside_model.specs.Air.{to_chip, sent_entries};
ghost use Rattle.outside_model.specs.Devices.{sends_over, HasWay};

use crate::OutsideCore;
use crate::outputs::shown_repeaters;
use device_sim::Device;
use mesh_sim::{AirEvent, RepeatFault};
use route_table::Route;
use std::alloc::Global;
use zw_base::{Draw, List, NoMemory, NodeId, Payload, Replies};
use zw_text::Entry;

impl OutsideCore {
    /// How many frames are on the air.
    pub fn flying(&self) -> u64
        ensures value { result ≡ self.now.air.frames.sent - self.now.air.frames.landed }
        ensures all { self.now.air.frames.landed + result ≡ self.now.air.frames.sent }
    {
        self.air.flying()
    }

    /// The route from node 1 to a node in the links of the air.
    pub fn route(&self, node: NodeId) -> Option<Route>
        ensures { IsRoute self.now.air.network node result }
    {
        self.air.route(node)
    }

    /// The next frame arrives in the air, which tells what became of it.
    pub fn arrive<D: Draw>(
        &mut self,
        devices: &mut Vec<Box<dyn Device>>,
        draw: &mut D,
        events: &mut List<AirEvent>,
    ) -> Result<(), NoMemory>
        requires few { length devices.old.items < 2 ^ 64 }
        requires flying { self.old.air.frames.landed < self.old.air.frames.sent }
        ensures ok { OnOk result ((drawn : Items ℕ) × (route : Option TheRoute) × Did (Arrives drawn route ∷ [])
            self.old.air (map (λ d. state d) devices.old.items) self.new.air (map (λ d. state d) devices.new.items) events.old.items events.new.items) }
        ensures cut { OnErr result (IsCut IsArrival (record { air = self.old.air; devices = map (λ d. state d) devices.old.items })
            (map (λ d. state d) devices.new.items)) }
        ensures rest { self.new ≡ record self.old { air = self.new.air } }
        ensures kept { length devices.new.items ≡ length devices.old.items }
    {
        self.air.arrive(devices, draw, events)
    }

    /// A frame is heard again in the air, which tells what became of it, or refuses that.
    pub fn repeat<D: Draw>(
        &mut self,
        frame: u64,
        devices: &mut Vec<Box<dyn Device>>,
        draw: &mut D,
        events: &mut List<AirEvent>,
    ) -> Result<(), RepeatFault>
        requires few { length devices.old.items < 2 ^ 64 }
        ensures refused { MatchResult result (λ _. refusal_of self.old.air.frames frame ≡ None)
            (λ fault. IsFault (refusal_of self.old.air.frames frame) fault) }
        ensures still { (refusal : Refused) → refusal_of self.old.air.frames frame ≡ Some refusal →
            map (λ d. state d) devices.new.items ≡ map (λ d. state d) devices.old.items }
        ensures ok { OnOk result ((drawn : Items ℕ) × (route : Option TheRoute) × Did (Repeats frame drawn route ∷ [])
            self.old.air (map (λ d. state d) devices.old.items) self.new.air (map (λ d. state d) devices.new.items) events.old.items events.new.items) }
        ensures err { OnErr result (self.new ≡ self.old) }
        ensures cut { OnErr result (IsCut (IsRepeatOf frame)
            (record { air = self.old.air; devices = map (λ d. state d) devices.old.items }) (map (λ d. state d) devices.new.items)) }
        ensures rest { self.new ≡ record self.old { air = self.new.air } }
        ensures kept { length devices.new.items ≡ length devices.old.items }
    {
        self.air.repeat(frame, devices, draw, events)
    }

    /// A payload of a node comes to the chip.
    pub fn reach_chip(
        &mut self,
        from: NodeId,
        payload: &Payload,
        told: &mut List<Entry>,
    ) -> Result<(), NoMemory>
        ensures { OnOk result (Does (to_chip self.old from payload.now) self.new told.old.items told.new.items) }
    {
        let bytes = payload.bytes();
        if bytes.is_empty() {
            return Ok(());
        }
        let mut outputs = List::new(self.alloc);
        self.chip.heard(from, bytes, &mut outputs)?;
        self.put_outputs(&outputs, told)
    }

    /// The way home of a node that sends anything.
    pub fn way_for(&self, node: NodeId, replies: &Replies) -> Option<Route>
        ensures way { (route : Option TheRoute) × HasWay self.now.air.network node replies.now route × (result ≡ option_map backwards route) }
        ensures sound { ForSome result (λ r. IsSound r) }
    {
        if replies.len() == 0 {
            return None;
        }
        self.air.way_home(node)
    }

    /// Payloads of a node go on the air over a way.
    pub fn send(
        &mut self,
        node: NodeId,
        way: Option<Route>,
        replies: &Replies,
        told: &mut List<Entry>,
    ) -> Result<(), NoMemory>
        requires sound { ForSome way (λ r. IsSound r) }
        ensures { OnOk result (Does (sends_over self.old node way replies.now) self.new told.old.items told.new.items) }
    {
        let mut events = List::new(self.alloc);
        self.air.send_all(node, way, replies, &mut events)?;
        tell_all_sent(self.alloc, &events, told)
    }
}

/// A frame that went on the air is told.
pub fn tell_sent(alloc: Global, event: &AirEvent, told: &mut List<Entry>) -> Result<(), NoMemory>
    ensures { OnOk result (told.new.items ≡ told.old.items ++ sent_entries event.now) }
{
    let AirEvent::Sent {
        frame,
        from,
        to,
        route,
        payload,
    } = event
    else {
        return Ok(());
    };
    let Some(payload) = Payload::of(payload.bytes()) else {
        unreachable!()
    };
    told.push(Entry::Air {
        frame: *frame,
        sender: *from,
        receiver: *to,
        repeaters: shown_repeaters(alloc, route)?,
        payload,
    })
}

/// The frames that went on the air are told.
fn tell_all_sent(
    alloc: Global,
    events: &List<AirEvent>,
    told: &mut List<Entry>,
) -> Result<(), NoMemory>
    ensures { OnOk result (told.new.items ≡ told.old.items ++ flat_map sent_entries events.now.items) }
{
    for event in events.as_slice() {
        tell_sent(alloc, event, told)?;
    }
    Ok(())
}
