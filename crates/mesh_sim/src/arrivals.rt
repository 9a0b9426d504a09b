//! Frames that arrive, and what a device does that hears one.

ghost use Rattle.std.specs.Prelude.{
  ◌≡◌,
  ℕ,
  ◌+◌,
  ◌-◌,
  ◌<◌,
  ◌≤◌,
  ◌^◌,
  [],
  ◌∷◌,
  ◌++◌,
  length,
  map,
  option_map,
  Option,
  Some,
  None,
  OnOk,
  OnErr,
  IfOk,
  List as Items,
};
ghost use Rattle.std.specs.Option.{ForSome};
ghost use Rattle.route_table.specs.declared.route.Route.{Route as TheRoute};
ghost use Rattle.device_sim.specs.Event.{Hears, device_after, device_replies};
ghost use Rattle.air_frames.specs.Flown.{IsSound};
ghost use Rattle.air_frames.specs.declared.frame.Heading.TheVariants.{Homeward};
ghost use Rattle.mesh_sim.specs.Air.{is_joined, departing};
ghost use Rattle.mesh_sim.specs.Routes.{IsRoute, backwards};
ghost use Rattle.mesh_sim.specs.Fates.{HearsWithin};
ghost use Rattle.mesh_sim.specs.Steps.{
  Arrives,
  Did,
  Stops,
  IsArrival,
  IsCut,
  Delivers,
  landed,
  acknowledged,
  status_of,
  done_of,
  changed,
  sent_event,
  answered,
  answers,
  answered_if,
  answers_if,
  HasHeard,
  HasPerhaps,
  Comes,
};

use crate::air::NO_ROUTE;
use crate::devices::{changes_of, hear_one};
use crate::event::{TRANSMIT_NO_ACK, TRANSMIT_OK};
use crate::fate::{Fate, fate_now};
use crate::{Air, AirEvent};
use air_frames::Heading;
use device_sim::Device;
use route_table::Route;
use zw_base::{Draw, List, NoMemory, NodeId, Payload, Replies, controller};

/// The most payloads that a device gives in one call.
const MAX_REPLIES: u8 = 8;

/// The most events of a frame that is heard, but for the changes: that it was heard, the frames sent, and its end.
const EVENTS_HEARD: usize = 10;

/// What a device did that heard a payload: the changes from one place of its journal to another, and its answers.
#[derive(Drop)]
pub(crate) struct Hearing {
    first_change: u64,
    changes: u64,
    replies: Replies,
    way: Option<Route>,
}

/// The frame that arrives next, and what becomes of it.
#[derive(Drop)]
struct Coming {
    heading: Heading,
    fate: Fate,
    arrival: Arrival,
}

/// A frame that arrives or is repeated.
#[derive(Drop)]
pub(crate) struct Arrival {
    pub(crate) number: u64,
    pub(crate) node: NodeId,
    pub(crate) payload: Payload,
}

impl Air {
    /// Delivers each frame that is on the air now, in the order of numbers. At each what became of it is first, then the
    /// changes of the device that heard it, then the frames that the device sends, then the end of a frame of node 1.
    /// `draw` gives the bytes for the nonces of the devices. On an allocation failure a prefix of that was done, and the
    /// device of one further frame may have heard.
    pub fn deliver<D: Draw>(
        &mut self,
        devices: &mut Vec<Box<dyn Device>>,
        draw: &mut D,
        out: &mut List<AirEvent>,
    ) -> Result<(), NoMemory>
        requires few { length devices.old.items < 2 ^ 64 }
        ensures ok { OnOk result (Delivers self.old.state (map (λ d. state d) devices.old.items) self.new.state
            (map (λ d. state d) devices.new.items) out.old.items out.new.items) }
        ensures err { OnErr result (Stops self.old.state (map (λ d. state d) devices.old.items) self.new.state
            (map (λ d. state d) devices.new.items) out.old.items out.new.items) }
        ensures kept { length devices.new.items ≡ length devices.old.items }
    {
        for _ in 0..self.frames.flying() {
            self.arrive(devices, draw, out)?;
        }
        Ok(())
    }

    /// How many frames are on the air.
    pub fn flying(&self) -> u64
        ensures value { result ≡ self.now.state.frames.sent - self.now.state.frames.landed }
        ensures all { self.now.state.frames.landed + result ≡ self.now.state.frames.sent }
    {
        self.frames.flying()
    }

    /// The next frame arrives. What is told of it comes in the order that `deliver` has.
    pub fn arrive<D: Draw>(
        &mut self,
        devices: &mut Vec<Box<dyn Device>>,
        draw: &mut D,
        out: &mut List<AirEvent>,
    ) -> Result<(), NoMemory>
        requires few { length devices.old.items < 2 ^ 64 }
        requires flying { self.old.state.frames.landed < self.old.state.frames.sent }
        ensures ok { OnOk result ((drawn : Items ℕ) × (route : Option TheRoute) × Did (Arrives drawn route ∷ [])
            self.old.state (map (λ d. state d) devices.old.items) self.new.state (map (λ d. state d) devices.new.items) out.old.items out.new.items) }
        ensures err { OnErr result (Stops self.old.state (map (λ d. state d) devices.old.items) self.new.state
            (map (λ d. state d) devices.new.items) out.old.items out.new.items) }
        ensures cut { OnErr result (IsCut IsArrival (record { air = self.old.state; devices = map (λ d. state d) devices.old.items })
            (map (λ d. state d) devices.new.items)) }
        ensures kept { length devices.new.items ≡ length devices.old.items }
    {
        let coming = self.coming(devices);
        let Coming {
            heading,
            fate,
            arrival,
        } = coming;
        match fate {
            Fate::Lost => self.pass(AirEvent::Lost(arrival.number), heading, None, out),
            Fate::Dead(from, to) => {
                self.pass(
                    AirEvent::Unheard(arrival.number),
                    heading,
                    Some((from, to)),
                    out,
                )
            }
            Fate::Missed => self.pass(AirEvent::Unheard(arrival.number), heading, None, out),
            Fate::AtChip => self.arrive_at_chip(arrival, out),
            Fate::AtDevice(place) => {
                let drawn = draw.next();
                self.arrive_at_device(&arrival, &mut devices[place], drawn, out)
            }
        }
    }

    /// The frame that arrives next, and what becomes of it.
    fn coming(&self, devices: &Vec<Box<dyn Device>>) -> Coming
        requires few { length devices.now.items < 2 ^ 64 }
        requires flying { self.now.state.frames.landed < self.now.state.frames.sent }
        ensures comes { Comes self.now.state
            (map (λ d. state d) devices.now.items) result.heading result.fate result.arrival.number result.arrival.node result.arrival.payload }
        ensures within { HearsWithin result.fate (length devices.now.items) }
    {
        let Some(frame) = self.frames.next() else {
            unreachable!()
        };
        Coming {
            heading: frame.heading(),
            fate: fate_now(&self.table, frame, devices),
            arrival: Arrival {
                number: self.frames.next_number(),
                node: frame.node(),
                payload: Payload::fitting(frame.payload()),
            },
        }
    }

    /// The next frame arrives, and nobody hears it. Node 1 learns of it where it is its own.
    fn pass(
        &mut self,
        event: AirEvent,
        heading: Heading,
        dead: Option<(NodeId, NodeId)>,
        out: &mut List<AirEvent>,
    ) -> Result<(), NoMemory>
        requires { self.old.state.frames.landed < self.old.state.frames.sent }
        ensures ok { OnOk result (self.new.state ≡ landed self.old.state) }
        ensures outs { OnOk result (out.new.items ≡ out.old.items ++ event ∷ done_of heading (self.old.state.frames.landed + 1) 1 dead) }
        ensures err { OnErr result (self.new.state ≡ self.old.state) }
        ensures no_outs { OnErr result (out.new.items ≡ out.old.items) }
    {
        out.reserve(2)?;
        let frame = self.frames.next_number();
        self.frames.land();
        out.put(event);
        if heading == Heading::Outward {
            out.put(AirEvent::Done {
                frame,
                status: TRANSMIT_NO_ACK,
                dead,
            });
        }
        Ok(())
    }

    /// The next frame arrives at node 1.
    fn arrive_at_chip(&mut self, arrival: Arrival, out: &mut List<AirEvent>) -> Result<(), NoMemory>
        requires { self.old.state.frames.landed < self.old.state.frames.sent }
        ensures ok { OnOk result (self.new.state ≡ landed self.old.state) }
        ensures outs { OnOk result (out.new.items ≡ out.old.items ++
            AirEvent.Heard arrival.number ∷ AirEvent.ToChip arrival.number arrival.node arrival.payload ∷ []) }
        ensures err { OnErr result (self.new.state ≡ self.old.state) }
        ensures no_outs { OnErr result (out.new.items ≡ out.old.items) }
    {
        enter_at_chip(arrival, out)?;
        self.frames.land();
        Ok(())
    }

    /// The next frame, one of node 1, arrives at a device, which hears it.
    fn arrive_at_device(
        &mut self,
        arrival: &Arrival,
        device: &mut Box<dyn Device>,
        drawn: [u8; 8],
        out: &mut List<AirEvent>,
    ) -> Result<(), NoMemory>
        requires flying { self.old.state.frames.landed < self.old.state.frames.sent }
        requires number { arrival.now.number ≡ self.old.state.frames.landed + 1 }
        ensures ok { OnOk result ((route : Option TheRoute) × HasHeard (landed (acknowledged self.old.state)) arrival.now.node arrival.now.payload drawn route
            (state device.old) (state device.new) self.new.state arrival.now.number
            (AirEvent.Done arrival.now.number (status_of self.old.state) None ∷ []) out.old.items out.new.items) }
        ensures err { OnErr result (self.new.state ≡ self.old.state) }
        ensures no_outs { OnErr result (out.new.items ≡ out.old.items) }
        ensures cut { OnErr result (HasPerhaps self.old.state arrival.now.node (state device.old) (state device.new) (Hears arrival.now.payload drawn)) }
    {
        let hearing = self.hear(arrival, device, drawn, out)?;
        let status = self.acknowledge();
        self.frames.land();
        self.enter_heard(arrival, &hearing, out);
        out.put(AirEvent::Done {
            frame: arrival.number,
            status,
            dead: None,
        });
        Ok(())
    }

    /// The status of a frame of node 1 that is heard. Its acknowledgement uses up a mark, where there is one.
    fn acknowledge(&mut self) -> u8
        ensures status { result ≡ status_of self.old.state }
        ensures state { self.new.state ≡ acknowledged self.old.state }
        ensures room { self.new.room ≡ self.old.room }
    {
        if self.ack_losing == 0 {
            return TRANSMIT_OK;
        }
        self.ack_losing -= 1;
        TRANSMIT_NO_ACK
    }

    /// A device hears a payload. What it did can then be entered without further memory.
    pub(crate) fn hear(
        &mut self,
        arrival: &Arrival,
        device: &mut Box<dyn Device>,
        drawn: [u8; 8],
        out: &mut List<AirEvent>,
    ) -> Result<Hearing, NoMemory>
        ensures state { self.new.state ≡ self.old.state }
        ensures no_outs { out.new.items ≡ out.old.items }
        ensures ok { OnOk result (state device.new ≡ device_after (state device.old) (Hears arrival.now.payload drawn)) }
        ensures changes { IfOk result (λ hearing. (hearing.first_change ≡ length (state device.old).journal)
            × (hearing.changes ≡ length (state device.new).journal - length (state device.old).journal)) }
        ensures replies { IfOk result (λ hearing. hearing.replies ≡ device_replies (state device.old) (Hears arrival.now.payload drawn)) }
        ensures way { IfOk result (λ hearing. (route : Option TheRoute) × IsRoute self.old.state.network arrival.now.node route
            × (hearing.way ≡ option_map backwards route)) }
        ensures sound { IfOk result (λ hearing. ForSome hearing.way (λ r. IsSound r)) }
        ensures room { OnOk result (8 ≤ self.new.room) }
        ensures places { IfOk result (λ hearing. hearing.first_change + hearing.changes < 2 ^ 64) }
        ensures out_room { IfOk result (λ hearing. hearing.changes + 10 ≤ out.new.room) }
        ensures cut { OnErr result (HasPerhaps self.old.state arrival.now.node (state device.old) (state device.new) (Hears arrival.now.payload drawn)) }
    {
        let mut replies = Replies::new(self.alloc)?;
        self.reserve(MAX_REPLIES)?;
        out.reserve(EVENTS_HEARD + 1)?;
        let way = self.way_home(arrival.node);
        let first_change = changes_of(device);
        hear_one(device, arrival.payload.bytes(), drawn, &mut replies)?;
        let changes = changes_of(device).saturating_sub(first_change);
        let Some(events) = changes.checked_add(EVENTS_HEARD as u64) else {
            return Err(NoMemory);
        };
        out.reserve(events as usize)?;
        Ok(Hearing {
            first_change,
            changes,
            replies,
            way,
        })
    }

    /// Enters that a frame was heard, with the changes of the device and the frames that it sends.
    pub(crate) fn enter_heard(
        &mut self,
        arrival: &Arrival,
        hearing: &Hearing,
        out: &mut List<AirEvent>,
    )
        requires room { 8 ≤ self.old.room }
        requires out_room { hearing.now.changes + 10 ≤ out.old.room }
        requires places { hearing.now.first_change + hearing.now.changes < 2 ^ 64 }
        requires sound { ForSome hearing.now.way (λ r. IsSound r) }
        ensures state { self.new.state ≡
            answered_if (is_joined self.old.state arrival.now.node) self.old.state arrival.now.node hearing.now.way hearing.now.replies }
        ensures outs { out.new.items ≡ out.old.items ++ AirEvent.Heard arrival.now.number
            ∷ changed arrival.now.node hearing.now.first_change hearing.now.changes
            ++ answers_if (is_joined self.old.state arrival.now.node) self.old.state arrival.now.node hearing.now.way hearing.now.replies }
        ensures out_room { 1 ≤ out.new.room }
    {
        out.put(AirEvent::Heard(arrival.number));
        enter_changes(arrival.node, hearing.first_change, hearing.changes, out);
        if self.is_joined(arrival.node) {
            self.answer(arrival.node, hearing.way, &hearing.replies, out);
        }
    }

    /// The payloads of a device go on the air over that way, which is the one home from its node. One that is not joined
    /// puts nothing on it.
    pub fn send_all(
        &mut self,
        node: NodeId,
        way: Option<Route>,
        replies: &Replies,
        out: &mut List<AirEvent>,
    ) -> Result<(), NoMemory>
        requires sound { ForSome way (λ r. IsSound r) }
        ensures ok { OnOk result (self.new.state ≡ answered_if (is_joined self.old.state node) self.old.state node way replies.now) }
        ensures outs { OnOk result (out.new.items ≡ out.old.items ++ answers_if (is_joined self.old.state node) self.old.state node way replies.now) }
        ensures err { OnErr result (self.new.state ≡ self.old.state) }
        ensures no_outs { OnErr result (out.new.items ≡ out.old.items) }
    {
        if !self.is_joined(node) {
            return Ok(());
        }
        self.reserve(MAX_REPLIES)?;
        out.reserve(EVENTS_HEARD)?;
        self.answer(node, way, replies, out);
        Ok(())
    }

    /// The replies of a device go on the air.
    fn answer(
        &mut self,
        node: NodeId,
        way: Option<Route>,
        replies: &Replies,
        out: &mut List<AirEvent>,
    )
        requires room { 8 ≤ self.old.room }
        requires out_room { 9 ≤ out.old.room }
        requires sound { ForSome way (λ r. IsSound r) }
        ensures state { self.new.state ≡ answered self.old.state node way replies.now }
        ensures outs { out.new.items ≡ out.old.items ++ answers self.old.state node way replies.now }
        ensures out_room { 1 ≤ out.new.room }
    {
        for at in 0..replies.len() {
            let Some(reply) = replies.get(at) else {
                unreachable!()
            };
            self.answer_one(node, way, reply, out);
        }
    }

    /// A reply of a device goes on the air.
    fn answer_one(
        &mut self,
        node: NodeId,
        way: Option<Route>,
        reply: &[u8],
        out: &mut List<AirEvent>,
    )
        requires room { 0 < self.old.room }
        requires out_room { 0 < out.old.room }
        requires sound { ForSome way (λ r. IsSound r) }
        requires fits { length reply.now ≤ 46 }
        ensures state { self.new.state ≡ departing self.old.state node Homeward way reply.now }
        ensures outs { out.new.items ≡ out.old.items ++ sent_event self.old.state node way reply.now ∷ [] }
        ensures room { self.new.room + 1 ≡ self.old.room }
        ensures out_room { out.new.room + 1 ≡ out.old.room }
    {
        let frame = self.depart(node, Heading::Homeward, way, Payload::fitting(reply));
        out.put(AirEvent::Sent {
            frame,
            from: node,
            to: controller(),
            route: way.unwrap_or(NO_ROUTE),
            payload: Payload::fitting(reply),
        });
    }
}

/// Enters the changes of a device, from a place of its journal on.
fn enter_changes(node: NodeId, first: u64, changes: u64, out: &mut List<AirEvent>)
    requires places { first + changes < 2 ^ 64 }
    requires room { changes ≤ out.old.room }
    ensures outs { out.new.items ≡ out.old.items ++ changed node first changes }
    ensures room { out.new.room + changes ≡ out.old.room }
{
    for change in 0..changes {
        out.put(AirEvent::Changed {
            node,
            at: first + change,
        });
    }
}

/// Enters that a frame was heard by node 1.
pub(crate) fn enter_at_chip(arrival: Arrival, out: &mut List<AirEvent>) -> Result<(), NoMemory>
    ensures outs { OnOk result (out.new.items ≡ out.old.items ++
        AirEvent.Heard arrival.number ∷ AirEvent.ToChip arrival.number arrival.node arrival.payload ∷ []) }
    ensures no_outs { OnErr result (out.new.items ≡ out.old.items) }
{
    out.reserve(2)?;
    out.put(AirEvent::Heard(arrival.number));
    out.put(AirEvent::ToChip {
        frame: arrival.number,
        from: arrival.node,
        payload: arrival.payload,
    });
    Ok(())
}
