//! The air, but for what is heard: links, joined nodes, marks, and frames that go on it.

ghost use Rattle.std.specs.Prelude.{
  ◌≡◌,
  ◌≢◌,
  ◌↔◌,
  ◌+◌,
  ◌-◌,
  ◌<◌,
  ◌≤◌,
  ◌^◌,
  ◌⊎◌,
  true,
  false,
  length,
  option_map,
  IfOk,
  IfSome,
  OnOk,
  OnErr,
  Option,
  Some,
  None,
  Ok,
};
ghost use Rattle.std.specs.Option.{option_copied, ForSome};
ghost use Rattle.route_table.specs.declared.route.Route.{Route as TheRoute};
ghost use Rattle.route_table.specs.Network.{linked};
ghost use Rattle.air_frames.specs.Flown.{IsSound};
ghost use Rattle.air_frames.specs.Frames.{peer_of, remembered};
ghost use Rattle.air_frames.specs.declared.frame.Heading.TheVariants.{Outward};
ghost use Rattle.mesh_sim.specs.Air.{first_air, linking, joining, beginning, is_joined, departing, going_home, payload_of, IsOnAir};
ghost use Rattle.mesh_sim.specs.Routes.{IsRoute};

use air_frames::{Departure, Frames, Heading};
use route_table::{Route, RouteTable};
use std::alloc::Global;
use std::marker::Model;
use zw_base::{NoMemory, NodeId, Payload};

/// One place for each node number from 0 to 232; that of 0 is never used.
const NODES: usize = 233;

/// The route of a frame that has none.
pub(crate) const NO_ROUTE: Route = Route {
    count: 0,
    hops: [0; 4],
};

/// The air between node 1 and the devices. Contracts see its state, and its room: how many more frames can surely be
/// put on it.
#[derive(Drop)]
pub struct Air {
    pub(crate) alloc: Global,
    pub(crate) table: RouteTable,
    pub(crate) joined: [bool; 233],
    pub(crate) frames: Frames,
    pub(crate) losing: u64,
    pub(crate) ack_losing: u64,
}

impl Model for Air {
    ghost use Rattle.std.specs.Prelude.{◌≡◌, length};
    ghost use Rattle.mesh_sim.specs.Air.{Airing};
    ghost use Rattle.std.specs.Coded.{codes};
    ghost use Rattle.route_table.specs.Network.{network_code};

    ghost Value = { Airing };

    ghost coded = { Prim.hlevel (codes, network_code) };

    ghost view = { λ a. record {
      state = record { network = a.table; joined = a.joined; frames = a.frames.state; losing = a.losing; ack_losing = a.ack_losing };
      room = a.frames.room;
    } };
}

impl Air {
    /// Nothing is linked or joined, and nothing was sent. It takes the memory for all frames that it remembers.
    pub fn new(alloc: Global) -> Result<Air, NoMemory>
        ensures { IfOk result (λ air. air.state ≡ first_air) }
    {
        Ok(Air {
            alloc,
            table: RouteTable::new(),
            joined: [false; NODES],
            frames: Frames::new(alloc)?,
            losing: 0,
            ack_losing: 0,
        })
    }

    /// Sets whether two nodes hear each other, both ways. A node has no link to itself: that changes nothing.
    pub fn set_link(&mut self, a: NodeId, b: NodeId, live: bool)
        ensures state { self.new.state ≡ linking self.old.state a b live }
        ensures room { self.new.room ≡ self.old.room }
    {
        self.table.set_link(a, b, live);
    }

    /// How many sessions of a node have begun.
    pub fn begun(&self, node: NodeId) -> u64
        ensures { result ≡ (peer_of self.now.state.frames node).begun }
    {
        self.frames.begun(node)
    }

    /// From now on so many sessions of a node have begun, no fewer than before.
    pub fn set_begun(&mut self, node: NodeId, sessions: u64)
        requires { (peer_of self.old.state.frames node).begun ≤ sessions }
        ensures state { self.new.state ≡ beginning self.old.state node sessions }
        ensures room { self.new.room ≡ self.old.room }
    {
        self.frames.set_begun(node, sessions);
    }

    /// A node is joined from now on. One that listens is a repeater.
    pub fn join(&mut self, node: NodeId, listening: bool)
        ensures state { self.new.state ≡ joining self.old.state node listening }
        ensures room { self.new.room ≡ self.old.room }
    {
        self.joined[node.number() as usize] = true;
        self.table.set_repeater(node, listening);
    }

    /// Whether two nodes hear each other.
    pub fn linked(&self, a: NodeId, b: NodeId) -> bool
        ensures value { result ≡ linked self.now.state.network a b }
        ensures itself { a ≡ b → result ≡ false }
    {
        self.table.linked(a, b)
    }

    /// The route from node 1 to a node in the links of the air. There is none to node 1.
    pub fn route(&self, to: NodeId) -> Option<Route>
        ensures { IsRoute self.now.state.network to result }
    {
        self.table.route(to)
    }

    /// Marks so many of the next frames, from either side, as lost.
    pub fn lose(&mut self, count: u32)
        requires { self.old.state.losing + count < 2 ^ 64 }
        ensures state { self.new.state ≡ record self.old.state { losing = self.old.state.losing + count } }
        ensures room { self.new.room ≡ self.old.room }
    {
        self.losing += count as u64;
    }

    /// Marks the radio acknowledgements of so many of the next frames of node 1 that are heard as lost.
    pub fn lose_ack(&mut self, count: u32)
        requires { self.old.state.ack_losing + count < 2 ^ 64 }
        ensures state { self.new.state ≡ record self.old.state { ack_losing = self.old.state.ack_losing + count } }
        ensures room { self.new.room ≡ self.old.room }
    {
        self.ack_losing += count as u64;
    }

    /// How many of the next frames are marked as lost.
    pub fn losing(&self) -> u64
        ensures { result ≡ self.now.state.losing }
    {
        self.losing
    }

    /// How many of the next acknowledgements are marked as lost.
    pub fn ack_losing(&self) -> u64
        ensures { result ≡ self.now.state.ack_losing }
    {
        self.ack_losing
    }

    /// Makes room for so many more frames. It fails only where their numbers do not fit, or where a frame that is still
    /// on the air would give way.
    pub fn reserve(&mut self, frames: u8) -> Result<(), NoMemory>
        ensures state { self.new.state ≡ self.old.state }
        ensures ok { OnOk result (frames ≤ self.new.room) }
        ensures err { OnErr result ((2 ^ 64 ≤ self.old.state.frames.sent + frames)
            ⊎ (4097 < self.old.state.frames.sent - self.old.state.frames.landed + frames)) }
    {
        self.frames.reserve(frames)
    }

    /// A frame goes on the air, for which there is room. Without a route, or with a mark, it is lost.
    pub(crate) fn depart(
        &mut self,
        node: NodeId,
        heading: Heading,
        route: Option<Route>,
        payload: Payload,
    ) -> u64
        requires room { 0 < self.old.room }
        requires sound { ForSome route (λ r. IsSound r) }
        ensures number { result ≡ self.old.state.frames.sent + 1 }
        ensures state { self.new.state ≡ departing self.old.state node heading route payload }
        ensures room { self.new.room + 1 ≡ self.old.room }
    {
        let lost = self.losing > 0 || route.is_none();
        self.losing = self.losing.saturating_sub(1);
        self.frames.put(Departure {
            node,
            heading,
            route: route.unwrap_or(NO_ROUTE),
            lost,
            payload,
        })
    }

    /// Puts a frame of node 1 on the air, and answers its number.
    pub fn send(
        &mut self,
        from: NodeId,
        to: NodeId,
        route: Route,
        payload: &[u8],
    ) -> Result<u64, NoMemory>
        requires from { from ≡ 1 }
        requires to { to ≢ 1 }
        requires sound { IsSound route }
        requires payload { (1 ≤ length payload.now) × (length payload.now ≤ 46) }
        ensures number { IfOk result (λ number. number ≡ self.old.state.frames.sent + 1) }
        ensures ok { OnOk result (self.new.state ≡ departing self.old.state to Outward (Some route) payload.now) }
        ensures err { OnErr result (self.new.state ≡ self.old.state) }
        ensures want { OnErr result ((2 ^ 64 ≤ self.old.state.frames.sent + 1)
            ⊎ IsOnAir self.old.state (self.old.state.frames.sent + 1 - 4097)) }
    {
        self.reserve(1)?;
        Ok(self.depart(to, Heading::Outward, Some(route), Payload::fitting(payload)))
    }

    /// Whether a node is joined.
    pub fn is_joined(&self, node: NodeId) -> bool
        ensures { result ≡ is_joined self.now.state node }
    {
        self.joined[node.number() as usize]
    }

    /// The route to a node walked backwards: the repeater next to the node is first.
    pub fn way_home(&self, node: NodeId) -> Option<Route>
        ensures way { ((route : Option TheRoute) × IsRoute self.now.state.network node route × (result ≡ option_map backwards route)) }
        ensures sound { ForSome result (λ r. IsSound r) }
    {
        match self.table.route(node) {
            Some(route) => Some(reversed(&route)),
            None => None,
        }
    }

    /// Puts a frame of a joined device to node 1 on the air, and answers its number. It goes over the route of the air
    /// to the device, walked backwards, and is lost where there is none.
    pub fn send_from(&mut self, from: NodeId, payload: &[u8]) -> Result<Option<u64>, NoMemory>
        requires { (1 ≤ length payload.now) × (length payload.now ≤ 46) }
        ensures none { (result ≡ Ok None) ↔ (is_joined self.old.state from ≡ false) }
        ensures unjoined { is_joined self.old.state from ≡ false → self.new.state ≡ self.old.state }
        ensures number { IfOk result (λ answer. IfSome answer (λ number. number ≡ self.old.state.frames.sent + 1)) }
        ensures ok { OnOk result ((route : Option TheRoute) → IsRoute self.old.state.network from route → is_joined self.old.state from ≡ true
            → self.new.state ≡ going_home self.old.state from route payload.now) }
        ensures err { OnErr result (self.new.state ≡ self.old.state) }
        ensures want { OnErr result ((2 ^ 64 ≤ self.old.state.frames.sent + 1)
            ⊎ IsOnAir self.old.state (self.old.state.frames.sent + 1 - 4097)) }
    {
        if !self.is_joined(from) {
            return Ok(None);
        }
        self.reserve(1)?;
        let way = self.way_home(from);
        Ok(Some(self.depart(from, Heading::Homeward, way, Payload::fitting(payload))))
    }

    /// The payload of the frame of that number, unless it was never sent or is forgotten.
    pub fn payload(&self, frame: u64) -> Option<&[u8]>
        ensures { option_copied result ≡ payload_of (remembered self.now.state.frames frame) }
    {
        match self.frames.get(frame) {
            Some(frame) => Some(frame.payload()),
            None => None,
        }
    }
}

ghost use Rattle.mesh_sim.specs.Routes.{backwards};

/// A route walked from its other end.
fn reversed(route: &Route) -> Route
    requires { IsSound route.now }
    ensures value { result ≡ backwards route.now }
    ensures sound { IsSound result }
{
    let mut hops = route.hops;
    hops[..route.count as usize].reverse();
    Route {
        count: route.count,
        hops,
    }
}
