//! Frames that went on the air.

ghost use Rattle.std.specs.Prelude.{◌≡◌, ◌≤◌, length};
ghost use Rattle.air_frames.specs.Flown.{IsSound, flown};

use crate::Peer;
use route_table::Route;
use std::marker::Model;
use zw_base::{NodeId, Payload};

/// Which way a frame goes. Each goes between node 1, the controller, and another node.
#[derive(Clone, Copy, Debug, PartialEq, Eq)]
pub enum Heading {
    /// From node 1 to the other node.
    Outward,
    /// From the other node to node 1.
    Homeward,
}

/// A frame that is to go on the air.
#[derive(Debug, Drop)]
pub struct Departure {
    /// The end that is not node 1.
    pub node: NodeId,
    pub heading: Heading,
    /// Its repeaters, the one next to its sender first.
    pub route: Route,
    /// Whether it arrives nowhere.
    pub lost: bool,
    pub payload: Payload,
}

/// A frame that went on the air, and the counts of its node as they stood then.
#[derive(Debug, Drop)]
pub struct Frame {
    node: NodeId,
    heading: Heading,
    route: Route,
    lost: bool,
    payload: Payload,
    begun: u64,
    shown: u64,
}

impl Model for Frame {
    ghost use Rattle.air_frames.specs.Flown.{Flown, IsSound};

    ghost Value = { Flown };

    ghost view = { λ f. record {
      node = f.node;
      heading = f.heading;
      route = f.route;
      lost = f.lost;
      payload = f.payload;
      begun = f.begun;
      shown = f.shown;
    } };

    ghost invariant = { λ f. IsSound f.route };
}

impl Frame {
    /// The frame as it goes on the air, its own nonce counted.
    pub(crate) fn new(departure: Departure, peer: &Peer) -> Frame
        requires { IsSound departure.route }
        ensures { result ≡ flown departure peer.now }
    {
        Frame {
            node: departure.node,
            heading: departure.heading,
            route: departure.route,
            lost: departure.lost,
            payload: departure.payload,
            begun: peer.begun(),
            shown: peer.shown(),
        }
    }

    /// The end that is not node 1.
    pub fn node(&self) -> NodeId
        ensures { result ≡ self.now.node }
    {
        self.node
    }

    pub fn heading(&self) -> Heading
        ensures { result ≡ self.now.heading }
    {
        self.heading
    }

    /// Its repeaters, the one next to its sender first.
    pub fn route(&self) -> Route
        ensures value { result ≡ self.now.route }
        ensures sound { IsSound result }
    {
        self.route
    }

    /// Whether it arrives nowhere, by a mark or because it has no route.
    pub fn is_lost(&self) -> bool
        ensures { result ≡ self.now.lost }
    {
        self.lost
    }

    pub fn payload(&self) -> &[u8]
        ensures value { result.now ≡ self.now.payload }
        ensures to_max { length result.now ≤ 46 }
    {
        self.payload.bytes()
    }

    /// How many sessions of its node had begun when it went on the air.
    pub fn begun(&self) -> u64
        ensures { result ≡ self.now.begun }
    {
        self.begun
    }

    /// How many new nonces had been shown between its ends when it was on the air.
    pub fn shown(&self) -> u64
        ensures { result ≡ self.now.shown }
    {
        self.shown
    }
}
