//! Node ids of a Z-Wave network (Z-Wave Network Layer: classic node ids are 1 to 232).

ghost use Rattle.std.specs.Prelude.{◌≡◌, ℕ, ◌+◌, ◌≤◌, ◌<◌};
ghost use Rattle.std.specs.Option.{SomeIff};

use std::marker::Model;

/// The greatest node id.
pub const MAX_NODE: u8 = 232;

/// The node of the controller.
const CONTROLLER: u8 = 1;

/// A node id, 1 to 232. Contracts see its number.
#[derive(Clone, Copy, Debug, PartialEq, Eq, PartialOrd, Ord)]
pub struct NodeId {
    number: u8,
}

impl Model for NodeId {
    ghost Value = { ℕ };

    ghost view = { λ n. n.number };

    ghost invariant = { λ n. (1 ≤ n.number) × (n.number ≤ 232) };

    ghost inverse = { λ n. record { number = n } };
}

/// The node with that number, where there is one.
pub fn read_node(n: u8) -> Option<NodeId>
    ensures { SomeIff result ((1 ≤ n) × (n ≤ 232)) n }
{
    if n >= 1 && n <= MAX_NODE {
        Some(NodeId { number: n })
    } else {
        None
    }
}

/// The node at a place in the order of nodes, counted from 0.
pub fn node_after(place: u8) -> NodeId
    requires { place < 232 }
    ensures { result ≡ place + 1 }
{
    NodeId { number: place + 1 }
}

/// Node 1, the controller.
pub fn controller() -> NodeId
    ensures { result ≡ 1 }
{
    NodeId { number: CONTROLLER }
}

impl NodeId {
    pub fn number(self) -> u8
        ensures value { result ≡ self }
        ensures from_one { 1 ≤ result }
        ensures to_max { result ≤ 232 }
    {
        self.number
    }
}
