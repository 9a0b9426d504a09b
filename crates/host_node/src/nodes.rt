//! All nodes, by their number.

ghost use Rattle.std.specs.Prelude.{◌≡◌, List, IfOk};
ghost use Rattle.host_node.specs.Facts.{NodeFacts};
ghost use Rattle.host_node.specs.TableState.{node_of, unknown_nodes};
ghost use Rattle.host_node.specs.Search.{next_of, first_wanting as least_wanting, ticking_above as least_ticking};
ghost use Rattle.host_node.specs.TableFacts.{NodesFacts};

mod attempts;
mod commands;
mod ticks;
mod waking;

use crate::Node;
use crate::agenda::Agenda;
use std::alloc::Global;
use std::marker::Model;
use zw_base::{NoMemory, NodeId, read_node};

/// The numbers 0 to 232; no node has number 0.
const NUMBERS: u8 = 233;

/// What the host keeps of each node. Contracts see a list, where each node stands at the place of its number.
#[derive(Drop)]
pub struct Nodes {
    nodes: Vec<Node>,
    agenda: Agenda,
}

impl Model for Nodes {
    ghost use Rattle.std.specs.Prelude.{List};
    ghost use Rattle.host_node.specs.State.{NodeState};

    ghost Value = { List NodeState };

    ghost use Rattle.host_node.specs.TableInside.{IsNodes};

    ghost view = { λ n. n.nodes.items };

    ghost invariant = { λ n. IsNodes n.nodes.items n.agenda };
}

impl Nodes {
    /// Nothing is known of any node.
    pub fn new(alloc: Global) -> Result<Nodes, NoMemory>
        ensures { IfOk result (λ made. made ≡ unknown_nodes) }
    {
        let mut nodes = Vec::with_capacity(alloc, NUMBERS as usize)?;
        let first = read_node(1).unwrap();
        nodes.push(Node::new(alloc, first)?)?;
        for number in 1..NUMBERS {
            let node = read_node(number).unwrap();
            nodes.push(Node::new(alloc, node)?)?;
        }
        Ok(Nodes {
            nodes,
            agenda: Agenda::new(),
        })
    }

    /// What is kept of a node.
    pub fn of(&self, node: NodeId) -> &Node
        ensures value { result.now ≡ node_of self.now node }
        ensures number { (node_of self.now node).node ≡ node }
        ensures facts { NodeFacts (node_of self.now node) }
        ensures all { NodesFacts self.now }
    {
        &self.nodes[node.number() as usize]
    }

    /// The next node with work after the one that was served, in cyclic order.
    pub fn next_with_work(&self, served: u8) -> Option<NodeId>
        ensures { result ≡ next_of self.now served }
    {
        match self.agenda.work.above(served) {
            Some(next) => Some(next),
            None => self.agenda.work.above(0),
        }
    }

    /// The least node that is to be told that there is no more for it.
    pub fn first_wanting(&self) -> Option<NodeId>
        ensures { result ≡ least_wanting self.now }
    {
        self.agenda.wanting.above(0)
    }

    /// The least node above a number that its tick changes: a wait of it runs, or it is blocked.
    pub fn ticking_above(&self, number: u8) -> Option<NodeId>
        ensures { result ≡ least_ticking self.now number }
    {
        self.agenda.ticking.above(number)
    }
}
