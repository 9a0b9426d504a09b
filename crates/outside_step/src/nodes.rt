//! Nodes that join, and the links that the chip learns of them.

ghost use Rattle.std.specs.Prelude.{◌≡◌, ◌-◌, ◌&&◌};
ghost use Rattle.route_table.specs.Network.{linked};
ghost use Rattle.chip_sim.specs.Did.{after_all};
ghost use Rattle.mesh_sim.specs.Air.{is_joined};
ghost use Rattle.outside_model.specs.State.{with_chip};
ghost use Rattle.outside_model.specs.Nodes.{is_known, links_of, pairs_of, joins, discovers};

use crate::OutsideCore;
use zw_base::{MAX_NODE, NodeId, node_after};

impl OutsideCore {
    /// Whether a node is joined.
    pub fn is_joined(&self, node: NodeId) -> bool
        ensures { result ≡ is_joined self.now.air node }
    {
        self.air.is_joined(node)
    }

    /// Whether a node is node 1, or joined.
    fn is_known(&self, node: NodeId) -> bool
        ensures { result ≡ is_known self.now.air node }
    {
        node.number() == 1 || self.air.is_joined(node)
    }

    /// Whether a known node hears a node.
    fn hears(&self, node: NodeId, other: NodeId) -> bool
        ensures { result ≡ is_known self.now.air other && linked self.now.air.network node other }
    {
        self.is_known(other) && self.air.linked(node, other)
    }

    /// A node joins in the air and to the chip, as one that listens or not.
    pub fn join(&mut self, node: NodeId, listening: bool)
        ensures { self.new ≡ joins self.old node listening }
    {
        self.chip.join(node, listening);
        self.air.join(node, listening);
        self.learn_links(node);
    }

    /// The chip learns the live links of a node.
    fn learn_links(&mut self, node: NodeId)
        ensures { self.new ≡ with_chip self.old (after_all self.old.chip.state (links_of self.old.air node)) }
    {
        for place in 0..MAX_NODE {
            let other = node_after(place);
            if self.hears(node, other) {
                self.chip.set_link(node, other, true);
            }
        }
    }

    /// The chip's table becomes the live links between known nodes.
    pub fn discover(&mut self)
        ensures { self.new ≡ discovers self.old }
    {
        for place in 0..MAX_NODE {
            let node = node_after(place);
            if self.is_known(node) {
                self.learn_pairs(node);
            }
        }
    }

    /// The chip learns which known nodes below a node hear it.
    fn learn_pairs(&mut self, node: NodeId)
        ensures { self.new ≡ with_chip self.old (after_all self.old.chip.state (pairs_of self.old.air node)) }
    {
        for place in 0..node.number() - 1 {
            let other = node_after(place);
            if self.is_known(other) {
                let live = self.air.linked(node, other);
                self.chip.set_link(node, other, live);
            }
        }
    }
}
