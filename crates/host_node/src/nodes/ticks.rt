//! Ticks and restarts.

ghost use Rattle.std.specs.Prelude.{◌≡◌};
ghost use Rattle.host_node.specs.Steps.{tick_end};
ghost use Rattle.host_node.specs.Events.NodeEvent.{Ticks, Restarts};
ghost use Rattle.host_node.specs.TableState.{node_of, nodes_after};

use crate::AttemptEnd;
use crate::nodes::Nodes;
use zw_base::NodeId;

impl Nodes {
    /// Counts one tick of 100 ms for a node. Answers whether an attempt ended.
    pub fn tick(&mut self, node: NodeId) -> AttemptEnd
        ensures answer { result ≡ tick_end (node_of self.old node) }
        ensures state { self.new ≡ nodes_after self.old node Ticks }
    {
        let one = &mut self.nodes[node.number() as usize];
        let end = one.tick();
        self.agenda.follow(one);
        end
    }

    /// The host starts from its records: what they do not say of the node is forgotten.
    pub fn restart(&mut self, node: NodeId)
        ensures { self.new ≡ nodes_after self.old node Restarts }
    {
        let one = &mut self.nodes[node.number() as usize];
        one.restart();
        self.agenda.follow(one);
    }
}
