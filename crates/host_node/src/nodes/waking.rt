//! Waking and sleeping.

ghost use Rattle.std.specs.Prelude.{◌≡◌, IsTrue};
ghost use Rattle.host_node.specs.State.{wants_no_more};
ghost use Rattle.host_node.specs.Steps.{falls_asleep};
ghost use Rattle.host_node.specs.Events.NodeEvent.{Holds, Notifies, Queues_no_more, Drops_no_more, Ends_no_more};
ghost use Rattle.host_node.specs.TableState.{node_of, nodes_after};

use crate::nodes::Nodes;
use zw_base::NodeId;

impl Nodes {
    /// A node's Wake Up Notification came.
    pub fn notified(&mut self, node: NodeId)
        ensures { self.new ≡ nodes_after self.old node Notifies }
    {
        let one = &mut self.nodes[node.number() as usize];
        one.notified();
        self.agenda.follow(one);
    }

    /// Holds a node awake for the next hundred ticks.
    pub fn hold(&mut self, node: NodeId)
        ensures { self.new ≡ nodes_after self.old node Holds }
    {
        let one = &mut self.nodes[node.number() as usize];
        one.hold();
        self.agenda.follow(one);
    }

    /// No More Information for a node was queued.
    pub fn queue_no_more(&mut self, node: NodeId)
        requires { IsTrue (wants_no_more (node_of self.old node)) }
        ensures { self.new ≡ nodes_after self.old node Queues_no_more }
    {
        let one = &mut self.nodes[node.number() as usize];
        one.queue_no_more();
        self.agenda.follow(one);
    }

    /// No More Information for a node found the queue full.
    pub fn drop_no_more(&mut self, node: NodeId)
        requires { IsTrue (wants_no_more (node_of self.old node)) }
        ensures { self.new ≡ nodes_after self.old node Drops_no_more }
    {
        let one = &mut self.nodes[node.number() as usize];
        one.drop_no_more();
        self.agenda.follow(one);
    }

    /// The request with No More Information for a node ended. Answers whether it was awake till then.
    pub fn end_no_more(&mut self, node: NodeId) -> bool
        ensures answer { result ≡ falls_asleep (node_of self.old node) }
        ensures state { self.new ≡ nodes_after self.old node Ends_no_more }
    {
        let one = &mut self.nodes[node.number() as usize];
        let was_awake = one.end_no_more();
        self.agenda.follow(one);
        was_awake
    }
}
