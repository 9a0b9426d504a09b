//! Which nodes the host has to look at.

ghost use Rattle.std.specs.Prelude.{◌≡◌};
ghost use Rattle.host_node.specs.Facts.{NodeFacts};
ghost use Rattle.host_node.specs.Marks.{no_marks};
ghost use Rattle.host_node.specs.TableInside.{followed};

use crate::Node;
use crate::node_set::NodeSet;

/// The nodes that have work, those that a tick changes, and those that are to be told that there is no more.
#[derive(Drop)]
pub struct Agenda {
    pub work: NodeSet,
    pub ticking: NodeSet,
    pub wanting: NodeSet,
}

impl Agenda {
    /// No node is to be looked at.
    pub fn new() -> Agenda
        ensures { result ≡ record { work = no_marks; ticking = no_marks; wanting = no_marks } }
    {
        Agenda {
            work: NodeSet::new(),
            ticking: NodeSet::new(),
            wanting: NodeSet::new(),
        }
    }

    /// A node has changed, and the sets follow.
    pub fn follow(&mut self, node: &Node)
        ensures state { self.new ≡ followed self.old node.now }
        ensures facts { NodeFacts node.now }
    {
        let number = node.node();
        self.work.set(number, node.has_work());
        self.ticking.set(number, node.needs_tick());
        self.wanting.set(number, node.wants_no_more());
    }
}
