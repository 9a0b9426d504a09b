//! The table of links and repeaters.

ghost use Rattle.std.specs.Prelude.{◌≡◌, ◌≢◌, ℕ, ◌<◌, false, nat_eq, length, IsTrue, MatchOption, ◌≤◌, ◌↔◌, cond};
ghost use Rattle.std.specs.FinSet as set;
ghost use Rattle.route_table.specs.NodeSet.{has};
ghost use Rattle.route_table.specs.Network.{link_of, linked, no_network};
ghost use Rattle.route_table.specs.RouteTable.{hears, are_ends};
ghost use Rattle.route_table.specs.Levels.{Between, OnlyNodes, IsBefore, IsFirstHeard};

use crate::node_set::NodeSet;
use std::array;
use std::marker::Model;
use zw_base::NodeId;

/// Node 1, the controller, from which every route starts.
pub(crate) const HOME: u8 = 1;

/// The greatest node id.
const MAX_NODE: u8 = 232;

/// Which nodes hear each other, and which may repeat a frame. Contracts see a `Network`.
#[derive(Debug, Drop)]
pub struct RouteTable {
    rows: [NodeSet; 233],
    repeaters: NodeSet,
}

impl Model for RouteTable {
    ghost use Rattle.route_table.specs.Network.{Network, network_code};

    ghost Value = { Network };

    ghost coded = { network_code };

    ghost use Rattle.route_table.specs.RouteTable.{network_of, IsTable};

    ghost view = { network_of };

    ghost invariant = { IsTable };
}

impl RouteTable {
    /// No links and no repeaters.
    pub fn new() -> RouteTable
        ensures { result ≡ no_network }
    {
        RouteTable {
            rows: array::repeat(NodeSet::new()),
            repeaters: NodeSet::new(),
        }
    }

    /// Sets whether two nodes hear each other, both ways. A node has no link to itself: that changes nothing.
    pub fn set_link(&mut self, a: NodeId, b: NodeId, live: bool)
        ensures itself { a ≡ b → self.new ≡ self.old }
        ensures joined { a ≢ b → IsTrue live → self.new ≡ record self.old { links = set.insert self.old.links (link_of a b) } }
        ensures parted { live ≡ false → self.new ≡ record self.old { links = set.remove self.old.links (link_of a b) } }
    {
        if a != b {
            mark_both(&mut self.rows, a.number(), b.number(), live);
        }
    }

    /// Whether two nodes hear each other.
    pub fn linked(&self, a: NodeId, b: NodeId) -> bool
        ensures value { result ≡ linked self.now a b }
        ensures itself { a ≡ b → result ≡ false }
    {
        self.rows[a.number() as usize].contains(b.number())
    }

    /// Sets whether a node may repeat frames of others.
    pub fn set_repeater(&mut self, n: NodeId, may: bool)
        ensures marked { IsTrue may → self.new ≡ record self.old { repeaters = set.insert self.old.repeaters n } }
        ensures unmarked { may ≡ false → self.new ≡ record self.old { repeaters = set.remove self.old.repeaters n } }
    {
        mark(&mut self.repeaters, n.number(), may);
    }

    /// Takes the link of two nodes out of the table, both ways.
    pub fn forget_hop(&mut self, a: NodeId, b: NodeId)
        ensures { self.new ≡ record self.old { links = set.remove self.old.links (link_of a b) } }
    {
        self.set_link(a, b, false);
    }

    /// The nodes that may repeat on a way from node 1 to this node.
    pub(crate) fn between(&self, to: NodeId) -> NodeSet
        ensures each { (n : ℕ) → IsTrue (has result n) ↔ Between self.now to n }
        ensures nodes { OnlyNodes result }
    {
        let mut between = self.repeaters;
        between.remove(HOME);
        between.remove(to.number());
        between
    }

    /// Those of the free nodes that hear a node of the level.
    pub(crate) fn level_after(&self, level: &NodeSet, free: &NodeSet) -> NodeSet
        requires level { OnlyNodes level.now }
        requires free { OnlyNodes free.now }
        ensures { (n : ℕ) → IsTrue (has result n) ↔ IsBefore self.now level.now free.now n }
    {
        let mut next = NodeSet::new();
        for n in 0..=MAX_NODE {
            if level.contains(n) {
                next.join(&self.rows[n as usize]);
            }
        }
        next.meet(free);
        next
    }

    /// The lowest node of the set that this node hears.
    pub(crate) fn first_heard(&self, by: u8, set: &NodeSet) -> Option<u8>
        requires by { (1 ≤ by) × (by ≤ 232) }
        requires set { OnlyNodes set.now }
        ensures { MatchOption result ((q : ℕ) → IsTrue (has set.now q) → linked self.now by q ≡ false) (λ n. IsFirstHeard self.now set.now by n) }
    {
        let mut heard = self.rows[by as usize];
        heard.meet(set);
        heard.first()
    }
}

/// Puts a node into a row, or takes it out.
fn mark(row: &mut NodeSet, n: u8, live: bool)
    ensures { (q : ℕ) → has row.new q ≡ cond (nat_eq q n) live (has row.old q) }
{
    if live {
        row.insert(n);
    } else {
        row.remove(n);
    }
}

/// Sets the link of two nodes in the rows of both.
fn mark_both(rows: &mut [NodeSet], a: u8, b: u8, live: bool)
    requires a { a < length rows.old }
    requires b { b < length rows.old }
    ensures { (x y : ℕ) → hears rows.new x y ≡ cond (are_ends a b x y) live (hears rows.old x y) }
{
    mark(&mut rows[a as usize], b, live);
    mark(&mut rows[b as usize], a, live);
}
