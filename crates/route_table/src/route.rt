//! Routes from node 1: the search by levels, and the greedy choice of the lowest numbers.

ghost use Rattle.std.specs.Prelude.{◌≡◌, ℕ, ◌≤◌, ◌<◌, drop, List, ◌≢◌, All, IfSome, IfNone, IsNone};
ghost use Rattle.route_table.specs.Walk.{Walk, ComesFirst};
ghost use Rattle.route_table.specs.Route.{via};
ghost use Rattle.route_table.specs.Levels.{Reaches, IsDepth};

use crate::node_set::NodeSet;
use crate::table::{HOME, RouteTable};
use std::array;
use zw_base::NodeId;

/// The most repeaters on a route (Serial API: four).
pub const MAX_REPEATERS: usize = 4;

/// The target, and the repeaters that are one to four hops before it.
const LEVELS: usize = 5;

/// The repeaters of a route from node 1, in order. The count is at most 4, and what lies past it is 0.
#[derive(Clone, Copy, Debug, PartialEq, Eq)]
pub struct Route {
    pub count: u8,
    pub hops: [u8; 4],
}

impl Route {
    /// The repeaters in order, the one next to node 1 first.
    pub fn repeaters(&self) -> &[u8]
        requires { self.now.count ≤ 4 }
        ensures { result.now ≡ via self.now }
    {
        &self.hops[..self.count as usize]
    }
}

impl RouteTable {
    /// The route from node 1 to a node. There is none to node 1.
    pub fn route(&self, to: NodeId) -> Option<Route>
        ensures home { to ≡ 1 → IsNone result }
        ensures none { to ≢ 1 → IfNone result ((walk : List ℕ) → ¬ Walk self.now to walk) }
        ensures walk { IfSome result (λ r. Walk self.now to (via r)) }
        ensures least { IfSome result (λ r. (walk : List ℕ) → Walk self.now to walk → ComesFirst (via r) walk) }
        ensures count { IfSome result (λ r. r.count ≤ 4) }
        ensures nodes { IfSome result (λ r. All (λ n. (1 ≤ n) × (n ≤ 232)) (via r)) }
        ensures padded { IfSome result (λ r. All (λ n. n ≡ 0) (drop r.count r.hops)) }
    {
        if to.number() == HOME {
            return None;
        }
        let mut levels = array::repeat(NodeSet::new());
        let Some(depth) = self.find_depth(to, &mut levels) else {
            return None;
        };
        let mut hops = [0; 4];
        let mut at = HOME;
        for place in 0..depth {
            at = self.first_heard(at, &levels[depth - place]).unwrap();
            hops[place] = at;
        }
        Some(Route {
            count: depth as u8,
            hops,
        })
    }

    /// The fewest repeaters that lead to the node, with the levels up to the one that node 1 hears.
    fn find_depth(&self, to: NodeId, levels: &mut [NodeSet; 5]) -> Option<usize>
        requires { to ≢ 1 }
        ensures none { IfNone result ((k : ℕ) → k < 5 → ¬ Reaches self.now to k 1) }
        ensures found { IfSome result (λ d. IsDepth self.now to levels.new d) }
    {
        let free = self.between(to);
        let mut level = NodeSet::new();
        level.insert(to.number());
        for depth in 0..LEVELS {
            levels[depth] = level;
            if self.first_heard(HOME, &level).is_some() {
                return Some(depth);
            }
            level = self.level_after(&level, &free);
        }
        None
    }
}
