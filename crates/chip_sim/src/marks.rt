//! Nodes that are marked.

ghost use Rattle.std.specs.Prelude.{◌≡◌, ◌||◌, false, nat_eq, slice_set};
ghost use Rattle.chip_sim.specs.Nodes.{none_marked, is_marked, nodes_where};

use chip_functions::NodeMask;
use std::marker::Model;
use zw_base::{MAX_NODE, NodeId, node_after};

/// The places of all nodes, with place 0 of none.
const PLACES: usize = 233;

/// Which nodes are marked. Contracts see a list: the place of a node is its number.
#[derive(Debug, Drop)]
pub struct Marks {
    marks: [bool; PLACES],
}

impl Model for Marks {
    ghost use Rattle.std.specs.Prelude.{Bool, List};

    ghost Value = { List Bool };

    ghost view = { λ m. m.marks };
}

impl Marks {
    /// No node is marked.
    #[tactic(auto, unfolding(crate::specs::Nodes::none_marked))]
    pub fn new() -> Marks
        ensures { result ≡ none_marked }
    {
        Marks {
            marks: [false; PLACES],
        }
    }

    pub fn get(&self, node: NodeId) -> bool
        ensures { result ≡ is_marked self.now node }
    {
        self.marks[node.number() as usize]
    }

    pub fn set(&mut self, node: NodeId, mark: bool)
        ensures { self.new ≡ slice_set self.old node mark }
    {
        self.marks[node.number() as usize] = mark;
    }

    /// The marked nodes, and node 1.
    #[tactic(auto, using(crate::proofs::Masks::next_in, crate::proofs::Masks::next_out, crate::proofs::Masks::all_nodes))]
    pub fn mask_with_home(&self) -> NodeMask
        ensures { result ≡ nodes_where (λ n. nat_eq n 1 || is_marked self.now n) }
    {
        let mut mask = NodeMask::new();
        for place in 0..MAX_NODE {
            let node = node_after(place);
            if place == 0 || self.get(node) {
                mask.insert(node);
            }
        }
        mask
    }
}
