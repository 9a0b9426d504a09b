//! Sets of nodes, as the chip tells them (Serial API: node mask).

use std::alloc::Global;
use std::marker::Model;
use zw_base::{List, NoMemory, NodeId, read_node};

/// The bytes of a mask: one bit for each node.
pub const MASK_BYTES: u8 = 29;

/// The bits of a mask.
const NODES: u8 = 232;

/// A set of nodes. Contracts see their numbers in order, each once.
#[derive(Drop)]
pub struct NodeMask {
    bits: [u8; MASK_BYTES as usize],
}

impl Model for NodeMask {
    ghost use Rattle.std.specs.Prelude.{ℕ, List};
    ghost use Rattle.chip_functions.specs.Mask.{nodes_of, IsBytes};

    ghost Value = { List ℕ };

    ghost view = { λ m. nodes_of m.bits };

    ghost invariant = { λ m. IsBytes m.bits };
}

impl NodeMask {
    ghost use Rattle.std.specs.Prelude.{◌≡◌, ◌↔◌, ◌+◌, ◌<◌, [], ◌∷◌, ◌++◌, length, IsTrue, IfOk, OnOk, Contains, if◌then◌else◌};
    ghost use Rattle.chip_functions.specs.Mask.{AreNodes, nodes_of, mask_of, is_among, with_node};

    /// No nodes.
    pub fn new() -> NodeMask
        ensures { result ≡ [] }
    {
        NodeMask::of_bytes(&[0; MASK_BYTES as usize])
    }

    /// Adds a node, where it is not there already.
    pub fn insert(&mut self, node: NodeId)
        ensures { self.new ≡ with_node node self.old }
    {
        let place = node.number() - 1;
        self.bits[(place / 8) as usize] |= 1 << (place % 8);
    }

    pub fn contains(&self, node: NodeId) -> bool
        ensures { IsTrue result ↔ Contains self.now node }
    {
        let place = node.number() - 1;
        (self.bits[(place / 8) as usize] >> (place % 8)) & 1 == 1
    }

    /// The nodes in the order of their numbers, each once.
    pub fn nodes(&self, alloc: Global) -> Result<List<NodeId>, NoMemory>
        ensures items { IfOk result (λ nodes. nodes.items ≡ self.now) }
        ensures order { AreNodes self.now }
    {
        let _ = &self.bits;
        let mut nodes = List::new(alloc);
        for place in 0..NODES {
            self.put_next(place, &mut nodes)?;
        }
        Ok(nodes)
    }

    // Adds the node of that bit, where it is there.
    fn put_next(&self, place: u8, nodes: &mut List<NodeId>) -> Result<(), NoMemory>
        requires { place < NODES }
        ensures { OnOk result (nodes.new.items ≡ nodes.old.items ++ (if is_among self.now (place + 1) then (place + 1) ∷ [] else [])) }
    {
        match read_node(place + 1) {
            Some(node) if self.contains(node) => nodes.push(node),
            _ => Ok(()),
        }
    }

    /// The nodes of these bytes.
    pub(crate) fn of_bytes(bytes: &[u8]) -> NodeMask
        requires { length bytes.now ≡ MASK_BYTES }
        ensures { result ≡ nodes_of bytes.now }
    {
        let mut bits = [0; MASK_BYTES as usize];
        bits.copy_from_slice(bytes);
        NodeMask { bits }
    }

    /// The bytes of the mask.
    pub(crate) fn as_bytes(&self) -> &[u8]
        ensures value { result.now ≡ mask_of self.now }
        ensures len { length result.now ≡ MASK_BYTES }
        ensures nodes { AreNodes self.now }
    {
        &self.bits
    }
}
