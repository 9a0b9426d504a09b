//! A set of nodes, in which the next one is found without looking at all of them.

ghost use Rattle.std.specs.Prelude.{◌≡◌, slice_set};
ghost use Rattle.host_node.specs.Marks.{no_marks, is_marked};
ghost use Rattle.host_node.specs.Search.{least_above};

use std::marker::Model;
use zw_base::{NodeId, read_node};

/// How many words hold a bit for each number up to 255.
const WORDS: usize = 4;

const WORD_BITS: usize = 64;

/// Some of the nodes 1 to 232. Contracts see whether each number from 0 to 232 is in the set.
#[derive(Drop)]
pub struct NodeSet {
    words: [u64; 4],
}

impl Model for NodeSet {
    ghost use Rattle.std.specs.Prelude.{List, Bool};
    ghost use Rattle.host_node.specs.Marks.{marks_of, HasNodes};

    ghost Value = { List Bool };

    ghost view = { λ s. marks_of s.words };

    ghost invariant = { λ s. HasNodes s.words };
}

impl NodeSet {
    /// No nodes.
    pub fn new() -> NodeSet
        ensures { result ≡ no_marks }
    {
        NodeSet { words: [0; 4] }
    }

    /// Puts a node in, or takes it out.
    pub fn set(&mut self, node: NodeId, is_in: bool)
        ensures { self.new ≡ slice_set self.old node is_in }
    {
        let number = node.number() as usize;
        let bit = 1u64 << (number % WORD_BITS);
        if is_in {
            self.words[number / WORD_BITS] |= bit;
        } else {
            self.words[number / WORD_BITS] &= !bit;
        }
    }

    /// The least node above a number, where there is one.
    pub fn above(&self, number: u8) -> Option<NodeId>
        ensures { result ≡ least_above (is_marked self.now) number }
    {
        let mut from = number as usize + 1;
        while from < WORDS * WORD_BITS {
            let word = self.words[from / WORD_BITS];
            let rest = word >> (from % WORD_BITS);
            if rest != 0 {
                return Some(read_node(from as u8 + rest.trailing_zeros() as u8).unwrap());
            }
            from = (from / WORD_BITS + 1) * WORD_BITS;
        }
        None
    }
}
