//! Lists of nodes.

ghost use Rattle.std.specs.Prelude.{◌≡◌, ℕ, List, [], ◌∷◌, ◌++◌, length, OnOk, OnErr, Err};
ghost use Rattle.class_core.specs.declared.fault.ClassFault.TheVariants.{BadValue};
ghost use Rattle.class_core.specs.Ranges.{AreNodes};
ghost use Rattle.class_core.specs.Reading.{Gives, nodes_at};

use crate::fault::ClassFault;
use crate::fields::node_of;
use crate::forms::node_number;
use std::alloc::Global;
use std::marker::Model;
use zw_base::{NoMemory, NodeId};

/// Nodes in the order of their bytes. Contracts see the list of their numbers.
#[derive(Debug, Drop)]
pub struct NodeList {
    nodes: Vec<NodeId>,
}

impl Model for NodeList {
    ghost use Rattle.std.specs.Prelude.{ℕ, List};
    ghost use Rattle.class_core.specs.Ranges.{AreNodes};

    ghost Value = { List ℕ };

    ghost view = { λ l. l.nodes.items };

    ghost invariant = { λ l. AreNodes l.nodes.items };
}

impl NodeList {
    /// No nodes. It takes no memory.
    pub fn new(alloc: Global) -> NodeList
        ensures { result ≡ [] }
    {
        NodeList {
            nodes: Vec::new(alloc),
        }
    }

    pub fn len(&self) -> usize
        ensures { result ≡ length self.now }
    {
        self.nodes.len()
    }

    /// Adds a node at the end.
    pub fn push(&mut self, node: NodeId) -> Result<(), NoMemory>
        ensures ok { OnOk result (self.new ≡ self.old ++ node ∷ []) }
        ensures err { OnErr result (self.new ≡ self.old) }
    {
        let _number = node_number(node);
        self.nodes.push(node)?;
        Ok(())
    }

    pub fn as_slice(&self) -> &[NodeId]
        ensures items { result.now ≡ self.now }
        ensures nodes { AreNodes self.now }
    {
        self.nodes.as_slice()
    }
}

/// The nodes from an offset to the end.
#[tactic(auto, unfolding(crate::specs::Reading::nodes_at))]
pub fn nodes(alloc: Global, bytes: &[u8], at: u8) -> Result<NodeList, ClassFault>
    ensures { Gives result (nodes_at at bytes.now) }
{
    let mut list = NodeList::new(alloc);
    for i in usize::from(at)..bytes.len() {
        match node_of(bytes[i]) {
            Some(node) => list.push(node)?,
            None => return bad_value(i),
        }
    }
    Ok(list)
}

/// The fault of a value at an offset, where a fault can tell that offset.
fn bad_value(at: usize) -> Result<NodeList, ClassFault>
    ensures { Gives result (Err (BadValue at)) }
{
    match u16::try_from(at) {
        Ok(at) => Err(ClassFault::BadValue(at)),
        Err(_) => Err(ClassFault::NoMemory),
    }
}
