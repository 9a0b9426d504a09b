//! What the final table tells of a node of the host.

ghost use Rattle.std.specs.Prelude.{◌≡◌, ◌++◌, map, OnOk, IfOk};
ghost use Rattle.value_store.specs.Values.{held_of};
ghost use Rattle.host_model.specs.State.{node_of};
ghost use Rattle.host_model.specs.Listing.{host_lines, value_entry};

use crate::Host;
use std::alloc::Global;
use value_store::Held;
use zw_base::{List, NoMemory, NodeId, Sequence};
use zw_text::Entry;

impl Host {
    /// The lines of a node: the commands of its sessions in order, then its values.
    pub fn list_node(
        &self,
        alloc: Global,
        node: NodeId,
        out: &mut List<Entry>,
    ) -> Result<(), NoMemory>
        ensures { OnOk result (out.new.items ≡
            out.old.items ++ host_lines self.now.state node) }
    {
        let sessions = self.sessions_of(alloc, node)?;
        out.push(Entry::TableNode { node, sessions })?;
        self.list_values(alloc, node, out)
    }

    // The values of a node.
    fn list_values(
        &self,
        alloc: Global,
        node: NodeId,
        out: &mut List<Entry>,
    ) -> Result<(), NoMemory>
        ensures { OnOk result (out.new.items ≡ out.old.items ++
            map (value_entry node) (held_of self.now.state.store node)) }
    {
        let held = self.values(alloc, node)?;
        list_all(node, &held, out)
    }

    // The commands of a node's sessions, in order.
    fn sessions_of(&self, alloc: Global, node: NodeId) -> Result<Sequence<u32>, NoMemory>
        ensures { IfOk result (λ sessions.
            sessions ≡ (node_of self.now.state node).book.commands) }
    {
        let mut sessions = Sequence::new(alloc);
        for session in 0..self.sessions(node) {
            let Some(command) = self.command_of(node, session + 1) else {
                unreachable!()
            };
            sessions.push(command)?;
        }
        Ok(sessions)
    }
}

/// Values of a node.
fn list_all(node: NodeId, held: &List<Held>, out: &mut List<Entry>) -> Result<(), NoMemory>
    ensures { OnOk result (out.new.items ≡ out.old.items ++
        map (value_entry node) held.now.items) }
{
    for one in held.as_slice() {
        out.push(Entry::TableValue {
            node,
            property: one.property,
            confirmed: one.stored.confirmed,
            heard: one.stored.heard,
        })?;
    }
    Ok(())
}
