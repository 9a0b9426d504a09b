//! The final table of a host alone.

ghost use Rattle.std.specs.Prelude.{◌≡◌, ◌<◌, ◌+◌, ◌++◌, ℕ, List as Items, Option, OnOk};
ghost use Rattle.run_replay.specs.Machine.{lone_of};
ghost use Rattle.run_replay.specs.Replay.{table_entries, node_entries};
ghost use Rattle.run_replay.specs.Listing.{listed};

use crate::replay::Replay;
use zw_base::{List, MAX_NODE, NoMemory, NodeId, node_after};
use zw_text::Entry;

impl Replay {
    /// The clock; then of each joined node its sessions and its values.
    pub fn table(&self, out: &mut List<Entry>) -> Result<(), NoMemory>
        ensures { OnOk result ((records : Option (Items (Items ℕ))) → out.new.items ≡ out.old.items ++ table_entries (lone_of self.now records)) }
    {
        out.push(Entry::TableEnd { ticks: self.clock })?;
        for place in 0..MAX_NODE {
            self.table_of(node_after(place), out)?;
        }
        Ok(())
    }

    // The lines of a node, where it is joined.
    fn table_of(&self, node: NodeId, out: &mut List<Entry>) -> Result<(), NoMemory>
        ensures { OnOk result ((records : Option (Items (Items ℕ))) → out.new.items ≡ out.old.items ++ listed (lone_of self.now records) node) }
    {
        if !self.host.is_joined(node) {
            return Ok(());
        }
        self.list_node(node, out)
    }

    // The lines of a node.
    fn list_node(&self, node: NodeId, out: &mut List<Entry>) -> Result<(), NoMemory>
        ensures { OnOk result ((records : Option (Items (Items ℕ))) → out.new.items ≡ out.old.items ++ node_entries (lone_of self.now records) node) }
    {
        self.host.list_node(self.alloc, node, out)
    }
}
