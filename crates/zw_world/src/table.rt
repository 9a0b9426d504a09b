//! The final table.

ghost use Rattle.std.specs.Prelude.{◌≡◌, ◌<◌, ◌+◌, ◌^◌, ◌++◌, ℕ, length, map, List as Items, Option, OnOk};
ghost use Rattle.world_model.specs.Table.{table_entries, node_entries};
ghost use Rattle.zw_world.specs.World.{machine_of};
ghost use Rattle.zw_world.specs.Listing.{listed};

use crate::World;
use device_sim::Device;
use zw_base::{List, MAX_NODE, NoMemory, NodeId, node_after};
use zw_text::Entry;

impl World {
    /// The final table: the clock; then for each joined node its sessions, its values and its device.
    pub fn table(
        &self,
        devices: &Vec<Box<dyn Device>>,
        out: &mut List<Entry>,
    ) -> Result<(), NoMemory>
        requires few { length devices.now.items < 2 ^ 64 }
        ensures { OnOk result ((records : Option (Items (Items ℕ))) →
            out.new.items ≡ out.old.items ++ table_entries (machine_of self.now (map (λ d. state d) devices.now.items) records)) }
    {
        out.push(Entry::TableEnd {
            ticks: self.sides.outer.clock(),
        })?;
        for place in 0..MAX_NODE {
            self.table_of(node_after(place), devices, out)?;
        }
        Ok(())
    }

    // The lines of a node, where it is joined.
    fn table_of(
        &self,
        node: NodeId,
        devices: &Vec<Box<dyn Device>>,
        out: &mut List<Entry>,
    ) -> Result<(), NoMemory>
        requires few { length devices.now.items < 2 ^ 64 }
        ensures { OnOk result ((records : Option (Items (Items ℕ))) →
            out.new.items ≡ out.old.items ++ listed (machine_of self.now (map (λ d. state d) devices.now.items) records) node) }
    {
        if !self.sides.host.is_joined(node) {
            return Ok(());
        }
        self.list_node(node, devices, out)
    }

    // The lines of a node.
    fn list_node(
        &self,
        node: NodeId,
        devices: &Vec<Box<dyn Device>>,
        out: &mut List<Entry>,
    ) -> Result<(), NoMemory>
        requires few { length devices.now.items < 2 ^ 64 }
        ensures { OnOk result ((records : Option (Items (Items ℕ))) →
            out.new.items ≡ out.old.items ++ node_entries (machine_of self.now (map (λ d. state d) devices.now.items) records) node) }
    {
        self.sides.host.list_node(self.sides.alloc, node, out)?;
        outside_calls::list_device(self.sides.alloc, node, devices, out)
    }
}
