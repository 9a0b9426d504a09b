//! The values of all nodes.

ghost use Rattle.std.specs.Prelude.{◌≡◌, ℕ, ◌<◌, ◌≤◌, ◌↔◌, length, [], ◌∷◌, Some, Err, map, IfOk, IsTrue, IsFalse, OnOk, OnErr};
ghost use Rattle.std.specs.List.{AllByRecursion};
ghost use Rattle.std.specs.List.Sorted.{IsStrictlySortedBy};
ghost use Rattle.std.specs.FinMap as finmap;
ghost use Rattle.zw_base.specs.declared.property.Property.{Property as PropertyValue};
ghost use Rattle.value_store.specs.Values.{
  IsReserved,
  Reserves,
  count_with,
  held_of,
  known_of,
  listed_of,
  missing_of as not_kept,
  property_cmp,
  releasing,
  reserving,
  stored_of,
};
ghost use Rattle.value_store.specs.ValueText.{values_text};

use crate::entries::{
    Key, count_missing, count_of, drop_all, held_of, keep_all, missing_of, stored_at, write,
};
use crate::json;
use crate::stored::{Held, StoreFault, Stored};
use std::alloc::Global;
use std::marker::Model;
use std::slice;
use zw_base::{Bytes, List, NoMemory, NodeId, Property};

/// The most properties of one node, with a value or none.
pub const MAX_PROPERTIES: usize = 512;

/// What is kept of the nodes' properties. Contracts see the map from node and property to the values. Beside it stands the
/// place after the entry that was set last, which is looked at first, since properties mostly come in their order.
#[derive(Debug, Drop)]
pub struct Store {
    entries: Vec<(Key, Stored)>,
    near: usize,
}

impl Model for Store {
    ghost use Rattle.std.specs.FinMap as map;
    ghost use Rattle.value_store.specs.Values.{Values, values_code, key_cmp};
    ghost use Rattle.value_store.specs.Entries.{IsInOrder, IsWithinLimit};

    ghost Value = { Values };

    ghost coded = { values_code };

    ghost view = { λ s. map.from_sorted {R = key_cmp} s.entries.items };

    ghost invariant = { λ s. IsInOrder s.entries.items × IsWithinLimit s.entries.items };
}

impl Store {
    /// Nothing is kept. It takes no memory.
    pub fn new(alloc: Global) -> Store
        ensures { result ≡ finmap.empty }
    {
        Store {
            entries: Vec::new(alloc),
            near: 0,
        }
    }

    /// Keeps these properties of the node, so that each can be confirmed. One that was kept stays as it is; the others
    /// have no value yet. A property that is named twice counts once.
    pub fn reserve(&mut self, node: NodeId, properties: &[Property]) -> Result<(), StoreFault>
        ensures state { OnOk result (self.new ≡ reserving self.old node properties.now) }
        ensures ok { OnOk result (Reserves self.old self.new node properties.now) }
        ensures reserved { OnOk result (AllByRecursion (λ property. IsReserved self.new node property) properties.now) }
        ensures stay { OnOk result ((n : ℕ) (p : PropertyValue) → IsReserved self.old n p → IsReserved self.new n p) }
        ensures full { (result ≡ Err StoreFault.StoreFull) ↔ (512 < count_with self.old node properties.now) }
        ensures err { OnErr result (self.new ≡ self.old) }
    {
        if self.exceeds(node, properties) {
            return Err(StoreFault::StoreFull);
        }
        self.entries.reserve(properties.len())?;
        keep_all(&mut self.entries, node, properties);
        Ok(())
    }

    /// Those of these properties of the node that are not kept, each once: what `reserve` would keep besides.
    pub fn missing(
        &self,
        alloc: Global,
        node: NodeId,
        properties: &[Property],
    ) -> Result<List<Property>, NoMemory>
        ensures { IfOk result (λ missing. missing.items ≡ not_kept self.now node properties.now) }
    {
        missing_of(alloc, &self.entries, node, properties)
    }

    /// Keeps these properties of the node no more. With those that were missing it undoes `reserve`, as
    /// `what_is_released_is_undone` says. It takes no memory.
    pub fn release(&mut self, node: NodeId, properties: &[Property])
        ensures { self.new ≡ releasing self.old node properties.now }
    {
        drop_all(&mut self.entries, node, properties);
    }

    /// Sets the confirmed value of a property that is kept. It takes no memory.
    pub fn confirm(&mut self, node: NodeId, property: Property, value: u32)
        requires { IsReserved self.old node property }
        ensures set { self.new ≡ finmap.insert self.old (node, property) (record (stored_of self.old node property) { confirmed = Some value }) }
        ensures stay { (n : ℕ) (p : PropertyValue) → IsReserved self.old n p → IsReserved self.new n p }
    {
        let key = (node, property);
        let stored = self.stored(&key);
        self.set(
            &key,
            Stored {
                confirmed: Some(value),
                heard: stored.heard,
            },
        );
    }

    /// Sets the value last heard of a property, which is kept from then on.
    pub fn hear_report(
        &mut self,
        node: NodeId,
        property: Property,
        value: u32,
    ) -> Result<(), StoreFault>
        ensures ok { OnOk result (self.new ≡ finmap.insert self.old (node, property) (record (stored_of self.old node property) { heard = Some value })) }
        ensures stay { OnOk result ((n : ℕ) (p : PropertyValue) → IsReserved self.old n p → IsReserved self.new n p) }
        ensures full { (result ≡ Err StoreFault.StoreFull) ↔ (512 < count_with self.old node (property ∷ [])) }
        ensures err { OnErr result (self.new ≡ self.old) }
    {
        self.reserve(node, slice::from_ref(&property))?;
        let key = (node, property);
        let stored = self.stored(&key);
        self.set(
            &key,
            Stored {
                confirmed: stored.confirmed,
                heard: Some(value),
            },
        );
        Ok(())
    }

    /// The values of a property, `None` exactly where it has neither.
    pub fn get(&self, node: NodeId, property: Property) -> Option<Stored>
        ensures { result ≡ known_of self.now node property }
    {
        let stored = self.stored(&(node, property));
        if stored.has_value() {
            Some(stored)
        } else {
            None
        }
    }

    /// The properties of the node that have a value, in the order of properties, each with what `get` gives.
    pub fn list(&self, alloc: Global, node: NodeId) -> Result<List<Held>, NoMemory>
        ensures ok { IfOk result (λ held. held.items ≡ held_of self.now node) }
        ensures each { IfOk result (λ held. (property : PropertyValue) → listed_of held.items property ≡ known_of self.now node property) }
        ensures order { IfOk result (λ held. IsStrictlySortedBy property_cmp (map (λ one. one.property) held.items)) }
        ensures bound { IfOk result (λ held. length held.items ≤ 512) }
    {
        held_of(alloc, &self.entries, node)
    }

    /// The same as JSON with no space: the node, and of each property its values, with null for none.
    pub fn to_json(&self, alloc: Global, node: NodeId) -> Result<Bytes, NoMemory>
        ensures { IfOk result (λ text. text ≡ values_text node (held_of self.now node)) }
    {
        let held = self.list(alloc, node)?;
        json::print(alloc, node, held.as_slice())
    }

    // Sets the values of a key that is kept.
    fn set(&mut self, key: &Key, stored: Stored)
        requires { IsReserved self.old key.now.0 key.now.1 }
        ensures { self.new ≡ finmap.insert self.old key.now stored }
    {
        self.near = write(&mut self.entries, key, stored, self.near);
    }

    // Whether the node would have too many properties with these. They are not counted where all entries are few.
    fn exceeds(&self, node: NodeId, properties: &[Property]) -> bool
        ensures yes { IsTrue result → 512 < count_with self.now node properties.now }
        ensures no { IsFalse result → count_with self.now node properties.now ≤ 512 }
    {
        let most = self
            .entries
            .as_slice()
            .len()
            .saturating_add(properties.len());
        if most <= MAX_PROPERTIES {
            return false;
        }
        self.count_with(node, properties) > MAX_PROPERTIES
    }

    // How many properties the node would have with these.
    fn count_with(&self, node: NodeId, properties: &[Property]) -> usize
        ensures { result ≡ count_with self.now node properties.now }
    {
        count_of(&self.entries, node) + count_missing(&self.entries, node, properties)
    }

    // What is kept at the key, and nothing where it is not kept.
    fn stored(&self, key: &Key) -> Stored
        ensures { result ≡ stored_of self.now key.now.0 key.now.1 }
    {
        stored_at(&self.entries, key, self.near).unwrap_or(Stored::none())
    }
}
