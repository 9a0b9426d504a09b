//! What is known of the properties of nodes.

ghost use Rattle.std.specs.Prelude.{◌≡◌, [], slice_set, IfOk, OnOk};
ghost use Rattle.law_transcript.specs.Table.{compare_properties};
ghost use Rattle.audit_table.specs.Knowing.{known_at, no_values, values_of, values_with, with_confirmed, with_last};

use audit_books::PLACES;
use std::alloc::Global;
use std::collections::BTreeMap;
use std::marker::Model;
use std::mem;
use zw_base::{NoMemory, NodeId, Property, Setting};

/// What is known of a property: the value that is confirmed, and the one that was shown last.
#[derive(Clone, Copy, Debug, PartialEq, Eq)]
pub struct Known {
    pub confirmed: Option<u32>,
    pub last: Option<u32>,
}

/// What is known of each property of each node.
#[derive(Drop)]
pub struct Values {
    nodes: Vec<BTreeMap<Property, Known>>,
}

impl Model for Values {
    ghost use Rattle.std.specs.Prelude.{◌≡◌, List, length, map};
    ghost use Rattle.audit_table.specs.Knowing.{Knowns};

    ghost Value = { List Knowns };

    ghost view = { λ v. map (λ known. known.entries) v.nodes.items };

    ghost invariant = { λ v. length v.nodes.items ≡ 233 };
}

/// Properties are in order of what `compare_properties` compares.
fn by_properties()
    ensures { (first second : Property) → ⟦<Property as Ord>⟧.cmp first second ≡ compare_properties first second }
{}

/// What is known of a property.
pub fn known_of(values: &BTreeMap<Property, Known>, property: &Property) -> Known
    ensures { result ≡ known_at values.now.entries property.now }
{
    by_properties();
    match values.get(property) {
        Some(known) => *known,
        None => Known {
            confirmed: None,
            last: None,
        },
    }
}

/// A property has a last value.
fn show(values: &mut BTreeMap<Property, Known>, setting: &Setting) -> Result<(), NoMemory>
    ensures { OnOk result (values.new.entries ≡ with_last values.old.entries setting.now) }
{
    by_properties();
    let confirmed = known_of(values, &setting.property).confirmed;
    values.insert(
        setting.property,
        Known {
            confirmed,
            last: Some(setting.value),
        },
    )?;
    Ok(())
}

/// A property has a confirmed value.
pub fn confirm(values: &mut BTreeMap<Property, Known>, setting: &Setting) -> Result<(), NoMemory>
    ensures { OnOk result (values.new.entries ≡ with_confirmed values.old.entries setting.now) }
{
    by_properties();
    let last = known_of(values, &setting.property).last;
    values.insert(
        setting.property,
        Known {
            confirmed: Some(setting.value),
            last,
        },
    )?;
    Ok(())
}

impl Values {
    /// No values.
    #[tactic(auto, unfolding(crate::specs::Knowing::no_values))]
    pub fn new(alloc: Global) -> Result<Values, NoMemory>
        ensures { IfOk result (λ values. values ≡ no_values) }
    {
        let mut nodes = Vec::with_capacity(alloc, PLACES)?;
        for _ in 0..PLACES {
            nodes.push(BTreeMap::new(alloc))?;
        }
        Ok(Values { nodes })
    }

    /// What is known of a property.
    pub fn get(&self, node: NodeId, property: &Property) -> Known
        ensures { result ≡ known_at (values_of self.now node) property.now }
    {
        known_of(&self.nodes[usize::from(node.number())], property)
    }

    /// A property has a last value.
    pub fn show(&mut self, node: NodeId, setting: &Setting) -> Result<(), NoMemory>
        ensures { OnOk result (self.new ≡ values_with self.old node setting.now) }
    {
        show(&mut self.nodes[usize::from(node.number())], setting)?;
        Ok(())
    }

    /// What is known of the properties of a node, which is forgotten.
    pub fn take(&mut self, alloc: Global, node: NodeId) -> BTreeMap<Property, Known>
        ensures taken { result.entries ≡ values_of self.old node }
        ensures rest { self.new ≡ slice_set self.old node [] }
    {
        let place = usize::from(node.number());
        mem::replace(&mut self.nodes[place], BTreeMap::new(alloc))
    }
}
