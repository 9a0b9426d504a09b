//! The journal of a device: the changes that it made.

ghost use Rattle.std.specs.Prelude.{◌≡◌, [], ◌∷◌, ◌++◌, length, slice_get, IfOk, OnOk, OnErr};
ghost use Rattle.device_kinds.specs.Cache.{first_value};
ghost use Rattle.device_kinds.specs.Values.{value_after, level_after};

use crate::Change;
use crate::settings::{is_same, level_with, merge};
use std::alloc::Global;
use std::marker::Model;
use zw_base::{List, NoMemory, Property, Sequence, Setting};

/// The level of a dimmer that never had one above 0, in per cent.
const FIRST_LEVEL: u32 = 99;

/// The changes of a device, in order. Contracts see the list. The values that they give are kept beside it, so that a
/// value is read without a walk over the changes.
#[derive(Drop)]
pub struct Journal {
    alloc: Global,
    changes: List<Change>,
    values: Sequence<Setting>,
    last_level: u32,
}

impl Model for Journal {
    ghost use Rattle.std.specs.Prelude.{List};
    ghost use Rattle.device_kinds.specs.declared.change.Change.{Change};
    ghost use Rattle.device_kinds.specs.Cache.{IsCache};

    ghost Value = { List Change };

    ghost view = { λ j. j.changes.items };

    ghost invariant = { λ j. IsCache j.changes.items j.values j.last_level };
}

impl Journal {
    /// No changes. It takes no memory.
    pub fn new(alloc: Global) -> Journal
        ensures { result ≡ [] }
    {
        Journal {
            alloc,
            changes: List::new(alloc),
            values: Sequence::new(alloc),
            last_level: FIRST_LEVEL,
        }
    }

    /// Adds a change.
    pub fn make(&mut self, change: Change) -> Result<(), NoMemory>
        ensures ok { OnOk result (self.new ≡ self.old ++ change ∷ []) }
        ensures err { OnErr result (self.new ≡ self.old) }
    {
        let values = merge(
            self.alloc,
            self.values.as_slice(),
            change.settings.as_slice(),
        )?;
        let level = level_with(change.settings.as_slice(), self.last_level);
        self.changes.push(change)?;
        self.values = values;
        self.last_level = level;
        Ok(())
    }

    /// The value of a property: what the last change with a setting of it gave, and 0 before one.
    pub fn value(&self, property: &Property) -> u32
        ensures { result ≡ value_after self.now property.now 0 }
    {
        value_in(self.values.as_slice(), property)
    }

    /// The last level above 0, in per cent.
    pub fn last_level(&self) -> u32
        ensures { result ≡ level_after self.now 99 }
    {
        self.last_level
    }

    /// How many changes there are.
    pub fn len(&self) -> usize
        ensures { result ≡ length self.now }
    {
        self.changes.len()
    }

    /// A copy of the change at that place, counted from 0.
    pub fn get(&self, alloc: Global, at: u64) -> Result<Option<Change>, NoMemory>
        ensures { IfOk result (λ change. change ≡ slice_get self.now at) }
    {
        match self.changes.as_slice().get(at as usize) {
            Some(change) => Ok(Some(Change {
                by: change.by,
                settings: Sequence::from_slice(alloc, change.settings.as_slice())?,
            })),
            None => Ok(None),
        }
    }
}

/// The value of the first setting of a property, or 0.
fn value_in(settings: &[Setting], property: &Property) -> u32
    ensures { result ≡ first_value settings.now property.now }
{
    for setting in settings {
        if is_same(&setting.property, property) {
            return setting.value;
        }
    }
    0
}
