//! Lists that grow, and answer where there is no memory.

ghost use Rattle.std.specs.Prelude.{◌≡◌, [], ◌∷◌, ◌++◌, ◌+◌, ◌<◌, ◌≤◌, length, IfOk, OnOk, OnErr, IsTrue, ◌↔◌};

use crate::NoMemory;
use std::alloc::Global;
use std::marker::Model;

/// A list of values. Contracts see its items, and its room: how many more fit with no further memory.
#[derive(Debug, Drop)]
pub struct List<T> {
    values: Vec<T>,
}

impl<T> Model for List<T> {
    ghost use Rattle.std.specs.Prelude.{◌-◌, vec_len, vec_capacity};
    ghost use Rattle.zw_base.specs.Listed.{Listed};

    ghost Value = { Listed T };

    ghost view = { λ l. record { items = l.values.items; room = vec_capacity l.values - vec_len l.values } };
}

impl<T> List<T> {
    /// No items. It takes no memory.
    pub fn new(alloc: Global) -> List<T>
        ensures { result.items ≡ [] }
    {
        List {
            values: Vec::new(alloc),
        }
    }

    /// A copy of these items.
    pub fn from_slice(alloc: Global, items: &[T]) -> Result<List<T>, NoMemory>
    where
        T: Copy,
        ensures { IfOk result (λ copy. copy.items ≡ items.now) }
    {
        Ok(List {
            values: Vec::from_slice(alloc, items)?,
        })
    }

    pub fn len(&self) -> usize
        ensures { result ≡ length self.now.items }
    {
        self.values.len()
    }

    pub fn is_empty(&self) -> bool
        ensures { IsTrue result ↔ (self.now.items ≡ []) }
    {
        self.values.is_empty()
    }

    /// Makes room for so many more items.
    pub fn reserve(&mut self, additional: usize) -> Result<(), NoMemory>
        ensures items { self.new.items ≡ self.old.items }
        ensures ok { OnOk result (additional ≤ self.new.room) }
        ensures grows { self.old.room ≤ self.new.room }
    {
        self.values.reserve(additional)?;
        Ok(())
    }

    /// Adds an item at the end, for which there is room.
    pub fn put(&mut self, item: T)
        requires { 0 < self.old.room }
        ensures items { self.new.items ≡ self.old.items ++ item ∷ [] }
        ensures room { self.new.room + 1 ≡ self.old.room }
    {
        self.values.push_reserved(item);
    }

    /// Puts all of these items at the end, for which there is room.
    pub fn put_all(&mut self, more: List<T>)
    where
        T: Drop,
        requires { length more.items ≤ self.old.room }
        ensures { self.new.items ≡ self.old.items ++ more.items }
    {
        let mut values = more.into_items();
        let _ = self.values.append(&mut values);
    }

    /// Adds an item at the end.
    pub fn push(&mut self, item: T) -> Result<(), NoMemory>
    where
        T: Drop,
        ensures ok { OnOk result (self.new.items ≡ self.old.items ++ item ∷ []) }
        ensures err { OnErr result (self.new.items ≡ self.old.items) }
    {
        self.values.push(item)?;
        Ok(())
    }

    /// Takes all items away. Their places are room for others.
    pub fn clear(&mut self)
    where
        T: Drop,
        ensures items { self.new.items ≡ [] }
        ensures room { self.new.room ≡ self.old.room + length self.old.items }
    {
        self.values.clear();
    }

    /// The items, to be used up.
    pub fn into_items(self) -> Vec<T>
        ensures { result.items ≡ self.items }
    {
        let List { values } = self;
        values
    }

    pub fn as_slice(&self) -> &[T]
        ensures { result.now ≡ self.now.items }
    {
        self.values.as_slice()
    }
}
