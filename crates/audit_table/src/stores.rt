//! What is confirmed after a success.

ghost use Rattle.std.specs.Prelude.{◌≡◌, None, IfOk, OnOk, slice_get};
ghost use Rattle.std.specs.Option.{option_copied};
ghost use Rattle.audit_table.specs.StoreRule.{breaks_storing, storing_after};
ghost use Rattle.audit_books.specs.Accepting.{order_at};
ghost use Rattle.audit_books.specs.Asking.{settings_asked};

use audit_books::{Orders, makes, setting_count};
use std::marker::Model;
use zw_base::{NoMemory, Order};
use zw_text::{Ended, Entry};

/// The command of a success, and how many `store` lines stand directly after it.
#[derive(Clone, Copy, Debug)]
pub struct Storing {
    command: u32,
    count: usize,
}

/// The values that are still to be confirmed. Contracts see the success after which the next line stands, with `store` lines
/// alone between them.
#[derive(Clone, Copy, Debug)]
pub struct Stores {
    last: Option<Storing>,
}

impl Model for Stores {
    ghost use Rattle.std.specs.Prelude.{Option};
    ghost use Rattle.audit_table.specs.declared.stores.Storing.{Storing};

    ghost Value = { Option Storing };

    ghost view = { λ s. s.last };

    ghost inverse = { λ s. record { last = s } };
}

/// Whether it is a `store` line.
fn is_store(entry: &Entry) -> bool
    ensures { result ≡ Rattle.audit_table.specs.StoreRule.is_store entry.now }
{
    matches!(entry, Entry::Store { .. })
}

/// Whether the entry confirms the setting of the order at that place.
fn confirms(entry: &Entry, order: &Order, at: usize) -> bool
    ensures { result ≡ Rattle.audit_table.specs.StoreRule.confirms entry.now order.now.node (slice_get (settings_asked order.now) at) }
{
    match entry {
        Entry::Store { node, setting } => *node == order.node && makes(order, at, setting),
        _ => false,
    }
}

/// Whether the entry may not follow so many values of the order.
fn breaks_order(order: Option<&Order>, count: usize, entry: &Entry) -> bool
    ensures { result ≡ Rattle.audit_table.specs.StoreRule.breaks_order (option_copied order.entry) count entry.now }
{
    match order {
        Some(order) => {
            if count < setting_count(order) {
                !confirms(entry, order, count)
            } else {
                is_store(entry)
            }
        }
        None => is_store(entry),
    }
}

/// The success that an ending is.
fn success_by(command: u32, ended: Ended) -> Option<Storing>
    ensures { result ≡ Rattle.audit_table.specs.StoreRule.success_by command ended }
{
    match ended {
        Ended::Success => Some(Storing { command, count: 0 }),
        _ => None,
    }
}

/// One value more.
fn one_more(storing: Option<Storing>) -> Result<Option<Storing>, NoMemory>
    ensures { IfOk result (λ more. more ≡ Rattle.audit_table.specs.StoreRule.one_more storing) }
{
    match storing {
        Some(storing) => match storing.count.checked_add(1) {
            Some(count) => Ok(Some(Storing {
                command: storing.command,
                count,
            })),
            None => Err(NoMemory),
        },
        None => Ok(None),
    }
}

impl Stores {
    /// Nothing is to be confirmed.
    pub fn new() -> Stores
        ensures { result ≡ None }
    {
        Stores { last: None }
    }

    /// Whether the entry stands where another value of a command is to be confirmed, or is a value where none is.
    pub fn breaks(&self, orders: &Orders, entry: &Entry) -> bool
        ensures { result ≡ breaks_storing self.now (order_at orders.now) entry.now }
    {
        match self.last {
            Some(storing) => breaks_order(orders.get(storing.command), storing.count, entry),
            None => false,
        }
    }

    /// Takes the next entry.
    pub fn take(&mut self, entry: &Entry) -> Result<(), NoMemory>
        ensures { OnOk result (self.new ≡ storing_after self.old entry.now) }
    {
        self.last = match entry {
            Entry::Out { command, ended } => success_by(*command, *ended),
            Entry::Store { .. } => one_more(self.last)?,
            _ => None,
        };
        Ok(())
    }
}
