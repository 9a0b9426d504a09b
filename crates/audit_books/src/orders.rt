//! The accepted commands.

ghost use Rattle.std.specs.Prelude.{◌≡◌, [], length, IfOk, OnOk};
ghost use Rattle.std.specs.Option.{option_copied};
ghost use Rattle.audit_books.specs.Accepting.{is_to, order_at, order_to, orders_after};

use std::alloc::Global;
use std::marker::Model;
use zw_base::{NoMemory, NodeId, Order};
use zw_text::{Entry, Line};

/// The order of each accepted command by its number, which counts from 1; none where the command does not directly
/// follow an order to its node.
#[derive(Drop)]
pub struct Orders {
    alloc: Global,
    orders: Vec<Option<Order>>,
}

impl Model for Orders {
    ghost use Rattle.std.specs.Prelude.{List, Option};
    ghost use Rattle.zw_base.specs.declared.order.Order.{Order};

    ghost Value = { List (Option Order) };

    ghost view = { λ o. o.orders.items };
}

/// The order of a line, where it is one to the node.
fn order_of(alloc: Global, line: Option<&Line>, node: NodeId) -> Result<Option<Order>, NoMemory>
    ensures { IfOk result (λ order. order ≡ order_to node (option_copied line.entry)) }
{
    match line {
        Some(Line::Command { order }) => {
            if order.node == node {
                Ok(Some(order.copy(alloc)?))
            } else {
                Ok(None)
            }
        }
        _ => Ok(None),
    }
}

impl Orders {
    /// No commands. It takes no memory.
    pub fn new(alloc: Global) -> Orders
        ensures { result ≡ [] }
    {
        Orders {
            alloc,
            orders: Vec::new(alloc),
        }
    }

    /// How many commands were accepted.
    pub fn count(&self) -> u64
        ensures { result ≡ length self.now }
    {
        self.orders.len() as u64
    }

    /// The order of the command.
    pub fn get(&self, command: u32) -> Option<&Order>
        ensures { option_copied result ≡ order_at self.now command }
    {
        if command == 0 {
            return None;
        }
        match self.orders.get(command as usize - 1) {
            Some(Some(order)) => Some(order),
            _ => None,
        }
    }

    /// Whether the command was accepted for the node.
    pub fn is_for(&self, command: u32, node: NodeId) -> bool
        ensures { result ≡ is_to node (order_at self.now command) }
    {
        match self.get(command) {
            Some(order) => order.node == node,
            None => false,
        }
    }

    /// Takes the next entry, which stands directly after that line.
    pub fn take(&mut self, line: Option<&Line>, entry: &Entry) -> Result<(), NoMemory>
        ensures { OnOk result (self.new ≡ orders_after self.old (option_copied line.entry) entry.now) }
    {
        if let Entry::Accepted { node, .. } = entry {
            let order = order_of(self.alloc, line, *node)?;
            self.orders.push(order)?;
        }
        Ok(())
    }
}
