//! The lines of the table at the end, but for those of the devices.

ghost use Rattle.std.specs.Prelude.{◌≡◌, ◌++◌, ℕ, ◌<◌, IsTrue, IfOk, OnOk, length, filter};
ghost use Rattle.std.specs.List.{flat_map};
ghost use Rattle.audit_books.specs.Asking.{is_named, is_setting as is_one, settings_asked};
ghost use Rattle.audit_books.specs.Ending.{ending_in};
ghost use Rattle.law_transcript.specs.Table.{value_line};
ghost use Rattle.audit_table.specs.Knowing.{confirmed_of, known_lines, lines_of_node, nodes_marked, values_of, with_commands, with_settings};

use crate::values::{Known, Values, confirm, known_of};
use audit_books::{Endings, Orders, PLACES, Sessions, setting_at, setting_count};
use std::alloc::Global;
use std::collections::BTreeMap;
use zw_base::{Name, NoMemory, NodeId, Order, Property, Sequence, Setting, read_node};
use zw_text::Entry;

/// A parameter has a number of one byte.
fn has_name(name: Name)
    ensures { IsTrue (is_named name) }
{
    if let Name::Config(number) = name {
        let _number = number;
    }
}

fn is_setting(setting: &Setting)
    ensures { IsTrue (is_one setting.now) }
{
    has_name(setting.property.name);
}

/// What a successful order confirms, over what earlier ones do.
fn confirm_order(known: &mut BTreeMap<Property, Known>, order: &Order) -> Result<(), NoMemory>
    ensures { OnOk result (known.new.entries ≡ with_settings known.old.entries (filter is_one (settings_asked order.now))) }
{
    let mut left = setting_count(order);
    'settings: while left > 0 {
        left -= 1;
        if let Some(setting) = setting_at(order, left) {
            is_setting(&setting);
            confirm(known, &setting)?;
        }
    }
    Ok(())
}

/// What a command confirms, over what earlier ones do.
fn confirm_command(
    known: &mut BTreeMap<Property, Known>,
    orders: &Orders,
    endings: &Endings,
    command: u32,
) -> Result<(), NoMemory>
    ensures { OnOk result (known.new.entries ≡ with_settings known.old.entries (confirmed_of (ending_in endings.now) orders.now command)) }
{
    if endings.get(command).succeeds {
        if let Some(order) = orders.get(command) {
            confirm_order(known, order)?;
        }
    }
    Ok(())
}

/// What commands confirm, in order.
fn confirm_commands(
    known: &mut BTreeMap<Property, Known>,
    orders: &Orders,
    endings: &Endings,
    commands: &[u32],
) -> Result<(), NoMemory>
    ensures { OnOk result (known.new.entries ≡ with_commands known.old.entries (confirmed_of (ending_in endings.now) orders.now) commands.now) }
{
    for at in 0..commands.len() {
        confirm_command(known, orders, endings, commands[at])?;
    }
    Ok(())
}

/// Adds the line of what is known of a property, where something is.
fn add_known(
    rows: &mut Vec<Entry>,
    node: NodeId,
    property: Property,
    known: Known,
) -> Result<(), NoMemory>
    ensures { OnOk result (rows.new.items ≡ rows.old.items ++ value_line node property known.confirmed known.last) }
{
    if known.confirmed.is_some() || known.last.is_some() {
        rows.push(Entry::TableValue {
            node,
            property,
            confirmed: known.confirmed,
            heard: known.last,
        })?;
    }
    Ok(())
}

/// Adds the lines of what is known of the properties of a node.
fn add_values(
    rows: &mut Vec<Entry>,
    node: NodeId,
    known: &BTreeMap<Property, Known>,
) -> Result<(), NoMemory>
    ensures { OnOk result (rows.new.items ≡ rows.old.items ++ known_lines node known.now.entries) }
{
    for property in known.keys() {
        add_known(rows, node, *property, known_of(known, property))?;
    }
    Ok(())
}

/// Adds the lines of a node.
fn add_node(
    alloc: Global,
    rows: &mut Vec<Entry>,
    heard: &mut Values,
    orders: &Orders,
    endings: &Endings,
    sessions: &Sessions,
    node: NodeId,
) -> Result<(), NoMemory>
    ensures rows { OnOk result (rows.new.items ≡ rows.old.items ++ lines_of_node heard.old (ending_in endings.now) orders.now sessions.now node) }
    ensures rest { OnOk result ((other : ℕ) → (other ≡ node → ⊥) → values_of heard.new other ≡ values_of heard.old other) }
{
    rows.push(Entry::TableNode {
        node,
        sessions: Sequence::from_slice(alloc, sessions.of(node))?,
    })?;
    let mut known = heard.take(alloc, node);
    confirm_commands(&mut known, orders, endings, sessions.of(node))?;
    add_values(rows, node, &known)?;
    Ok(())
}

/// The lines of the joined nodes, by what was heard of them.
pub fn all_rows(
    alloc: Global,
    joined: &[bool],
    heard: &mut Values,
    orders: &Orders,
    endings: &Endings,
    sessions: &Sessions,
) -> Result<Vec<Entry>, NoMemory>
    requires { length joined.now ≡ 233 }
    ensures { IfOk result (λ rows. rows.items ≡ flat_map (lines_of_node heard.old (ending_in endings.now) orders.now sessions.now) (nodes_marked joined.now)) }
{
    let mut rows = Vec::new(alloc);
    for place in 1..PLACES {
        if joined[place] {
            if let Some(node) = read_node(place as u8) {
                add_node(alloc, &mut rows, heard, orders, endings, sessions, node)?;
            }
        }
    }
    Ok(rows)
}
