//! The entries of the store: for each node and property that is kept its values, in the order of nodes, then of
//! properties.

ghost use Rattle.std.specs.Prelude.{◌≡◌, ◌+◌, ◌<◌, ◌≤◌, ◌++◌, length, IsTrue, is_some, not, insert, IfOk, IfErr, vec_len, vec_capacity};
ghost use Rattle.std.specs.List.{filter_map};
ghost use Rattle.std.specs.Set.{distinct_count, is_member};
ghost use Rattle.std.specs.FinMap.{find, put};
ghost use Rattle.zw_base.specs.PropertyOrder.{same_property};
ghost use Rattle.std.specs.FinMap.Entries.{where_key};
ghost use Rattle.value_store.specs.Values.{held_at, is_among, is_other, key_cmp, missing_by};
ghost use Rattle.value_store.specs.Entries.{IsGapFor, IsInOrder, IsPlaceOf, keeping, keeping_all, properties_among};

use crate::stored::{Held, Stored};
use std::alloc::Global;
use std::cmp::Ordering;
use zw_base::{List, NoMemory, NodeId, Property};

/// A node and one of its properties.
pub(crate) type Key = (NodeId, Property);

// By node, then in the order of properties.
#[tactic(auto, unfolding(crate::specs::Values::key_cmp))]
fn compare(first: &Key, second: &Key) -> Ordering
    ensures { result ≡ key_cmp first.now second.now }
{
    first.cmp(second)
}

// Where the entry of the key is, or where it would go.
fn place_of(entries: &[(Key, Stored)], key: &Key) -> Result<usize, usize>
    requires { IsInOrder entries.now }
    ensures found { IfOk result (IsPlaceOf entries.now key.now) }
    ensures absent { IfErr result (IsGapFor entries.now key.now) }
{
    entries.binary_search_by(|entry| compare(&entry.0, key))
}

// Whether the entry at a place has the key.
fn is_at(entries: &[(Key, Stored)], key: &Key, at: usize) -> bool
    ensures { IsTrue result → IsPlaceOf entries.now key.now at }
{
    if at >= entries.len() {
        return false;
    }
    match compare(&entries[at].0, key) {
        Ordering::Equal => true,
        Ordering::Less | Ordering::Greater => false,
    }
}

// The same. The entry at a place is looked at first.
fn place_near(entries: &[(Key, Stored)], key: &Key, near: usize) -> Result<usize, usize>
    requires { IsInOrder entries.now }
    ensures found { IfOk result (IsPlaceOf entries.now key.now) }
    ensures absent { IfErr result (IsGapFor entries.now key.now) }
{
    if is_at(entries, key, near) {
        return Ok(near);
    }
    place_of(entries, key)
}

// Whether the key is kept. The entry at a place is looked at first.
fn is_kept(entries: &[(Key, Stored)], key: &Key, near: usize) -> bool
    requires { IsInOrder entries.now }
    ensures { result ≡ is_some (find key_cmp key.now entries.now) }
{
    is_at(entries, key, near) || stored_at(entries, key, near).is_some()
}

// Where the first of these properties of the node is, or would go. The others mostly follow it, one after another.
fn begin_of(entries: &[(Key, Stored)], node: NodeId, properties: &[Property]) -> usize
    requires { IsInOrder entries.now }
{
    match properties.first() {
        Some(property) => match place_of(entries, &(node, *property)) {
            Ok(at) => at,
            Err(at) => at,
        },
        None => 0,
    }
}

/// What is kept at the key, where something is. The entry at a place is looked at first.
pub(crate) fn stored_at(entries: &[(Key, Stored)], key: &Key, near: usize) -> Option<Stored>
    requires { IsInOrder entries.now }
    ensures { result ≡ find key_cmp key.now entries.now }
{
    match place_near(entries, key, near) {
        Ok(at) => Some(entries[at].1),
        Err(_) => None,
    }
}

/// Writes over what is kept at the key. The entry at a place is looked at first; the answer is the place after that of the key.
pub(crate) fn write(
    entries: &mut Vec<(Key, Stored)>,
    key: &Key,
    stored: Stored,
    near: usize,
) -> usize
    requires order { IsInOrder entries.old.items }
    requires kept { IsTrue (is_some (find key_cmp key.now entries.old.items)) }
    ensures { entries.new.items ≡ put key_cmp key.now stored entries.old.items }
{
    match place_near(entries, key, near) {
        Ok(at) => {
            entries[at].1 = stored;
            at.saturating_add(1)
        }
        Err(at) => at,
    }
}

/// Keeps the key, with no value where it was not kept. There is room for one entry more. The entry at a place is looked at
/// first.
pub(crate) fn keep(entries: &mut Vec<(Key, Stored)>, key: Key, near: usize)
    requires order { IsInOrder entries.old.items }
    requires room { vec_len entries.old < vec_capacity entries.old }
    ensures items { entries.new.items ≡ keeping entries.old.items key }
    ensures order { IsInOrder entries.new.items }
    ensures len { vec_len entries.new ≤ vec_len entries.old + 1 }
    ensures capacity { vec_capacity entries.new ≡ vec_capacity entries.old }
{
    if is_at(entries, &key, near) {
        return;
    }
    if let Err(at) = place_of(entries, &key) {
        insert_reserved(entries, at, (key, Stored::none()));
    }
}

// Inserts an item, for which there is room.
fn insert_reserved<T: Drop>(items: &mut Vec<T>, at: usize, item: T)
    requires place { at ≤ vec_len items.old }
    requires room { vec_len items.old < vec_capacity items.old }
    ensures items { items.new.items ≡ insert items.old.items at item }
    ensures len { vec_len items.new ≡ vec_len items.old + 1 }
    ensures capacity { vec_capacity items.new ≡ vec_capacity items.old }
{
    if let Err(_refused) = items.insert(at, item) {}
}

/// Keeps these properties of the node. There is room for as many entries more.
pub(crate) fn keep_all(entries: &mut Vec<(Key, Stored)>, node: NodeId, properties: &[Property])
    requires order { IsInOrder entries.old.items }
    requires room { vec_len entries.old + length properties.now ≤ vec_capacity entries.old }
    ensures { entries.new.items ≡ keeping_all entries.old.items node properties.now }
{
    let mut near = begin_of(entries, node, properties);
    for property in properties {
        keep(entries, (node, *property), near);
        near = near.saturating_add(1);
    }
}

/// How many properties of the node are kept.
pub(crate) fn count_of(entries: &[(Key, Stored)], node: NodeId) -> usize
    ensures { result ≡ length (properties_among entries.now node) }
{
    let mut count = 0;
    for &(key, _) in entries {
        if key.0 == node {
            count += 1;
        }
    }
    count
}

/// How many properties of the node these add to those that are kept.
pub(crate) fn count_missing(
    entries: &[(Key, Stored)],
    node: NodeId,
    properties: &[Property],
) -> usize
    requires { IsInOrder entries.now }
    ensures count { result + length (properties_among entries.now node)
        ≡ distinct_count same_property (properties.now ++ properties_among entries.now node) }
    ensures bound { result ≤ length properties.now }
{
    let mut missing = 0;
    let mut rest = properties;
    let mut near = begin_of(entries, node, properties);
    while let Some((property, later)) = rest.split_first() {
        let here = near;
        near = near.saturating_add(1);
        if is_missing(entries, node, property, later, here) {
            missing += 1;
        }
        rest = later;
    }
    missing
}

// Whether the property is neither one of these nor kept. The entry at a place is looked at first.
fn is_missing(
    entries: &[(Key, Stored)],
    node: NodeId,
    property: &Property,
    others: &[Property],
    near: usize,
) -> bool
    requires { IsInOrder entries.now }
    ensures { result ≡ not (is_member same_property (others.now ++ properties_among entries.now node) property.now) }
{
    !is_kept(entries, &(node, *property), near) && !is_one_of(property, others)
}

// Whether the property is one of these.
fn is_one_of(property: &Property, properties: &[Property]) -> bool
    ensures { result ≡ is_among properties.now property.now }
{
    for other in properties {
        if property.cmp(other).is_eq() {
            return true;
        }
    }
    false
}

/// Those of these properties that are not kept, each once.
pub(crate) fn missing_of(
    alloc: Global,
    entries: &[(Key, Stored)],
    node: NodeId,
    properties: &[Property],
) -> Result<List<Property>, NoMemory>
    requires { IsInOrder entries.now }
    ensures { IfOk result (λ missing. missing.items ≡ missing_by (λ property. is_some (find key_cmp (node, property) entries.now)) properties.now) }
{
    let mut missing = List::new(alloc);
    let mut rest = properties;
    let mut near = begin_of(entries, node, properties);
    while let Some((property, later)) = rest.split_first() {
        let here = near;
        near = near.saturating_add(1);
        if is_missing(entries, node, property, later, here) {
            missing.push(*property)?;
        }
        rest = later;
    }
    Ok(missing)
}

/// Keeps these properties of the node no more.
pub(crate) fn drop_all(entries: &mut Vec<(Key, Stored)>, node: NodeId, properties: &[Property])
    ensures { entries.new.items ≡ where_key key_cmp (is_other node properties.now) entries.old.items }
{
    entries.retain(|entry| is_other(&entry.0, node, properties));
}

// Whether the key is none of these properties of the node.
fn is_other(key: &Key, node: NodeId, properties: &[Property]) -> bool
    ensures { result ≡ is_other node properties.now key.now }
{
    !(key.0 == node && is_one_of(&key.1, properties))
}

/// The properties of the node that have a value, in their order.
pub(crate) fn held_of(
    alloc: Global,
    entries: &[(Key, Stored)],
    node: NodeId,
) -> Result<List<Held>, NoMemory>
    ensures { IfOk result (λ held. held.items ≡ filter_map (held_at node) entries.now) }
{
    let mut held = List::new(alloc);
    for &((owner, property), stored) in entries {
        if owner == node && stored.has_value() {
            held.push(Held { property, stored })?;
        }
    }
    Ok(held)
}
