//! A group: the settings of one change, which stand after one another.

ghost use Rattle.std.specs.Prelude.{◌≡◌, ◌∷◌, List as Items, IfOk, MatchOption};
ghost use Rattle.zw_base.specs.declared.property.Setting.{Setting};
ghost use Rattle.audit_books.specs.Asking.{same_settings, settings_asked};
ghost use Rattle.audit_books.specs.Groups.{BeginsWith, EndsGroup, IsGroup, is_maker, maker_at, setting_by};

use crate::line::next_entry;
use crate::setting::{makes, setting_count};
use std::alloc::Global;
use zw_base::{By, List, NoMemory, NodeId, Order, Setting};
use zw_text::Entry;

/// The session of a node that a setting is made by.
#[derive(Clone, Copy, Debug)]
pub struct Maker {
    pub node: NodeId,
    pub session: u64,
}

/// What makes a setting of a node, where it is a session.
fn maker_by(node: NodeId, by: By) -> Option<Maker>
    ensures { result ≡ Rattle.audit_books.specs.Groups.maker_by node by }
{
    match by {
        By::Session(session) => Some(Maker { node, session }),
        By::Local | By::Plain => None,
    }
}

/// What makes the setting that an entry shows, where it is a session.
pub fn maker_of(entry: &Entry) -> Option<Maker>
    ensures { result ≡ maker_at entry.now }
{
    match entry {
        Entry::Dev { node, by, .. } => maker_by(*node, *by),
        _ => None,
    }
}

/// Whether it is that one.
pub fn is_made_by(other: &Option<Maker>, maker: &Maker) -> bool
    ensures { result ≡ is_maker other.now maker.now }
{
    match other {
        Some(other) => other.node == maker.node && other.session == maker.session,
        None => false,
    }
}

/// The setting that an entry shows as made by that session.
fn setting_made(entry: &Entry, maker: &Maker) -> Option<Setting>
    ensures { result ≡ setting_by maker.now entry.now }
{
    match entry {
        Entry::Dev { node, by, setting } => {
            if is_made_by(&maker_by(*node, *by), maker) {
                Some(*setting)
            } else {
                None
            }
        }
        _ => None,
    }
}

/// The setting made by that session with which the text goes on, and the text after it.
fn next_setting<'a>(
    alloc: Global,
    maker: &Maker,
    text: &'a [u8],
) -> Result<Option<(Setting, &'a [u8])>, NoMemory>
    ensures { IfOk result (λ found. MatchOption found (EndsGroup maker.now text.now) (λ next. BeginsWith maker.now text.now next.0 next.1.now)) }
{
    let Some((entry, rest)) = next_entry(alloc, text)? else {
        return Ok(None);
    };
    match setting_made(&entry, maker) {
        Some(setting) => Ok(Some((setting, rest))),
        None => Ok(None),
    }
}

/// A setting, and those made by that session with which the text goes on.
fn read_group(
    alloc: Global,
    maker: &Maker,
    first: Setting,
    text: &[u8],
) -> Result<List<Setting>, NoMemory>
    ensures { IfOk result (λ group. (following : Items Setting) × (group.items ≡ first ∷ following) × IsGroup maker.now text.now following) }
{
    let mut group = List::new(alloc);
    group.push(first)?;
    let mut left = text;
    'group: loop {
        match next_setting(alloc, maker, left) {
            Ok(Some((setting, rest))) => {
                group.push(setting)?;
                left = rest;
            }
            Ok(None) => return Ok(group),
            Err(NoMemory) => return Err(NoMemory),
        }
    }
}

/// Whether these are just the settings that the order asks for, in their order.
fn are_asked(order: &Order, made: &[Setting]) -> bool
    ensures { result ≡ same_settings (settings_asked order.now) made.now }
{
    if made.len() != setting_count(order) {
        return false;
    }
    'settings: for at in 0..made.len() {
        if !makes(order, at, &made[at]) {
            return false;
        }
    }
    true
}

/// Whether a setting of that session, and those with which the text goes on, are just the settings that the order asks for.
pub fn is_change(
    alloc: Global,
    order: &Order,
    maker: &Maker,
    first: Setting,
    text: &[u8],
) -> Result<bool, NoMemory>
    ensures { IfOk result (λ same. (following : Items Setting) → IsGroup maker.now text.now following →
        same ≡ same_settings (settings_asked order.now) (first ∷ following)) }
{
    let group = read_group(alloc, maker, first, text)?;
    Ok(are_asked(order, group.as_slice()))
}
