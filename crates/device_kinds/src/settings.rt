//! Settings in the order of properties, one for each.

ghost use Rattle.std.specs.Prelude.{◌≡◌, ℕ, ◌≤◌, ◌<◌, length, IfOk, OnOk};
ghost use Rattle.device_kinds.specs.Settings.{property_cmp, with_setting, merged};
ghost use Rattle.device_kinds.specs.Places.{IsAfter, IsLed, IsNotAfter};
ghost use Rattle.device_kinds.specs.Values.{value_by, level_by};
ghost use Rattle.zw_base.specs.PropertyOrder.{same_property};

use crate::kind::root;
use std::alloc::Global;
use std::cmp::Ordering;
use zw_base::{Name, NoMemory, Property, Sequence, Setting, properties_in_order};

/// How two properties are ordered.
pub fn compare(first: &Property, second: &Property) -> Ordering
    ensures { result ≡ property_cmp first.now second.now }
{
    properties_in_order(*first, *second);
    first.cmp(second)
}

/// Whether two properties are the same one.
pub fn is_same(first: &Property, second: &Property) -> bool
    ensures { result ≡ same_property first.now second.now }
{
    match compare(first, second) {
        Ordering::Equal => true,
        Ordering::Less | Ordering::Greater => false,
    }
}

/// The value that settings give a property, or the one before.
pub fn value_with(settings: &[Setting], property: &Property, before: u32) -> u32
    ensures { result ≡ value_by settings.now property.now before }
{
    let mut value = before;
    for setting in settings {
        if is_same(&setting.property, property) {
            value = setting.value;
        }
    }
    value
}

/// The last level above 0 that settings give, or the one before.
pub fn level_with(settings: &[Setting], before: u32) -> u32
    ensures { result ≡ level_by settings.now before }
{
    let mut level = before;
    let of_level = root(Name::Level);
    for setting in settings {
        if is_same(&setting.property, &of_level) && setting.value > 0 {
            level = setting.value;
        }
    }
    level
}

/// Where the search for a property begins, if a setting was put last at that place: after it, where it comes after that setting.
fn begin_at(settings: &[Setting], last: usize, property: &Property) -> usize
    requires { IsLed settings.now last }
    ensures within { result ≤ length settings.now }
    ensures before { (k : ℕ) → k < result → IsAfter settings.now property.now k }
{
    if last >= settings.len() {
        return 0;
    }
    match compare(property, &settings[last].property) {
        Ordering::Greater => last + 1,
        Ordering::Less | Ordering::Equal => 0,
    }
}

/// The place of the first setting from a place on whose property does not come before this one, or their number.
fn place_of(settings: &[Setting], property: &Property, from: usize) -> usize
    requires from { from ≤ length settings.now }
    requires passed { (k : ℕ) → k < from → IsAfter settings.now property.now k }
    ensures within { result ≤ length settings.now }
    ensures before { (k : ℕ) → k < result → IsAfter settings.now property.now k }
    ensures here { result < length settings.now → IsNotAfter settings.now property.now result }
{
    for i in from..settings.len() {
        match compare(property, &settings[i].property) {
            Ordering::Greater => {}
            Ordering::Less | Ordering::Equal => return i,
        }
    }
    settings.len()
}

/// Puts one more setting at its place, or in place of that of the same property. The answer is that place; `last` is the
/// one before, which is looked at first, since settings mostly come in their order.
fn place(settings: &mut Vec<Setting>, setting: Setting, last: usize) -> Result<usize, NoMemory>
    requires { IsLed settings.old.items last }
    ensures placed { OnOk result (settings.new.items ≡ with_setting settings.old.items setting) }
    ensures led { IfOk result (λ at. IsLed settings.new.items at) }
{
    let from = begin_at(settings.as_slice(), last, &setting.property);
    let at = place_of(settings.as_slice(), &setting.property, from);
    if at < settings.len() && is_same(&setting.property, &settings[at].property) {
        settings[at] = setting;
    } else {
        settings.insert(at, setting)?;
    }
    Ok(at)
}

/// The settings with more of them put in one after another.
#[tactic(auto, using(crate::proofs::PlaceLemmas::led_start))]
pub fn merge(
    alloc: Global,
    settings: &[Setting],
    more: &[Setting],
) -> Result<Sequence<Setting>, NoMemory>
    ensures { IfOk result (λ all. all ≡ merged settings.now more.now) }
{
    let mut all = Vec::with_capacity(alloc, settings.len().max(more.len()))?;
    all.extend_from_slice(settings)?;
    let mut last = 0;
    for setting in more {
        last = place(&mut all, *setting, last)?;
    }
    Sequence::from_slice(alloc, all.as_slice())
}
