//! The settings of an order, one at a time.

ghost use Rattle.std.specs.Prelude.{◌≡◌, ◌∷◌, [], length, slice_get, Some, MatchOption};
ghost use Rattle.host_orders.specs.Settings.{config_settings, setting as setting_made, settings_by, value_setting as value_made};
ghost use Rattle.zw_base.specs.declared.property.Name.TheVariants as names;
ghost use Rattle.audit_books.specs.Asking.{IsNoneThere, is_there, same_setting, settings_asked};

use crate::kind::actuator_of;
use host_orders::{Actuator, full_of, level_of};
use zw_base::{EndPoint, Name, Order, Property, Setting, What, Word, properties_in_order};
use zw_range::setting_in_range;

/// The last configuration parameter of a node.
const LAST_PARAMETER: usize = 255;

fn setting(end: EndPoint, name: Name, value: u32) -> Setting
    ensures { result ≡ setting_made end name value }
{
    Setting {
        property: Property { end, name },
        value,
    }
}

/// The setting of a value.
fn value_setting(actuator: Actuator, end: EndPoint, word: Word) -> Setting
    ensures { result ≡ value_made actuator end word }
{
    match actuator {
        Actuator::Binary => setting(end, Name::Switch, full_of(word)),
        Actuator::Multilevel => setting(end, Name::Level, u32::from(level_of(word))),
        Actuator::Lock => setting(end, Name::Lock, full_of(word)),
    }
}

/// The setting of a parameter, where it has that number.
fn numbered(end: EndPoint, parameter: usize, value: u8) -> Option<Setting>
    ensures { MatchOption result (IsNoneThere (Some (setting_made end (names.Config parameter) value)))
        (λ made. Some (setting_made end (names.Config parameter) value) ≡ Some made) }
{
    if parameter <= LAST_PARAMETER {
        Some(setting(end, Name::Config(parameter as u8), u32::from(value)))
    } else {
        None
    }
}

/// The setting of the parameter at that place of some in a row, where it has a number.
fn config_setting(end: EndPoint, offset: u8, values: &[u8], at: usize) -> Option<Setting>
    ensures { MatchOption result (IsNoneThere (slice_get (config_settings end offset values.now) at))
        (λ made. slice_get (config_settings end offset values.now) at ≡ Some made) }
{
    if at < values.len() {
        numbered(end, usize::from(offset) + at, values[at])
    } else {
        None
    }
}

/// The setting, at the place of the only one.
fn only(made: Setting, at: usize) -> Option<Setting>
    ensures { result ≡ slice_get (made ∷ []) at }
{
    if at == 0 { Some(made) } else { None }
}

/// The settings of a thermostat's mode and setpoint.
fn comfort(mode: Setting, setpoint: Setting, at: usize) -> Option<Setting>
    ensures { result ≡ slice_get (mode ∷ setpoint ∷ []) at }
{
    match at {
        0 => Some(mode),
        1 => Some(setpoint),
        _ => None,
    }
}

/// The setting at that place of those to an end point.
fn setting_of(actuator: Actuator, end: EndPoint, what: &What, at: usize) -> Option<Setting>
    ensures { MatchOption result (IsNoneThere (slice_get (settings_by actuator end what.now) at))
        (λ made. slice_get (settings_by actuator end what.now) at ≡ Some made) }
{
    match what {
        What::Value(word) => only(value_setting(actuator, end, *word), at),
        What::Mode(mode) => only(setting(end, Name::Mode, u32::from(*mode)), at),
        What::Setpoint { kind, tenths } => {
            only(setting(end, Name::Setpoint(*kind), u32::from(*tenths)), at)
        }
        What::Config { param, value } => only(setting(end, Name::Config(*param), *value), at),
        What::Bulk { offset, values } => config_setting(end, *offset, values.as_slice(), at),
        What::Associate { group, member } => {
            only(setting(end, Name::Member(*group, *member), 1), at)
        }
        What::Dissociate { group, member } => {
            only(setting(end, Name::Member(*group, *member), 0), at)
        }
        What::Interval(seconds) => only(setting(end, Name::Interval, *seconds), at),
        What::Comfort { mode, kind, tenths } => comfort(
            setting(end, Name::Mode, u32::from(*mode)),
            setting(end, Name::Setpoint(*kind), u32::from(*tenths)),
            at,
        ),
    }
}

/// The setting at that place, in the order of properties, of those that an order asks for of its node, whose kind goes by its
/// number; none where it asks for none there that a device may have.
pub fn setting_at(order: &Order, at: usize) -> Option<Setting>
    ensures { MatchOption result (IsNoneThere (slice_get (settings_asked order.now) at)) (λ made. slice_get (settings_asked order.now) at ≡ Some made) }
{
    setting_of(actuator_of(order.node), order.end, &order.what, at)
}

/// How many settings an order asks for.
pub fn setting_count(order: &Order) -> usize
    ensures { result ≡ length (settings_asked order.now) }
{
    match &order.what {
        What::Bulk { values, .. } => values.len(),
        What::Comfort { .. } => 2,
        _ => 1,
    }
}

/// Whether two settings are the same.
pub fn is_same(first: &Setting, second: &Setting) -> bool
    ensures { result ≡ same_setting first.now second.now }
{
    properties_in_order(first.property, second.property);
    first.property.cmp(&second.property).is_eq() && first.value == second.value
}

/// Whether the setting is the one at that place of those that the order asks for.
pub fn makes(order: &Order, at: usize, setting: &Setting) -> bool
    ensures { result ≡ is_there (slice_get (settings_asked order.now) at) setting.now }
{
    setting_in_range(*setting);
    match setting_at(order, at) {
        Some(made) => is_same(&made, setting),
        None => false,
    }
}
