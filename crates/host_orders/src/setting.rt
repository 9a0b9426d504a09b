//! The settings that an order makes where it succeeds.

ghost use Rattle.std.specs.Prelude.{◌≡◌, ◌+◌, ◌≤◌, ◌++◌, ◌∷◌, [], false, length, IfOk, OnOk};
ghost use Rattle.host_orders.specs.Settings.{settings, settings_by, value_setting, config_settings, full_of as full_by, properties_of as properties_in};
ghost use Rattle.host_orders.specs.Messages.{level_of as level_by};
ghost use Rattle.host_orders.specs.Refusals.{is_bad};

use crate::actuator::Actuator;
use std::alloc::Global;
use zw_base::{EndPoint, List, Name, NoMemory, Order, Property, Setting, What, Word};

/// The level of a dimmer that is all the way on, in per cent.
const FULL_LEVEL: u8 = 99;
/// The value of what is all the way on.
const FULL: u32 = 255;

/// The level in per cent that a word asks of a dimmer.
pub fn level_of(word: Word) -> u8
    ensures { result ≡ level_by word }
{
    match word {
        Word::On => FULL_LEVEL,
        Word::Off => 0,
        Word::Level(level) => level,
    }
}

/// The value that a word asks of a switch or a lock.
pub fn full_of(word: Word) -> u32
    ensures { result ≡ full_by word }
{
    match word {
        Word::On => FULL,
        Word::Off | Word::Level(_) => 0,
    }
}

/// Adds a setting.
fn put(out: &mut List<Setting>, property: Property, value: u32) -> Result<(), NoMemory>
    ensures { OnOk result (out.new.items ≡ out.old.items ++
        record { property = property; value = value } ∷ []) }
{
    out.push(Setting { property, value })
}

/// Adds the setting of a value.
fn put_value(
    out: &mut List<Setting>,
    actuator: Actuator,
    end: EndPoint,
    word: Word,
) -> Result<(), NoMemory>
    ensures { OnOk result (out.new.items ≡ out.old.items ++
        value_setting actuator end word ∷ []) }
{
    let (name, value) = match actuator {
        Actuator::Binary => (Name::Switch, full_of(word)),
        Actuator::Multilevel => (Name::Level, u32::from(level_of(word))),
        Actuator::Lock => (Name::Lock, full_of(word)),
    };
    put(out, Property { end, name }, value)
}

/// Adds the settings of parameters in a row, from `offset` on.
fn put_configs(
    out: &mut List<Setting>,
    end: EndPoint,
    offset: u8,
    values: &[u8],
) -> Result<(), NoMemory>
    requires { offset + length values.now ≤ 256 }
    ensures { OnOk result (out.new.items ≡ out.old.items ++
        config_settings end offset values.now) }
{
    out.reserve(values.len())?;
    let mut parameter = u32::from(offset);
    for value in values {
        let name = Name::Config(parameter as u8);
        out.put(Setting {
            property: Property { end, name },
            value: u32::from(*value),
        });
        parameter += 1;
    }
    Ok(())
}

/// Adds the settings of an order to an end point.
fn put_all(
    out: &mut List<Setting>,
    actuator: Actuator,
    end: EndPoint,
    what: &What,
) -> Result<(), NoMemory>
    requires { is_bad actuator what.now ≡ false }
    ensures { OnOk result (out.new.items ≡
        out.old.items ++ settings_by actuator end what.now) }
{
    let of = |name: Name| Property { end, name };
    match what {
        What::Value(word) => put_value(out, actuator, end, *word),
        What::Mode(mode) => put(out, of(Name::Mode), u32::from(*mode)),
        What::Setpoint { kind, tenths } => put(out, of(Name::Setpoint(*kind)), u32::from(*tenths)),
        What::Config { param, value } => put(out, of(Name::Config(*param)), *value),
        What::Bulk { offset, values } => put_configs(out, end, *offset, values.as_slice()),
        What::Associate { group, member } => put(out, of(Name::Member(*group, *member)), 1),
        What::Dissociate { group, member } => put(out, of(Name::Member(*group, *member)), 0),
        What::Interval(seconds) => put(out, of(Name::Interval), *seconds),
        What::Comfort { mode, kind, tenths } => {
            put(out, of(Name::Mode), u32::from(*mode))?;
            put(out, of(Name::Setpoint(*kind)), u32::from(*tenths))
        }
    }
}

/// The settings of an order whose values are in their ranges, in the order of properties.
pub fn settings(alloc: Global, actuator: Actuator, order: &Order) -> Result<List<Setting>, NoMemory>
    requires { is_bad actuator order.now.what ≡ false }
    ensures { IfOk result (λ made.
        made.items ≡ settings actuator order.now) }
{
    let mut made = List::new(alloc);
    put_all(&mut made, actuator, order.end, &order.what)?;
    Ok(made)
}

/// The properties of settings, in their order.
pub fn properties_of(alloc: Global, made: &[Setting]) -> Result<List<Property>, NoMemory>
    ensures { IfOk result (λ properties.
        properties.items ≡ properties_in made.now) }
{
    let mut properties = List::new(alloc);
    properties.reserve(made.len())?;
    for one in made {
        properties.put(one.property);
    }
    Ok(properties)
}
