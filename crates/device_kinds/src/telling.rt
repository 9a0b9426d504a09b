//! What a device tells of its values.

ghost use Rattle.std.specs.Prelude.{◌≡◌, ◌%◌, min, ◌≤◌, length, IfOk, IfSome, take, None, if◌then◌else◌};
ghost use Rattle.std.specs.Option.{option_and_then};
ghost use Rattle.device_kinds.specs.Kind.{has_end};
ghost use Rattle.device_kinds.specs.Values.{value_after};
ghost use Rattle.device_kinds.specs.Telling.{report_of, asked_name_core, asked_name, members_of, value_told, told, IsAnswer};

use crate::journal::Journal;
use crate::kind::{ASSOCIATION, HOST, Kind, node};
use class_core::{
    CoreMessage, Decimal, Level, Mode, NodeList, Number, Seconds, SetpointKind, Switch,
};
use class_info::{BatteryLevel, InfoMessage};
use std::alloc::Global;
use zw_base::{EndPoint, Name, NoMemory, Property};

/// The greatest level in per cent.
const FULL_LEVEL: u32 = 99;

/// The charge of each battery, in per cent.
const FULL_BATTERY: u8 = 100;

/// The kind of value that a sensor reports: a temperature.
const TEMPERATURE: u8 = 1;

/// How many members a report names at most.
const MAX_MEMBERS: u8 = 5;

/// The greatest node.
const NODES: u8 = 232;

/// The report of a value, where there is one: none of a lock and of a member. What its fields cannot say is cut off.
pub fn report(name: Name, value: u32) -> Option<InfoMessage>
    ensures value { result ≡ report_of name value }
    ensures answer { IfSome result (λ report. IsAnswer report) }
{
    match name {
        Name::Switch => Some(InfoMessage::Core(CoreMessage::SwitchBinaryReport {
            value: if value == 0 { Switch::Off } else { Switch::On },
        })),
        Name::Level => Some(InfoMessage::Core(CoreMessage::SwitchMultilevelReport {
            level: level(value),
        })),
        Name::Mode => Some(InfoMessage::Core(CoreMessage::ThermostatModeReport {
            mode: mode(value),
        })),
        Name::Setpoint(kind) => Some(InfoMessage::Core(CoreMessage::ThermostatSetpointReport {
            kind: setpoint_kind(kind),
            value: tenths(value),
        })),
        Name::Config(parameter) => Some(InfoMessage::Core(CoreMessage::ConfigurationReport {
            parameter,
            value: Number::Four(value),
        })),
        Name::Interval => Some(InfoMessage::WakeUpIntervalReport {
            seconds: seconds(value),
            target: node(HOST),
        }),
        Name::Sensor => Some(InfoMessage::SensorMultilevelReport {
            kind: TEMPERATURE,
            value: tenths(value),
        }),
        Name::Battery => Some(InfoMessage::BatteryReport { level: battery() }),
        Name::Lock | Name::Member(_, _) => None,
    }
}

/// A level of at most 99 per cent.
fn level(value: u32) -> Level
    ensures { result ≡ min value 99 }
{
    match Level::of(value.min(FULL_LEVEL) as u8) {
        Some(level) => level,
        None => unreachable!(),
    }
}

/// The mode in the low five bits.
fn mode(value: u32) -> Mode
    ensures { result ≡ value % 32 }
{
    match Mode::of((value % 32) as u8) {
        Some(mode) => mode,
        None => unreachable!(),
    }
}

/// The kind of setpoint in the low four bits.
fn setpoint_kind(kind: u8) -> SetpointKind
    ensures { result ≡ kind % 16 }
{
    match SetpointKind::of(kind % 16) {
        Some(kind) => kind,
        None => unreachable!(),
    }
}

/// A number of tenths, in two bytes.
fn tenths(value: u32) -> Decimal
    ensures { result ≡ record { precision = 1; scale = 0; number = Number.Two (value % 65536) } }
{
    Decimal::new(1, 0, Number::Two((value % 65536) as u16))
}

/// Seconds in three bytes.
fn seconds(value: u32) -> Seconds
    ensures { result ≡ value % 16777216 }
{
    match Seconds::of(value % 16_777_216) {
        Some(seconds) => seconds,
        None => unreachable!(),
    }
}

/// The charge of each battery.
fn battery() -> BatteryLevel
    ensures { result ≡ 100 }
{
    match BatteryLevel::of(FULL_BATTERY) {
        Some(level) => level,
        None => unreachable!(),
    }
}

/// The value that a Get of an actuator's class asks for.
fn asked_of_core(message: &CoreMessage) -> Option<Name>
    ensures { result ≡ asked_name_core message.now }
{
    match message {
        CoreMessage::SwitchBinaryGet => Some(Name::Switch),
        CoreMessage::SwitchMultilevelGet => Some(Name::Level),
        CoreMessage::ThermostatModeGet => Some(Name::Mode),
        CoreMessage::ThermostatSetpointGet { kind } => Some(Name::Setpoint(kind.number())),
        CoreMessage::ConfigurationGet { parameter } => Some(Name::Config(*parameter)),
        _ => None,
    }
}

/// The value that a Get asks for.
fn asked(message: &InfoMessage) -> Option<Name>
    ensures { result ≡ asked_name message.now }
{
    match message {
        InfoMessage::Core(message) => asked_of_core(message),
        InfoMessage::SensorMultilevelGet => Some(Name::Sensor),
        InfoMessage::BatteryGet => Some(Name::Battery),
        InfoMessage::WakeUpIntervalGet => Some(Name::Interval),
        _ => None,
    }
}

/// The first five members of a group.
fn members(alloc: Global, journal: &Journal, end: EndPoint, group: u8) -> Result<NodeList, NoMemory>
    ensures value { IfOk result (λ nodes. nodes ≡ take 5 (members_of (λ property. value_after journal.now property 0) end group)) }
    ensures few { IfOk result (λ nodes. length nodes ≤ 5) }
{
    let mut nodes = NodeList::new(alloc);
    for before in 0..NODES {
        let member = node(before + 1);
        let property = Property {
            end,
            name: Name::Member(group, member),
        };
        if journal.value(&property) != 0 && nodes.len() < usize::from(MAX_MEMBERS) {
            nodes.push(member)?;
        }
    }
    Ok(nodes)
}

/// The report of a value of that end point, where the kind tells it.
fn tell_value(kind: Kind, journal: &Journal, end: EndPoint, name: &Name) -> Option<InfoMessage>
    ensures value { result ≡ value_told kind (λ property. value_after journal.now property 0) end name.now }
    ensures answer { IfSome result (λ report. IsAnswer report) }
{
    if kind.tells(*name) {
        report(*name, journal.value(&Property { end, name: *name }))
    } else {
        None
    }
}

/// The report of the value that is asked for, where that end point is there.
fn tell_asked(
    kind: Kind,
    journal: &Journal,
    end: EndPoint,
    asked: Option<Name>,
) -> Option<InfoMessage>
    ensures value { result ≡ (if has_end kind end then option_and_then (value_told kind (λ property. value_after journal.now property 0) end) asked else None) }
    ensures answer { IfSome result (λ report. IsAnswer report) }
{
    if !kind.has_end(end) {
        return None;
    }
    match asked {
        Some(name) => tell_value(kind, journal, end, &name),
        None => None,
    }
}

/// The report of the members of a group, where the kind has groups.
#[tactic(auto, unfolding(crate::specs::Telling::told))]
fn tell_members(
    alloc: Global,
    kind: Kind,
    journal: &Journal,
    end: EndPoint,
    group: u8,
) -> Result<Option<InfoMessage>, NoMemory>
    ensures value { IfOk result (λ report. report ≡ told kind (λ property. value_after journal.now property 0) end (InfoMessage.AssociationGet group)) }
    ensures answer { IfOk result (λ report. IfSome report (λ report. IsAnswer report)) }
{
    if !kind.has_end(end) || !kind.lists(ASSOCIATION) {
        return Ok(None);
    }
    Ok(Some(InfoMessage::AssociationReport {
        group,
        most: MAX_MEMBERS,
        following: 0,
        members: members(alloc, journal, end, group)?,
    }))
}

/// The report that a Get at an end point is answered with.
#[tactic(auto, unfolding(crate::specs::Telling::told))]
pub fn tell(
    alloc: Global,
    kind: Kind,
    journal: &Journal,
    end: EndPoint,
    message: &InfoMessage,
) -> Result<Option<InfoMessage>, NoMemory>
    ensures value { IfOk result (λ report. report ≡ told kind (λ property. value_after journal.now property 0) end message.now) }
    ensures answer { IfOk result (λ report. IfSome report (λ report. IsAnswer report)) }
{
    match message {
        InfoMessage::AssociationGet { group } => tell_members(alloc, kind, journal, end, *group),
        _ => Ok(tell_asked(kind, journal, end, asked(message))),
    }
}
