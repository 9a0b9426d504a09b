//! The values that a report gives.

ghost use Rattle.std.specs.Prelude.{◌≡◌, [], ◌∷◌, map, IfOk};
ghost use Rattle.host_heard.specs.Telling.{value_at, core_values, values_of};

use class_core::CoreMessage;
use class_info::InfoMessage;
use std::alloc::Global;
use zw_base::{EndPoint, Name, NoMemory, NodeId, Property, Sequence, Setting};

/// What a member of a group is said to be.
const MEMBER: u32 = 1;

/// The values that a message from that end point reports.
pub fn reported(
    alloc: Global,
    end: EndPoint,
    message: &InfoMessage,
) -> Result<Sequence<Setting>, NoMemory>
    ensures { IfOk result (λ values. values ≡ values_of end message.now) }
{
    match message {
        InfoMessage::Core(core) => core_reported(alloc, end, core),
        InfoMessage::SensorMultilevelReport { value, .. } => {
            one(alloc, end, Name::Sensor, value.number().value())
        }
        InfoMessage::BatteryReport { level } => {
            one(alloc, end, Name::Battery, u32::from(level.byte()))
        }
        InfoMessage::WakeUpIntervalReport { seconds, .. } => {
            one(alloc, end, Name::Interval, seconds.number())
        }
        InfoMessage::AssociationReport { group, members, .. } => {
            all_members(alloc, end, *group, members.as_slice())
        }
        _ => Ok(Sequence::new(alloc)),
    }
}

/// The value that an actuator's message reports.
fn core_reported(
    alloc: Global,
    end: EndPoint,
    message: &CoreMessage,
) -> Result<Sequence<Setting>, NoMemory>
    ensures { IfOk result (λ values. values ≡ core_values end message.now) }
{
    match message {
        CoreMessage::SwitchBinaryReport { value } => {
            one(alloc, end, Name::Switch, u32::from(value.byte()))
        }
        CoreMessage::SwitchMultilevelReport { level } => {
            one(alloc, end, Name::Level, u32::from(level.byte()))
        }
        CoreMessage::ThermostatModeReport { mode } => {
            one(alloc, end, Name::Mode, u32::from(mode.number()))
        }
        CoreMessage::ThermostatSetpointReport { kind, value } => one(
            alloc,
            end,
            Name::Setpoint(kind.number()),
            value.number().value(),
        ),
        CoreMessage::DoorLockOperationReport { mode, .. } => {
            one(alloc, end, Name::Lock, u32::from(mode.byte()))
        }
        CoreMessage::ConfigurationReport { parameter, value } => {
            one(alloc, end, Name::Config(*parameter), value.value())
        }
        _ => Ok(Sequence::new(alloc)),
    }
}

/// That value alone.
fn one(alloc: Global, end: EndPoint, name: Name, value: u32) -> Result<Sequence<Setting>, NoMemory>
    ensures { IfOk result (λ values.
        values ≡ value_at end name value ∷ []) }
{
    Sequence::from_slice(alloc, &[setting(end, name, value)])
}

/// Each node as a member of the group.
fn all_members(
    alloc: Global,
    end: EndPoint,
    group: u8,
    nodes: &[NodeId],
) -> Result<Sequence<Setting>, NoMemory>
    ensures { IfOk result (λ values.
        values ≡ map (λ node. value_at end
        (Name.Member group node) 1) nodes.now) }
{
    let mut values = Sequence::new(alloc);
    for node in nodes {
        let property = Property {
            end,
            name: Name::Member(group, *node),
        };
        values.push(Setting {
            property,
            value: MEMBER,
        })?;
    }
    Ok(values)
}

/// A value of a property of an end point.
fn setting(end: EndPoint, name: Name, value: u32) -> Setting
    ensures { result ≡ value_at end name value }
{
    Setting {
        property: Property { end, name },
        value,
    }
}
