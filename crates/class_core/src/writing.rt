//! From messages to bytes.

ghost use Rattle.std.specs.Prelude.{◌≡◌, ◌++◌, take, drop, OnOk, IfOk};
ghost use Rattle.class_core.specs.Spelling.{form, IsInRange, Spells};

use crate::association::{self, ASSOCIATION};
use crate::basic::{self, BASIC};
use crate::configuration::{self, CONFIGURATION};
use crate::door_lock::{self, DOOR_LOCK};
use crate::forms::{
    default_and_size, node_number, put_decimal, put_nodes, put_number, put_numbers, put_seconds,
    put_word,
};
use crate::message::CoreMessage;
use crate::switch_binary::{self, SWITCH_BINARY};
use crate::switch_multilevel::{self, SWITCH_MULTILEVEL};
use crate::thermostat_mode::{self, THERMOSTAT_MODE};
use crate::thermostat_setpoint::{self, THERMOSTAT_SETPOINT};
use crate::wake_up::{self, WAKE_UP};
use std::alloc::Global;
use zw_base::{Bytes, NoMemory};

/// The class and the command of a message.
pub fn head(message: &CoreMessage) -> [u8; 2]
    ensures { result ≡ take 2 (form message.now) }
{
    match message {
        CoreMessage::BasicSet { .. } => [BASIC, basic::SET],
        CoreMessage::BasicGet => [BASIC, basic::GET],
        CoreMessage::BasicReport { .. } => [BASIC, basic::REPORT],
        CoreMessage::SwitchBinarySet { .. } => [SWITCH_BINARY, switch_binary::SET],
        CoreMessage::SwitchBinaryGet => [SWITCH_BINARY, switch_binary::GET],
        CoreMessage::SwitchBinaryReport { .. } => [SWITCH_BINARY, switch_binary::REPORT],
        CoreMessage::SwitchMultilevelSet { .. } => [SWITCH_MULTILEVEL, switch_multilevel::SET],
        CoreMessage::SwitchMultilevelGet => [SWITCH_MULTILEVEL, switch_multilevel::GET],
        CoreMessage::SwitchMultilevelReport { .. } => [
            SWITCH_MULTILEVEL,
            switch_multilevel::REPORT,
        ],
        CoreMessage::ThermostatModeSet { .. } => [THERMOSTAT_MODE, thermostat_mode::SET],
        CoreMessage::ThermostatModeGet => [THERMOSTAT_MODE, thermostat_mode::GET],
        CoreMessage::ThermostatModeReport { .. } => [THERMOSTAT_MODE, thermostat_mode::REPORT],
        CoreMessage::ThermostatSetpointSet { .. } => [
            THERMOSTAT_SETPOINT,
            thermostat_setpoint::SET,
        ],
        CoreMessage::ThermostatSetpointGet { .. } => [
            THERMOSTAT_SETPOINT,
            thermostat_setpoint::GET,
        ],
        CoreMessage::ThermostatSetpointReport { .. } => [
            THERMOSTAT_SETPOINT,
            thermostat_setpoint::REPORT,
        ],
        CoreMessage::DoorLockOperationSet { .. } => [DOOR_LOCK, door_lock::OPERATION_SET],
        CoreMessage::DoorLockOperationGet => [DOOR_LOCK, door_lock::OPERATION_GET],
        CoreMessage::DoorLockOperationReport { .. } => [DOOR_LOCK, door_lock::OPERATION_REPORT],
        CoreMessage::ConfigurationSet { .. } => [CONFIGURATION, configuration::SET],
        CoreMessage::ConfigurationGet { .. } => [CONFIGURATION, configuration::GET],
        CoreMessage::ConfigurationReport { .. } => [CONFIGURATION, configuration::REPORT],
        CoreMessage::ConfigurationBulkSet { .. } => [CONFIGURATION, configuration::BULK_SET],
        CoreMessage::AssociationSet { .. } => [ASSOCIATION, association::SET],
        CoreMessage::AssociationRemove { .. } => [ASSOCIATION, association::REMOVE],
        CoreMessage::WakeUpIntervalSet { .. } => [WAKE_UP, wake_up::INTERVAL_SET],
    }
}

/// Adds the fields after the command.
pub fn put_fields(out: &mut Bytes, message: &CoreMessage) -> Result<(), NoMemory>
    ensures ok { OnOk result (out.new ≡ out.old ++ drop 2 (form message.now)) }
    ensures range { OnOk result (IsInRange message.now) }
{
    match message {
        CoreMessage::BasicSet { value } | CoreMessage::BasicReport { value } => out.push(*value),
        CoreMessage::SwitchBinarySet { value } | CoreMessage::SwitchBinaryReport { value } =>
            out.push(value.byte()),
        CoreMessage::SwitchMultilevelSet { level }
        | CoreMessage::SwitchMultilevelReport { level } => out.push(level.byte()),
        CoreMessage::ThermostatModeSet { mode } | CoreMessage::ThermostatModeReport { mode } =>
            out.push(mode.number()),
        CoreMessage::ThermostatSetpointSet { kind, value }
        | CoreMessage::ThermostatSetpointReport { kind, value } => {
            out.push(kind.number())?;
            put_decimal(out, *value)
        }
        CoreMessage::ThermostatSetpointGet { kind } => out.push(kind.number()),
        CoreMessage::DoorLockOperationSet { mode } => out.push(mode.byte()),
        CoreMessage::DoorLockOperationReport {
            mode,
            levers,
            condition,
            minutes,
            seconds,
        } => { out.extend(&[mode.byte(), *levers, *condition, *minutes, *seconds]) }
        CoreMessage::ConfigurationSet {
            parameter,
            default,
            value,
        } => {
            out.extend(&[*parameter, default_and_size(*default, value.size())])?;
            put_number(out, *value)
        }
        CoreMessage::ConfigurationGet { parameter } => out.push(*parameter),
        CoreMessage::ConfigurationReport { parameter, value } => {
            out.extend(&[*parameter, value.size().bytes()])?;
            put_number(out, *value)
        }
        CoreMessage::ConfigurationBulkSet {
            offset,
            default,
            values,
        } => {
            put_word(out, *offset)?;
            out.extend(&[
                values.len() as u8,
                default_and_size(*default, values.size()),
            ])?;
            put_numbers(out, values)
        }
        CoreMessage::AssociationSet { group, members }
        | CoreMessage::AssociationRemove { group, members } => {
            out.push(*group)?;
            put_nodes(out, members)
        }
        CoreMessage::WakeUpIntervalSet { seconds, target } => {
            put_seconds(out, *seconds)?;
            out.push(node_number(*target))
        }
        _ => Ok(()),
    }
}

/// The written form of a message.
pub fn write(alloc: Global, message: &CoreMessage) -> Result<Bytes, NoMemory>
    ensures form { IfOk result (λ bytes. bytes ≡ form message.now) }
    // The written form is read as the message.
    ensures spelled { IfOk result (λ bytes. Spells message.now bytes) }
{
    let mut out = Bytes::from_slice(alloc, &head(message))?;
    put_fields(&mut out, message)?;
    Ok(out)
}
