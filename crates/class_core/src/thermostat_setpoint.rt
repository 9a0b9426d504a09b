//! Thermostat Setpoint (Thermostat Setpoint Command Class).

ghost use Rattle.std.specs.Prelude.{◌≡◌};
ghost use Rattle.class_core.specs.Reading.{in_class};
ghost use Rattle.class_core.specs.MessageReading.{setpoint_at, thermostat_setpoint_by};

use crate::ClassFault;
use crate::fields::{byte, decimal, setpoint_kind};
use crate::message::CoreMessage;

/// The class.
pub const THERMOSTAT_SETPOINT: u8 = 0x43;

pub(crate) const SET: u8 = 1;

pub(crate) const GET: u8 = 2;

pub(crate) const REPORT: u8 = 3;

/// The message of this class that the bytes spell.
#[tactic(auto, unfolding(crate::specs::Reading::in_class, crate::specs::MessageReading::setpoint_at))]
pub fn read_thermostat_setpoint(bytes: &[u8]) -> Result<CoreMessage, ClassFault>
    ensures { result ≡ in_class thermostat_setpoint_by bytes.now }
{
    match byte(bytes, 1)? {
        SET => Ok(CoreMessage::ThermostatSetpointSet {
            kind: setpoint_kind(bytes, 2)?,
            value: decimal(bytes, 3)?,
        }),
        GET => Ok(CoreMessage::ThermostatSetpointGet {
            kind: setpoint_kind(bytes, 2)?,
        }),
        REPORT => Ok(CoreMessage::ThermostatSetpointReport {
            kind: setpoint_kind(bytes, 2)?,
            value: decimal(bytes, 3)?,
        }),
        command => Err(ClassFault::UnknownCommand(THERMOSTAT_SETPOINT, command)),
    }
}
