//! Thermostat Mode (Thermostat Mode Command Class).

ghost use Rattle.std.specs.Prelude.{◌≡◌};
ghost use Rattle.class_core.specs.Reading.{in_class};
ghost use Rattle.class_core.specs.MessageReading.{thermostat_mode_by};

use crate::ClassFault;
use crate::fields::{byte, mode};
use crate::message::CoreMessage;

/// The class.
pub const THERMOSTAT_MODE: u8 = 0x40;

pub(crate) const SET: u8 = 1;

pub(crate) const GET: u8 = 2;

pub(crate) const REPORT: u8 = 3;

/// The message of this class that the bytes spell.
#[tactic(auto, unfolding(crate::specs::Reading::in_class))]
pub fn read_thermostat_mode(bytes: &[u8]) -> Result<CoreMessage, ClassFault>
    ensures { result ≡ in_class thermostat_mode_by bytes.now }
{
    match byte(bytes, 1)? {
        SET => Ok(CoreMessage::ThermostatModeSet {
            mode: mode(bytes, 2)?,
        }),
        GET => Ok(CoreMessage::ThermostatModeGet),
        REPORT => Ok(CoreMessage::ThermostatModeReport {
            mode: mode(bytes, 2)?,
        }),
        command => Err(ClassFault::UnknownCommand(THERMOSTAT_MODE, command)),
    }
}
