//! The classes of sensors: Sensor Binary (Binary Sensor Command Class) and Sensor Multilevel (Multilevel Sensor
//! Command Class).

ghost use Rattle.std.specs.Prelude.{◌≡◌};
ghost use Rattle.class_core.specs.Reading.{in_class};
ghost use Rattle.class_info.specs.InfoReading.{sensor_binary_by, sensor_multilevel_by};

use crate::message::InfoMessage;
use class_core::ClassFault;
use class_core::fields::{byte, decimal, switch};

pub(crate) const SENSOR_BINARY: u8 = 0x30;

pub(crate) const BINARY_GET: u8 = 2;

pub(crate) const BINARY_REPORT: u8 = 3;

pub(crate) const SENSOR_MULTILEVEL: u8 = 0x31;

pub(crate) const MULTILEVEL_GET: u8 = 4;

pub(crate) const MULTILEVEL_REPORT: u8 = 5;

/// The message of Sensor Binary that the bytes spell.
#[tactic(auto, unfolding(class_core::specs::Reading::in_class))]
pub(crate) fn read_sensor_binary(bytes: &[u8]) -> Result<InfoMessage, ClassFault>
    ensures { result ≡ in_class sensor_binary_by bytes.now }
{
    match byte(bytes, 1)? {
        BINARY_GET => Ok(InfoMessage::SensorBinaryGet),
        BINARY_REPORT => Ok(InfoMessage::SensorBinaryReport {
            value: switch(bytes, 2)?,
        }),
        command => Err(ClassFault::UnknownCommand(SENSOR_BINARY, command)),
    }
}

/// The message of Sensor Multilevel that the bytes spell.
#[tactic(auto, unfolding(class_core::specs::Reading::in_class, crate::specs::InfoReading::sensor_report_at))]
pub(crate) fn read_sensor_multilevel(bytes: &[u8]) -> Result<InfoMessage, ClassFault>
    ensures { result ≡ in_class sensor_multilevel_by bytes.now }
{
    match byte(bytes, 1)? {
        MULTILEVEL_GET => Ok(InfoMessage::SensorMultilevelGet),
        MULTILEVEL_REPORT => Ok(InfoMessage::SensorMultilevelReport {
            kind: byte(bytes, 2)?,
            value: decimal(bytes, 3)?,
        }),
        command => Err(ClassFault::UnknownCommand(SENSOR_MULTILEVEL, command)),
    }
}
