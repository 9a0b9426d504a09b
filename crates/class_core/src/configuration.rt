//! Configuration (Configuration Command Class).

ghost use Rattle.std.specs.Prelude.{◌≡◌};
ghost use Rattle.class_core.specs.Reading.{Gives, in_class};
ghost use Rattle.class_core.specs.MessageReading.{configuration_by, configuration_set_at, configuration_report_at, configuration_bulk_at};

use crate::ClassFault;
use crate::fields::{byte, high_bit, number, numbers, size, size_byte, word};
use crate::message::CoreMessage;
use std::alloc::Global;

/// The class.
pub const CONFIGURATION: u8 = 0x70;

pub(crate) const SET: u8 = 4;

pub(crate) const GET: u8 = 5;

pub(crate) const REPORT: u8 = 6;

pub(crate) const BULK_SET: u8 = 7;

/// The message of this class that the bytes spell.
#[tactic(auto, unfolding(crate::specs::Reading::in_class))]
pub fn read_configuration(alloc: Global, bytes: &[u8]) -> Result<CoreMessage, ClassFault>
    ensures { Gives result (in_class configuration_by bytes.now) }
{
    match byte(bytes, 1)? {
        SET => read_set(bytes),
        GET => Ok(CoreMessage::ConfigurationGet {
            parameter: byte(bytes, 2)?,
        }),
        REPORT => read_report(bytes),
        BULK_SET => read_bulk_set(alloc, bytes),
        command => Err(ClassFault::UnknownCommand(CONFIGURATION, command)),
    }
}

#[tactic(auto, unfolding(crate::specs::MessageReading::configuration_set_at))]
fn read_set(bytes: &[u8]) -> Result<CoreMessage, ClassFault>
    ensures { result ≡ configuration_set_at bytes.now }
{
    let parameter = byte(bytes, 2)?;
    let default = high_bit(bytes, 3)?;
    let size = size(bytes, 3)?;
    let value = number(bytes, 4, size)?;
    Ok(CoreMessage::ConfigurationSet {
        parameter,
        default,
        value,
    })
}

#[tactic(auto, unfolding(crate::specs::MessageReading::configuration_report_at))]
fn read_report(bytes: &[u8]) -> Result<CoreMessage, ClassFault>
    ensures { result ≡ configuration_report_at bytes.now }
{
    let parameter = byte(bytes, 2)?;
    let size = size_byte(bytes, 3)?;
    let value = number(bytes, 4, size)?;
    Ok(CoreMessage::ConfigurationReport { parameter, value })
}

#[tactic(auto, unfolding(crate::specs::MessageReading::configuration_bulk_at))]
fn read_bulk_set(alloc: Global, bytes: &[u8]) -> Result<CoreMessage, ClassFault>
    ensures { Gives result (configuration_bulk_at bytes.now) }
{
    let offset = word(bytes, 2)?;
    let count = byte(bytes, 4)?;
    let default = high_bit(bytes, 5)?;
    let size = size(bytes, 5)?;
    let values = numbers(alloc, bytes, 6, size, count)?;
    Ok(CoreMessage::ConfigurationBulkSet {
        offset,
        default,
        values,
    })
}
