//! Switch Binary (Binary Switch Command Class).

ghost use Rattle.std.specs.Prelude.{◌≡◌};
ghost use Rattle.class_core.specs.Reading.{in_class};
ghost use Rattle.class_core.specs.MessageReading.{switch_binary_by};

use crate::ClassFault;
use crate::fields::{byte, switch};
use crate::message::CoreMessage;

/// The class.
pub const SWITCH_BINARY: u8 = 0x25;

pub(crate) const SET: u8 = 1;

pub(crate) const GET: u8 = 2;

pub(crate) const REPORT: u8 = 3;

/// The message of this class that the bytes spell.
#[tactic(auto, unfolding(crate::specs::Reading::in_class))]
pub fn read_switch_binary(bytes: &[u8]) -> Result<CoreMessage, ClassFault>
    ensures { result ≡ in_class switch_binary_by bytes.now }
{
    match byte(bytes, 1)? {
        SET => Ok(CoreMessage::SwitchBinarySet {
            value: switch(bytes, 2)?,
        }),
        GET => Ok(CoreMessage::SwitchBinaryGet),
        REPORT => Ok(CoreMessage::SwitchBinaryReport {
            value: switch(bytes, 2)?,
        }),
        command => Err(ClassFault::UnknownCommand(SWITCH_BINARY, command)),
    }
}
