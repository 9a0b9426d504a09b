//! Basic (Basic Command Class).

ghost use Rattle.std.specs.Prelude.{◌≡◌};
ghost use Rattle.class_core.specs.Reading.{in_class};
ghost use Rattle.class_core.specs.MessageReading.{basic_by};

use crate::ClassFault;
use crate::fields::byte;
use crate::message::CoreMessage;

/// The class.
pub const BASIC: u8 = 0x20;

pub(crate) const SET: u8 = 1;

pub(crate) const GET: u8 = 2;

pub(crate) const REPORT: u8 = 3;

/// The message of this class that the bytes spell.
#[tactic(auto, unfolding(crate::specs::Reading::in_class))]
pub fn read_basic(bytes: &[u8]) -> Result<CoreMessage, ClassFault>
    ensures { result ≡ in_class basic_by bytes.now }
{
    match byte(bytes, 1)? {
        SET => Ok(CoreMessage::BasicSet {
            value: byte(bytes, 2)?,
        }),
        GET => Ok(CoreMessage::BasicGet),
        REPORT => Ok(CoreMessage::BasicReport {
            value: byte(bytes, 2)?,
        }),
        command => Err(ClassFault::UnknownCommand(BASIC, command)),
    }
}
