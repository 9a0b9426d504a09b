//! Switch Multilevel (Multilevel Switch Command Class).

ghost use Rattle.std.specs.Prelude.{◌≡◌};
ghost use Rattle.class_core.specs.Reading.{in_class};
ghost use Rattle.class_core.specs.MessageReading.{switch_multilevel_by};

use crate::ClassFault;
use crate::fields::{byte, level};
use crate::message::CoreMessage;

/// The class.
pub const SWITCH_MULTILEVEL: u8 = 0x26;

pub(crate) const SET: u8 = 1;

pub(crate) const GET: u8 = 2;

pub(crate) const REPORT: u8 = 3;

/// The message of this class that the bytes spell.
#[tactic(auto, unfolding(crate::specs::Reading::in_class))]
pub fn read_switch_multilevel(bytes: &[u8]) -> Result<CoreMessage, ClassFault>
    ensures { result ≡ in_class switch_multilevel_by bytes.now }
{
    match byte(bytes, 1)? {
        SET => Ok(CoreMessage::SwitchMultilevelSet {
            level: level(bytes, 2)?,
        }),
        GET => Ok(CoreMessage::SwitchMultilevelGet),
        REPORT => Ok(CoreMessage::SwitchMultilevelReport {
            level: level(bytes, 2)?,
        }),
        command => Err(ClassFault::UnknownCommand(SWITCH_MULTILEVEL, command)),
    }
}
