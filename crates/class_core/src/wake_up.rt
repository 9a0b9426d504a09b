//! Wake Up (Wake Up Command Class).

ghost use Rattle.std.specs.Prelude.{◌≡◌};
ghost use Rattle.class_core.specs.Reading.{in_class};
ghost use Rattle.class_core.specs.MessageReading.{wake_up_by};

use crate::ClassFault;
use crate::fields::{byte, node, seconds};
use crate::message::CoreMessage;

/// The class.
pub const WAKE_UP: u8 = 0x84;

pub(crate) const INTERVAL_SET: u8 = 4;

/// The message of this class that the bytes spell.
#[tactic(auto, unfolding(crate::specs::Reading::in_class, crate::specs::MessageReading::interval_set_at))]
pub fn read_wake_up(bytes: &[u8]) -> Result<CoreMessage, ClassFault>
    ensures { result ≡ in_class wake_up_by bytes.now }
{
    match byte(bytes, 1)? {
        INTERVAL_SET => Ok(CoreMessage::WakeUpIntervalSet {
            seconds: seconds(bytes, 2)?,
            target: node(bytes, 5)?,
        }),
        command => Err(ClassFault::UnknownCommand(WAKE_UP, command)),
    }
}
