//! Door Lock (Door Lock Command Class).

ghost use Rattle.std.specs.Prelude.{◌≡◌};
ghost use Rattle.class_core.specs.Reading.{in_class};
ghost use Rattle.class_core.specs.MessageReading.{door_lock_by};

use crate::ClassFault;
use crate::fields::{byte, lock_mode};
use crate::message::CoreMessage;

/// The class.
pub const DOOR_LOCK: u8 = 0x62;

pub(crate) const OPERATION_SET: u8 = 1;

pub(crate) const OPERATION_GET: u8 = 2;

pub(crate) const OPERATION_REPORT: u8 = 3;

/// The message of this class that the bytes spell.
#[tactic(auto, unfolding(crate::specs::Reading::in_class, crate::specs::MessageReading::lock_report_at))]
pub fn read_door_lock(bytes: &[u8]) -> Result<CoreMessage, ClassFault>
    ensures { result ≡ in_class door_lock_by bytes.now }
{
    match byte(bytes, 1)? {
        OPERATION_SET => Ok(CoreMessage::DoorLockOperationSet {
            mode: lock_mode(bytes, 2)?,
        }),
        OPERATION_GET => Ok(CoreMessage::DoorLockOperationGet),
        OPERATION_REPORT => Ok(CoreMessage::DoorLockOperationReport {
            mode: lock_mode(bytes, 2)?,
            levers: byte(bytes, 3)?,
            condition: byte(bytes, 4)?,
            minutes: byte(bytes, 5)?,
            seconds: byte(bytes, 6)?,
        }),
        command => Err(ClassFault::UnknownCommand(DOOR_LOCK, command)),
    }
}
