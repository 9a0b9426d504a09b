//! Association (Association Command Class).

ghost use Rattle.class_core.specs.Reading.{Gives, in_class};
ghost use Rattle.class_core.specs.MessageReading.{association_by, association_at};

use crate::ClassFault;
use crate::fields::{byte, nodes};
use crate::message::CoreMessage;
use std::alloc::Global;

/// The class.
pub const ASSOCIATION: u8 = 0x85;

pub(crate) const SET: u8 = 1;

pub(crate) const REMOVE: u8 = 4;

/// The message of this class that the bytes spell.
#[tactic(auto, unfolding(crate::specs::Reading::in_class, crate::specs::MessageReading::association_at))]
pub fn read_association(alloc: Global, bytes: &[u8]) -> Result<CoreMessage, ClassFault>
    ensures { Gives result (in_class association_by bytes.now) }
{
    match byte(bytes, 1)? {
        SET => Ok(CoreMessage::AssociationSet {
            group: byte(bytes, 2)?,
            members: nodes(alloc, bytes, 3)?,
        }),
        REMOVE => Ok(CoreMessage::AssociationRemove {
            group: byte(bytes, 2)?,
            members: nodes(alloc, bytes, 3)?,
        }),
        command => Err(ClassFault::UnknownCommand(ASSOCIATION, command)),
    }
}
