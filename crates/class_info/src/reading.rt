//! From bytes to messages.

ghost use Rattle.std.specs.Prelude.{◌≡◌, ℕ, List, IfOk, Ok};
ghost use Rattle.class_core.specs.Reading.{Gives};
ghost use Rattle.class_info.specs.declared.message.InfoMessage.{InfoMessage};
ghost use Rattle.class_info.specs.InfoSpelling.{Spells};
ghost use Rattle.class_info.specs.InfoReading.{own_at, shared_at, info_at};

use crate::management::{
    ASSOCIATION, BATTERY, MANUFACTURER_SPECIFIC, NOTIFICATION, VERSION, WAKE_UP, read_association,
    read_battery, read_manufacturer, read_notification, read_version, read_wake_up,
};
use crate::message::InfoMessage;
use crate::sensor::{SENSOR_BINARY, SENSOR_MULTILEVEL, read_sensor_binary, read_sensor_multilevel};
use crate::transport::{
    SECURITY, SUPERVISION, TRANSPORT, read_security, read_supervision, read_transport,
};
use class_core::ClassFault;
use class_core::fields::byte;
use std::alloc::Global;

/// A message of a class that no actuator has.
#[tactic(auto, unfolding(crate::specs::InfoReading::own_at))]
fn read_own(bytes: &[u8]) -> Result<InfoMessage, ClassFault>
    ensures { result ≡ own_at bytes.now }
{
    match byte(bytes, 0)? {
        SENSOR_BINARY => read_sensor_binary(bytes),
        SENSOR_MULTILEVEL => read_sensor_multilevel(bytes),
        NOTIFICATION => read_notification(bytes),
        MANUFACTURER_SPECIFIC => read_manufacturer(bytes),
        BATTERY => read_battery(bytes),
        VERSION => read_version(bytes),
        SUPERVISION => read_supervision(bytes),
        SECURITY => read_security(bytes),
        TRANSPORT => read_transport(bytes),
        class => Err(ClassFault::UnknownClass(class)),
    }
}

/// A message that asks or tells, of a class that has actuators' messages too.
#[tactic(auto, unfolding(crate::specs::InfoReading::shared_at))]
fn read_shared(alloc: Global, bytes: &[u8]) -> Result<InfoMessage, ClassFault>
    ensures { Gives result (shared_at bytes.now) }
{
    match byte(bytes, 0)? {
        WAKE_UP => read_wake_up(bytes),
        ASSOCIATION => read_association(alloc, bytes),
        class => Err(ClassFault::UnknownCommand(class, byte(bytes, 1)?)),
    }
}

#[tactic(auto, unfolding(crate::specs::InfoReading::info_at))]
fn read_row(alloc: Global, bytes: &[u8]) -> Result<InfoMessage, ClassFault>
    ensures { Gives result (info_at bytes.now) }
{
    match class_core::read(alloc, bytes) {
        Ok(message) => Ok(InfoMessage::Core(message)),
        Err(ClassFault::UnknownClass(_)) => read_own(bytes),
        Err(ClassFault::UnknownCommand(_, _)) => read_shared(alloc, bytes),
        Err(fault) => Err(fault),
    }
}

/// The message that the bytes spell. A tail after its fields, and bits that its row does not name, are ignored.
pub fn read(alloc: Global, bytes: &[u8]) -> Result<InfoMessage, ClassFault>
    // What is read is spelled so.
    ensures found { IfOk result (λ message. Spells message bytes.now) }
    // What is spelled so is read, unless there was no memory.
    ensures only { (message : InfoMessage) → Spells message bytes.now → Gives result (Ok message) }
    // Which fault it is.
    ensures exact { Gives result (info_at bytes.now) }
{
    read_row(alloc, bytes)
}

/// A law: no bytes spell two messages.
pub fn one_message()
    ensures { (bytes : List ℕ) (a b : InfoMessage) → Spells a bytes → Spells b bytes → a ≡ b }
{}
