//! From bytes to messages.

ghost use Rattle.std.specs.Prelude.{◌≡◌, ℕ, List, IfOk, Ok};
ghost use Rattle.class_core.specs.declared.message.CoreMessage.{CoreMessage};
ghost use Rattle.class_core.specs.Spelling.{Spells};
ghost use Rattle.class_core.specs.Reading.{Gives};
ghost use Rattle.class_core.specs.MessageReading.{message_at};

use crate::ClassFault;
use crate::association::{ASSOCIATION, read_association};
use crate::basic::{BASIC, read_basic};
use crate::configuration::{CONFIGURATION, read_configuration};
use crate::door_lock::{DOOR_LOCK, read_door_lock};
use crate::message::CoreMessage;
use crate::switch_binary::{SWITCH_BINARY, read_switch_binary};
use crate::switch_multilevel::{SWITCH_MULTILEVEL, read_switch_multilevel};
use crate::thermostat_mode::{THERMOSTAT_MODE, read_thermostat_mode};
use crate::thermostat_setpoint::{THERMOSTAT_SETPOINT, read_thermostat_setpoint};
use crate::wake_up::{WAKE_UP, read_wake_up};
use std::alloc::Global;

#[tactic(auto, unfolding(crate::specs::MessageReading::message_at))]
fn read_row(alloc: Global, bytes: &[u8]) -> Result<CoreMessage, ClassFault>
    ensures { Gives result (message_at bytes.now) }
{
    match bytes {
        [] => Err(ClassFault::Empty),
        [BASIC, ..] => read_basic(bytes),
        [SWITCH_BINARY, ..] => read_switch_binary(bytes),
        [SWITCH_MULTILEVEL, ..] => read_switch_multilevel(bytes),
        [THERMOSTAT_MODE, ..] => read_thermostat_mode(bytes),
        [THERMOSTAT_SETPOINT, ..] => read_thermostat_setpoint(bytes),
        [DOOR_LOCK, ..] => read_door_lock(bytes),
        [CONFIGURATION, ..] => read_configuration(alloc, bytes),
        [WAKE_UP, ..] => read_wake_up(bytes),
        [ASSOCIATION, ..] => read_association(alloc, bytes),
        [class, ..] => Err(ClassFault::UnknownClass(*class)),
    }
}

/// The message that the bytes spell. A tail after its fields, and bits that its row does not name, are ignored.
pub fn read(alloc: Global, bytes: &[u8]) -> Result<CoreMessage, ClassFault>
    // What is read is spelled so.
    ensures found { IfOk result (λ message. Spells message bytes.now) }
    // What is spelled so is read, unless there was no memory.
    ensures only { (message : CoreMessage) → Spells message bytes.now → Gives result (Ok message) }
    // Which fault it is.
    ensures exact { Gives result (message_at bytes.now) }
{
    read_row(alloc, bytes)
}

/// A law: no bytes spell two messages.
pub fn one_message()
    ensures { (bytes : List ℕ) (a b : CoreMessage) → Spells a bytes → Spells b bytes → a ≡ b }
{}
