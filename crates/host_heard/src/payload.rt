//! From a payload to what it tells.

ghost use Rattle.std.specs.Prelude.{◌≡◌, ◌≤◌, length, IfOk};
ghost use Rattle.encap.specs.Opening.{begins_with};
ghost use Rattle.host_heard.specs.Telling.{told_all, end_of, heard_by, heard_at};

use crate::Told;
use crate::told::told_of;
use class_core::ClassFault;
use class_info::read;
use encap::{Ends, WrapFault, unpack};
use std::alloc::Global;
use zw_base::{Bytes, EndPoint, NoMemory, Sequence};

/// Security 0 (Z-Wave Transport-Encapsulation Command Class Specification).
const SECURITY: u8 = 0x98;
/// Security Message Encapsulation.
const MESSAGE: u8 = 0x81;

/// What a payload is.
#[derive(Drop)]
pub enum Heard {
    /// Messages that can be read, all of them, in their order.
    Messages(Sequence<Told>),
    /// A Security message, which has to be opened first (Security 0).
    Sealed,
    /// What no messages relate to.
    Unread,
}

/// What a payload tells. One message that cannot be read makes the whole unread.
#[tactic(auto, unfolding(crate::specs::Telling::heard_at))]
pub fn read_payload(alloc: Global, payload: &[u8]) -> Result<Heard, NoMemory>
    requires { length payload.now ≤ 65534 }
    ensures { IfOk result (λ heard. heard ≡ heard_at payload.now) }
{
    if is_sealed(payload) {
        return Ok(Heard::Sealed);
    }
    match unpack(alloc, payload) {
        Ok(opened) => read_all(
            alloc,
            source_of(opened.plan.channel),
            opened.commands.as_slice(),
        ),
        Err(WrapFault::NoMemory) => Err(NoMemory),
        Err(_) => Ok(Heard::Unread),
    }
}

/// Whether it is a Security message.
fn is_sealed(payload: &[u8]) -> bool
    ensures { result ≡ begins_with payload.now 152 129 }
{
    matches!(payload, [SECURITY, MESSAGE, ..])
}

/// The end point that a message comes from.
fn source_of(ends: Option<Ends>) -> EndPoint
    ensures { result ≡ end_of ends }
{
    match ends {
        Some(ends) => ends.source,
        None => EndPoint::root(),
    }
}

/// What messages from that end point tell.
fn read_all(alloc: Global, end: EndPoint, commands: &[Bytes]) -> Result<Heard, NoMemory>
    ensures { IfOk result (λ heard.
        heard ≡ heard_by (told_all end commands.now)) }
{
    let mut messages: Sequence<Told> = Sequence::new(alloc);
    for command in commands {
        match read(alloc, command.as_slice()) {
            Ok(message) => messages.push(told_of(alloc, end, &message)?)?,
            Err(ClassFault::NoMemory) => return Err(NoMemory),
            Err(_) => return Ok(Heard::Unread),
        }
    }
    Ok(Heard::Messages(messages))
}
