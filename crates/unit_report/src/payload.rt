//! The line of a payload.

ghost use Rattle.std.specs.Prelude.{◌≡◌, ◌≤◌, length, string_bytes, IfOk};
ghost use Rattle.unit_report.specs.Named.{form_of, first_fault, commands_line, IsWrappedLine, IsLineOf};

use crate::words::{show_class_fault, show_wrap_fault};
use class_core::ClassFault;
use class_info::read;
use encap::{WrapFault, unpack};
use std::alloc::Global;
use zw_base::{Bytes, NoMemory};

/// The class of sealed messages and their nonces (Security 0).
const SECURITY: u8 = 0x98;

/// The class of segments (Transport Service).
const TRANSPORT: u8 = 0x55;

/// What a payload is by its first bytes.
#[derive(Clone, Copy, Debug, PartialEq, Eq)]
pub(crate) enum Form {
    Sealed,
    Segment,
    Wrapped,
}

/// What a payload is by its first bytes.
fn form_of(payload: &[u8]) -> Form
    ensures { result ≡ form_of payload.now }
{
    match payload {
        [SECURITY, ..] => Form::Sealed,
        [TRANSPORT, 0xC0..=0xC7 | 0xE0..=0xE7, ..] => Form::Segment,
        _ => Form::Wrapped,
    }
}

/// The line of a payload of at most 65,534 bytes.
pub(crate) fn payload_line(alloc: Global, payload: &[u8]) -> Result<String, NoMemory>
    requires { length payload.now ≤ 65534 }
    ensures { IfOk result (λ text. IsLineOf (form_of payload.now) payload.now (string_bytes text)) }
{
    match form_of(payload) {
        Form::Sealed => Ok(String::from_str(alloc, "  payload sealed")?),
        Form::Segment => Ok(String::from_str(alloc, "  payload segment")?),
        Form::Wrapped => wrapped_line(alloc, payload),
    }
}

/// The line of a payload in its wraps.
fn wrapped_line(alloc: Global, payload: &[u8]) -> Result<String, NoMemory>
    requires { length payload.now ≤ 65534 }
    ensures { IfOk result (λ text. IsWrappedLine payload.now (string_bytes text)) }
{
    match unpack(alloc, payload) {
        Ok(opened) => commands_line(alloc, opened.commands.as_slice()),
        Err(WrapFault::NoMemory) => Err(NoMemory),
        Err(fault) => {
            let words = show_wrap_fault(alloc, fault)?;
            Ok(format!(in alloc; "  payload {words}")?)
        }
    }
}

/// The line of commands: all of them are messages, or the first that is invalid.
fn commands_line(alloc: Global, commands: &[Bytes]) -> Result<String, NoMemory>
    ensures { IfOk result (λ text. string_bytes text ≡ commands_line (first_fault commands.now)) }
{
    match first_fault(alloc, commands)? {
        None => Ok(String::from_str(alloc, "  payload ok")?),
        Some(fault) => {
            let words = show_class_fault(alloc, fault)?;
            Ok(format!(in alloc; "  payload {words}")?)
        }
    }
}

/// What is wrong with the first of the commands that is no message.
fn first_fault(alloc: Global, commands: &[Bytes]) -> Result<Option<ClassFault>, NoMemory>
    ensures { IfOk result (λ fault. fault ≡ first_fault commands.now) }
{
    for command in commands {
        match read(alloc, command.as_slice()) {
            Ok(_) => {}
            Err(ClassFault::NoMemory) => return Err(NoMemory),
            Err(fault) => return Ok(Some(fault)),
        }
    }
    Ok(None)
}
