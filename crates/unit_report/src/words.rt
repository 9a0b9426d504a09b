//! The words for what is wrong.

ghost use Rattle.std.specs.Prelude.{◌≡◌, IfOk, string_bytes};
ghost use Rattle.std.specs.List.{join_with_byte};
ghost use Rattle.unit_report.specs.Words.{byte_word, check_word, bytes_word, body_words, wrap_words, class_words};

use chip_functions::BodyFault;
use class_core::ClassFault;
use encap::WrapFault;
use std::alloc::{AllocError, Global};

/// A byte as two hex digits.
pub fn show_byte(alloc: Global, byte: u8) -> Result<String, AllocError>
    ensures { IfOk result (λ text. string_bytes text ≡ byte_word byte) }
{
    hex::encode_upper(alloc, [byte].as_slice())
}

/// A check of 16 bits as four hex digits.
fn show_check(alloc: Global, check: u16) -> Result<String, AllocError>
    ensures { IfOk result (λ text. string_bytes text ≡ check_word check) }
{
    let bytes = [(check / 256) as u8, (check % 256) as u8];
    hex::encode_upper(alloc, bytes.as_slice())
}

/// Bytes as hex digits, `-` where there are none.
pub fn show_bytes(alloc: Global, bytes: &[u8]) -> Result<String, AllocError>
    ensures { IfOk result (λ text. string_bytes text ≡ bytes_word bytes.now) }
{
    match bytes {
        [] => String::from_str(alloc, "-"),
        [..] => hex::encode_upper(alloc, bytes),
    }
}

/// The words for what is wrong with a body.
pub fn show_body_fault(alloc: Global, fault: BodyFault) -> Result<String, AllocError>
    ensures { IfOk result (λ text. string_bytes text ≡ join_with_byte 32 (body_words fault)) }
{
    match fault {
        BodyFault::UnknownFunction(func) => {
            let func = show_byte(alloc, func)?;
            format!(in alloc; "unknownfunction {func}")
        }
        BodyFault::Short { need, got } => format!(in alloc; "short {need} {got}"),
        BodyFault::BadField(place) => format!(in alloc; "badfield {place}"),
        BodyFault::NoMemory => String::from_str(alloc, "nomemory"),
    }
}

/// The words for what is wrong with the wraps of a payload.
pub fn show_wrap_fault(alloc: Global, fault: WrapFault) -> Result<String, AllocError>
    ensures { IfOk result (λ text. string_bytes text ≡ join_with_byte 32 (wrap_words fault)) }
{
    match fault {
        WrapFault::OutOfOrder(class) => {
            let class = show_byte(alloc, class)?;
            format!(in alloc; "outoforder {class}")
        }
        WrapFault::Length { said, got } => format!(in alloc; "length {said} {got}"),
        WrapFault::BadCrc { want, got } => {
            let want = show_check(alloc, want)?;
            let got = show_check(alloc, got)?;
            format!(in alloc; "badcrc {want} {got}")
        }
        WrapFault::TooLong(len) => format!(in alloc; "toolong {len}"),
        WrapFault::BitAddress => String::from_str(alloc, "bitaddress"),
        WrapFault::NoMemory => String::from_str(alloc, "nomemory"),
    }
}

/// The words for what is wrong with a command.
pub fn show_class_fault(alloc: Global, fault: ClassFault) -> Result<String, AllocError>
    ensures { IfOk result (λ text. string_bytes text ≡ join_with_byte 32 (class_words fault)) }
{
    match fault {
        ClassFault::Empty => String::from_str(alloc, "empty"),
        ClassFault::UnknownClass(class) => {
            let class = show_byte(alloc, class)?;
            format!(in alloc; "unknownclass {class}")
        }
        ClassFault::UnknownCommand(class, command) => {
            let class = show_byte(alloc, class)?;
            let command = show_byte(alloc, command)?;
            format!(in alloc; "unknowncommand {class} {command}")
        }
        ClassFault::Short(need) => format!(in alloc; "short {need}"),
        ClassFault::BadValue(at) => format!(in alloc; "badvalue {at}"),
        ClassFault::NoMemory => String::from_str(alloc, "nomemory"),
    }
}
