//! The lines of bytes.

ghost use Rattle.std.specs.Prelude.{◌≡◌, IfOk, IfErr, string_bytes};
ghost use Rattle.unit_report.specs.Named.{Named, Shows, lines_text, rest_lines};
ghost use Rattle.unit_report.specs.Report.{Checks, IsRefused, AddsItems};

use crate::hex_text::{CheckFault, read_hex};
use crate::items::show_item;
use serial_frame::Decoder;
use std::alloc::{AllocError, Global};
use zw_base::{Bytes, NoMemory};
use zw_words::Side;

/// What the bytes of a hex text from that side are: its lines, each with a line feed.
pub fn check(alloc: Global, text: &[u8], from: Side) -> Result<Bytes, CheckFault>
    ensures lines { IfOk result (Checks from text.now) }
    ensures bad_hex { IfErr result (IsRefused text.now) }
{
    let bytes = read_hex(alloc, text)?;
    Ok(report(alloc, bytes.as_slice(), from)?)
}

/// What bytes from that side are: their lines, each with a line feed.
pub fn report(alloc: Global, bytes: &[u8], from: Side) -> Result<Bytes, NoMemory>
    ensures { IfOk result (Shows (Named from bytes.now)) }
{
    let mut out = Bytes::new(alloc);
    let rest = add_items(alloc, bytes, from, &mut out)?;
    let line = show_rest(alloc, rest)?;
    out.extend(line.as_bytes())?;
    Ok(out)
}

/// The line of so many bytes of an unfinished frame, where there are some.
fn show_rest(alloc: Global, left: u16) -> Result<String, AllocError>
    ensures { IfOk result (λ text. string_bytes text ≡ lines_text (rest_lines left)) }
{
    if left == 0 {
        return Ok(String::new(alloc));
    }
    let text = format!(in alloc; "unfinished {left}\n")?;
    Ok(text)
}

/// Adds the lines of all items in the bytes. The answer is the number of bytes that are left.
fn add_items(alloc: Global, bytes: &[u8], from: Side, out: &mut Bytes) -> Result<u16, NoMemory>
    ensures { IfOk result (AddsItems from bytes.now out.old out.new) }
{
    let mut decoder = Decoder::new(alloc);
    let mut left = bytes;
    loop {
        let (found, after) = decoder.next_item(left)?;
        let Some(item) = found else {
            return Ok(decoder.rest());
        };
        left = after;
        let lines = show_item(alloc, from, &item)?;
        out.extend(lines.as_bytes())?;
    }
}
