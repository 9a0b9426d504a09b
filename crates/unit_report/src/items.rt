//! The lines of an item.

ghost use Rattle.std.specs.Prelude.{◌≡◌, ◌∷◌, [], string_bytes, IfOk};
ghost use Rattle.unit_report.specs.Named.{said, kind_word, frame_line, refusal_words, item_line, AreBelowItem, AreOfItems, Shows};

use crate::body::show_below;
use crate::words::{show_byte, show_bytes};
use serial_frame::{Frame, Item, Kind, Refusal, Unit};
use std::alloc::{AllocError, Global};
use zw_base::NoMemory;
use zw_words::Side;

/// The lines of an item from that side, each with a line feed.
pub(crate) fn show_item(alloc: Global, from: Side, item: &Item) -> Result<String, NoMemory>
    ensures { IfOk result (λ text. Shows (AreOfItems from (item.now ∷ [])) (string_bytes text)) }
{
    let line = item_line(alloc, item)?;
    let below = show_below_item(alloc, from, item)?;
    Ok(format!(in alloc; "{line}\n{below}")?)
}

/// The first line of an item.
fn item_line(alloc: Global, item: &Item) -> Result<String, AllocError>
    ensures { IfOk result (λ text. string_bytes text ≡ item_line item.now) }
{
    match item {
        Item::Good(Unit::Ack) => String::from_str(alloc, "ack"),
        Item::Good(Unit::Nak) => String::from_str(alloc, "nak"),
        Item::Good(Unit::Can) => String::from_str(alloc, "can"),
        Item::Good(Unit::Framed(frame)) => frame_line(alloc, frame),
        Item::Refused(refusal) => refusal_line(alloc, *refusal),
    }
}

/// The lines below it, each with a line feed: a frame alone has some.
fn show_below_item(alloc: Global, from: Side, item: &Item) -> Result<String, NoMemory>
    ensures { IfOk result (λ text. Shows (AreBelowItem from item.now) (string_bytes text)) }
{
    match item {
        Item::Good(Unit::Framed(frame)) => show_below(alloc, from, frame),
        Item::Good(Unit::Ack | Unit::Nak | Unit::Can) | Item::Refused(_) => Ok(String::new(alloc)),
    }
}

/// The line of a frame.
fn frame_line(alloc: Global, frame: &Frame) -> Result<String, AllocError>
    ensures { IfOk result (λ text. string_bytes text ≡ frame_line frame.now) }
{
    let kind = kind_word(frame.kind);
    let func = show_byte(alloc, frame.func)?;
    let body = show_bytes(alloc, frame.body.as_slice())?;
    format!(in alloc; "frame {kind} {func} {body}")
}

fn kind_word(kind: Kind) -> &'static str
    ensures { result.now ≡ kind_word kind }
{
    match kind {
        Kind::Request => "request",
        Kind::Response => "response",
    }
}

/// The line of a refusal. Bytes alone abort no frame.
fn refusal_line(alloc: Global, refusal: Refusal) -> Result<String, AllocError>
    ensures { IfOk result (λ text. string_bytes text ≡ said (refusal_words refusal)) }
{
    match refusal {
        Refusal::Stray(byte) => {
            let byte = show_byte(alloc, byte)?;
            format!(in alloc; "stray {byte}")
        }
        Refusal::BadLength(len) => format!(in alloc; "badlength {len}"),
        Refusal::BadSum { want, got } => {
            let want = show_byte(alloc, want)?;
            let got = show_byte(alloc, got)?;
            format!(in alloc; "badsum want {want} got {got}")
        }
        Refusal::BadKind(kind) => {
            let kind = show_byte(alloc, kind)?;
            format!(in alloc; "badkind {kind}")
        }
        Refusal::Aborted => String::from_str(alloc, "aborted"),
    }
}
