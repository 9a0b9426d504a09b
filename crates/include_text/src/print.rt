//! The text of an entry.

ghost use Rattle.std.specs.Prelude.{◌≡◌, ◌++◌, IfOk, codes, decimal};
ghost use Rattle.hex.specs.Hex.{encode_upper};
ghost use Rattle.zw_words.specs.Texts.{side_word};
ghost use Rattle.include_text.specs.Entry.{entry_text, key_word, line_text, refusal_text, secure_word};

use crate::line::text_of;
use crate::{IncludeEntry, IncludeLine, IncludeRefusal, Side, first_word, number_in};
use std::alloc::Global;
use zw_base::{Bytes, NoMemory, NodeId};

fn bytes_of(alloc: Global, text: &str) -> Result<Bytes, NoMemory>
    ensures { IfOk result (λ bytes. bytes ≡ text.now) }
{
    Bytes::from_slice(alloc, text.as_bytes())
}

/// The text of an entry, without a line feed.
#[tactic(auto, unfolding(crate::specs::Entry::entry_text))]
pub fn print_include(alloc: Global, entry: &IncludeEntry) -> Result<Bytes, NoMemory>
    ensures { IfOk result (λ text. text ≡ entry_text entry.now) }
{
    match entry {
        IncludeEntry::Said { line } => print_said(alloc, line),
        IncludeEntry::Time { tick } => print_count(alloc, "t", *tick),
        IncludeEntry::Written { side, unit } => print_written(alloc, *side, unit.as_slice()),
        IncludeEntry::Air {
            frame,
            from,
            to,
            payload,
        } => print_air(alloc, *frame, *from, *to, payload.bytes()),
        IncludeEntry::Heard { frame } => print_count(alloc, "heard", *frame),
        IncludeEntry::Lost { frame } => print_count(alloc, "lost", *frame),
        IncludeEntry::Key { node } => print_count(alloc, "key", u64::from(node.number())),
        IncludeEntry::Secure { node } => print_count(alloc, "secure", u64::from(node.number())),
        IncludeEntry::Failed { node } => print_count(alloc, "failed", u64::from(node.number())),
        IncludeEntry::Refused { refusal } => print_refusal(alloc, *refusal),
        IncludeEntry::Node { node, secure, key } => print_node(alloc, *node, *secure, *key),
    }
}

/// A word and a number.
fn print_count(alloc: Global, word: &str, n: u64) -> Result<Bytes, NoMemory>
    ensures { IfOk result (λ text. text ≡ word.now ++ (codes " " ++ decimal n)) }
{
    let text = format!(in alloc; "{word} {n}")?;
    bytes_of(alloc, text.as_str())
}

/// `> WORD N`
fn print_said(alloc: Global, line: &IncludeLine) -> Result<Bytes, NoMemory>
    ensures { IfOk result (λ text. text ≡ codes "> " ++ line_text line.now) }
{
    let word = text_of(first_word(line));
    let number = number_in(line);
    let text = format!(in alloc; "> {word} {number}")?;
    bytes_of(alloc, text.as_str())
}

/// `h HEX` or `c HEX`
fn print_written(alloc: Global, side: Side, unit: &[u8]) -> Result<Bytes, NoMemory>
    ensures { IfOk result (λ text. text ≡ side_word side ++ (codes " " ++ encode_upper unit.now)) }
{
    let side = match side {
        Side::Host => "h",
        Side::Chip => "c",
    };
    let unit = hex::encode_upper(alloc, unit)?;
    let text = format!(in alloc; "{side} {unit}")?;
    bytes_of(alloc, text.as_str())
}

/// `air I A>B via - HEX`
fn print_air(
    alloc: Global,
    frame: u64,
    from: NodeId,
    to: NodeId,
    payload: &[u8],
) -> Result<Bytes, NoMemory>
    ensures { IfOk result (λ text. text ≡ codes "air " ++
        (decimal frame ++ (codes " " ++ (decimal from ++ (codes ">" ++ (decimal to ++ (codes " via - " ++ encode_upper payload.now))))))) }
{
    let from = from.number();
    let to = to.number();
    let payload = hex::encode_upper(alloc, payload)?;
    let text = format!(in alloc; "air {frame} {from}>{to} via - {payload}")?;
    bytes_of(alloc, text.as_str())
}

/// `refused NAME` or `refused stale X`
fn print_refusal(alloc: Global, refusal: IncludeRefusal) -> Result<Bytes, NoMemory>
    ensures { IfOk result (λ text. text ≡ refusal_text refusal) }
{
    match refusal {
        IncludeRefusal::Busy => bytes_of(alloc, "refused busy"),
        IncludeRefusal::Secure => bytes_of(alloc, "refused secure"),
        IncludeRefusal::NeverSent => bytes_of(alloc, "refused neversent"),
        IncludeRefusal::Forgotten => bytes_of(alloc, "refused forgotten"),
        IncludeRefusal::Stale(nonces) => print_count(alloc, "refused stale", nonces),
    }
}

/// `node N host secure device key`, with `-` for what is not there
fn print_node(alloc: Global, node: NodeId, secure: bool, key: bool) -> Result<Bytes, NoMemory>
    ensures { IfOk result (λ text. text ≡ codes "node " ++ (decimal node ++ (codes " host " ++ (secure_word secure ++ (codes " device " ++ key_word key))))) }
{
    let node = node.number();
    let host = secure_name(secure);
    let device = key_name(key);
    let text = format!(in alloc; "node {node} host {host} device {device}")?;
    bytes_of(alloc, text.as_str())
}

fn secure_name(secure: bool) -> &'static str
    ensures { result.now ≡ secure_word secure }
{
    if secure { "secure" } else { "-" }
}

fn key_name(key: bool) -> &'static str
    ensures { result.now ≡ key_word key }
{
    if key { "key" } else { "-" }
}
