//! The lines that bytes are.

ghost use Rattle.std.specs.Prelude.{◌≡◌, ◌↔◌, ℕ, List as Items, [], ◌∷◌, ◌++◌, false, IfOk, OnOk, IsTrue};
ghost use Rattle.file_keeper.specs.Lines.{CouldBeRecord, IsOneLine, IsSplit, line_of};

use std::alloc::Global;
use std::mem;
use zw_base::{Bytes, List, NoMemory};

/// What ends a line.
const LINE_FEED: u8 = b'\n';

/// What the text of a record begins with.
const BRACKET: u8 = b'[';

/// Bytes as lines, and the end that no line feed follows.
#[derive(Drop)]
pub(crate) struct Parts {
    pub(crate) lines: List<Bytes>,
    pub(crate) torn: Bytes,
}

/// Splits the bytes at their line feeds.
#[tactic(auto, using(crate::proofs::Splits::split_nothing, crate::proofs::Splits::split_next, crate::proofs::Splits::split_whole))]
pub(crate) fn split(alloc: Global, bytes: &[u8]) -> Result<Parts, NoMemory>
    ensures { IfOk result (λ found. IsSplit bytes.now found.lines.items found.torn) }
{
    let mut found = Parts {
        lines: List::new(alloc),
        torn: Bytes::new(alloc),
    };
    for byte in bytes {
        take_byte(alloc, *byte, &mut found)?;
    }
    Ok(found)
}

// Goes on by one byte more.
fn take_byte(alloc: Global, byte: u8, found: &mut Parts) -> Result<(), NoMemory>
    ensures { OnOk result ((bytes : Items ℕ) →
        IsSplit bytes found.old.lines.items found.old.torn →
        IsSplit (bytes ++ byte ∷ []) found.new.lines.items found.new.torn) }
{
    if byte != LINE_FEED {
        found.torn.push(byte)?;
        return Ok(());
    }
    let line = mem::replace(&mut found.torn, Bytes::new(alloc));
    found.lines.push(line)?;
    Ok(())
}

/// Whether no line feed is among the bytes.
#[tactic(auto, using(crate::proofs::Splits::one_line_has_no_feed, crate::proofs::Splits::no_feed_is_one_line))]
pub(crate) fn is_one_line(bytes: &[u8]) -> bool
    ensures yes { IsTrue result → IsOneLine bytes.now }
    ensures no { result ≡ false → ¬ IsOneLine bytes.now }
{
    if bytes.contains(&LINE_FEED) {
        return false;
    }
    true
}

/// Whether there are no bytes, or they begin as the text of a record does.
pub(crate) fn could_be_record(bytes: &[u8]) -> bool
    ensures { IsTrue result ↔ CouldBeRecord bytes.now }
{
    match bytes.first() {
        Some(byte) => *byte == BRACKET,
        None => true,
    }
}

/// The line of a record.
pub(crate) fn line_of(alloc: Global, text: &[u8]) -> Result<Bytes, NoMemory>
    ensures { IfOk result (λ line. line ≡ line_of text.now) }
{
    let mut line = Bytes::from_slice(alloc, text)?;
    line.push(LINE_FEED)?;
    Ok(line)
}
