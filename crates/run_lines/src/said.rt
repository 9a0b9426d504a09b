//! What is entered of a line before it is run.

ghost use Rattle.std.specs.Prelude.{◌≡◌, ◌∷◌, IfOk};
ghost use Rattle.std.specs.List.{join_with_byte};
ghost use Rattle.zw_words.specs.Words.{words};
ghost use Rattle.zw_text.specs.declared.entry.Entry.TheVariants.{Said as said};
ghost use Rattle.run_lines.specs.Pieces.{said_text};

use std::alloc::Global;
use zw_base::{Bytes, NoMemory};
use zw_text::Entry;
use zw_words::{cut_word, open_line};

/// The entry of the words of a line, as they came, with one space between two.
pub fn said_entry(alloc: Global, text: &[u8]) -> Result<Entry, NoMemory>
    ensures { IfOk result (λ entry. entry ≡ said (said_text text.now)) }
{
    Ok(Entry::Said {
        words: said_words(alloc, text)?,
    })
}

/// The words of a line, with one space between two.
fn said_words(alloc: Global, text: &[u8]) -> Result<Bytes, NoMemory>
    ensures { IfOk result (λ words. words ≡ said_text text.now) }
{
    match open_line(text) {
        Ok(Some((word, rest))) => join_words(alloc, word, rest),
        Ok(None) => Ok(Bytes::new(alloc)),
        Err(_) => Ok(Bytes::new(alloc)),
    }
}

/// A word, and the words of a text, with one space between two.
fn join_words(alloc: Global, word: &[u8], text: &[u8]) -> Result<Bytes, NoMemory>
    ensures { IfOk result (λ joined. joined ≡ join_with_byte 32 (word.now ∷ words text.now)) }
{
    let mut joined = Bytes::from_slice(alloc, word)?;
    let mut rest = text;
    while let Some((next, after)) = cut_word(rest) {
        joined.push(b' ')?;
        joined.extend(next)?;
        rest = after;
    }
    Ok(joined)
}
