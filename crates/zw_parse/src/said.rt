//! Whether what an entry shows is a line.

ghost use Rattle.std.specs.Prelude.{◌≡◌, ◌↔◌, IfOk, IsTrue};
ghost use Rattle.run_lines.specs.Pieces.{said_text};
ghost use Rattle.zw_parse.specs.Said.{SaysLine, ShowsLine};

use run_lines::said_entry;
use std::alloc::Global;
use zw_base::NoMemory;
use zw_text::{Entry, ReadLineFault, read_line};

/// Whether the words of the entry, if it shows some, are those of a line of a scenario.
pub fn shows_line(alloc: Global, entry: &Entry) -> Result<bool, NoMemory>
    ensures { IfOk result (λ shows. IsTrue shows ↔ ShowsLine entry.now) }
{
    match entry {
        Entry::Said { words } => says_line(alloc, words.as_slice()),
        _ => Ok(true),
    }
}

/// Whether the text is that of a line of a scenario, with one space between two words.
fn says_line(alloc: Global, text: &[u8]) -> Result<bool, NoMemory>
    ensures { IfOk result (λ says. IsTrue says ↔ SaysLine text.now) }
{
    match read_line(alloc, text) {
        Ok(Some(_line)) => is_joined(alloc, text),
        Ok(None) => Ok(false),
        Err(ReadLineFault::Bad(_)) => Ok(false),
        Err(ReadLineFault::NoMemory) => Err(NoMemory),
    }
}

/// Whether the text is what is entered of it.
fn is_joined(alloc: Global, text: &[u8]) -> Result<bool, NoMemory>
    ensures { IfOk result (λ joined. IsTrue joined ↔ (said_text text.now ≡ text.now)) }
{
    match said_entry(alloc, text)? {
        Entry::Said { words } => Ok(words.as_slice() == text),
        _ => Ok(false),
    }
}
