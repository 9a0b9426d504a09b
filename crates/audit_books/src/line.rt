//! The lines of a text.

ghost use Rattle.std.specs.Prelude.{◌≡◌, IfOk, MatchOption};
ghost use Rattle.zw_text.specs.Fits.{feeds};
ghost use Rattle.audit_books.specs.Lines.{IsCut, IsNext, IsNoLine};

use std::alloc::Global;
use zw_base::NoMemory;
use zw_parse::{EntryFault, read_entry};
use zw_range::entry_in_range;
use zw_text::Entry;

/// The byte that ends a line.
const LINE_FEED: u8 = 10;

/// The first line of a text without its line feed, and the text after that.
fn cut_line(text: &[u8]) -> Option<(&[u8], &[u8])>
    ensures { MatchOption result (feeds text.now ≡ 0) (λ cut. IsCut text.now cut.0.now cut.1.now) }
{
    for at in 0..text.len() {
        if text[at] == LINE_FEED {
            return Some((&text[..at], &text[at + 1..]));
        }
    }
    None
}

/// The entry of the first line and the text after it; none where the line is no entry or has no line feed.
pub fn next_entry(alloc: Global, text: &[u8]) -> Result<Option<(Entry, &[u8])>, NoMemory>
    ensures { IfOk result (λ found. MatchOption found (IsNoLine text.now) (λ next. IsNext text.now next.0 next.1.now)) }
{
    let Some((line, rest)) = cut_line(text) else {
        return Ok(None);
    };
    match read_entry(alloc, line) {
        Ok(entry) => {
            entry_in_range(&entry);
            Ok(Some((entry, rest)))
        }
        Err(EntryFault::Bad) => Ok(None),
        Err(EntryFault::NoMemory) => Err(NoMemory),
    }
}
