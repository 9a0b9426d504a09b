//! From a text to an entry.

ghost use Rattle.std.specs.Prelude.{◌≡◌, IfOk};
ghost use Rattle.zw_text.specs.Entry.{entry_text};
ghost use Rattle.zw_text.specs.declared.entry.Entry.{Entry as AnyEntry};
ghost use Rattle.zw_parse.specs.Answers.{Answers};
ghost use Rattle.zw_parse.specs.Said.{IsEntry, ShowsLine};

use crate::lists::row;
use crate::said::shows_line;
use std::alloc::Global;
use zw_base::NoMemory;
use zw_print::print_entry;
use zw_text::Entry;

/// Why a text was not read as an entry.
#[derive(Clone, Copy, PartialEq, Eq)]
pub enum EntryFault {
    /// The text is not that of an entry.
    Bad,
    NoMemory,
}

impl From<NoMemory> for EntryFault {
    fn from(_error: NoMemory) -> EntryFault {
        EntryFault::NoMemory
    }
}

/// The entry whose text this is, without a line feed.
pub fn read_entry(alloc: Global, text: &[u8]) -> Result<Entry, EntryFault>
    ensures found { IfOk result (λ entry. text.now ≡ entry_text entry) }
    // The words after `>` are a line of a scenario.
    ensures shows { IfOk result (λ entry. ShowsLine entry) }
    // The text of an entry is read as that entry, or there was no memory.
    ensures each { (entry : AnyEntry) → IsEntry entry → text.now ≡ entry_text entry → Answers result entry }
{
    let Ok(entry) = row(alloc, text) else {
        return Err(EntryFault::NoMemory);
    };
    let Ok(printed) = print_entry(alloc, &entry) else {
        return Err(EntryFault::NoMemory);
    };
    if printed.as_slice() != text {
        return Err(EntryFault::Bad);
    }
    let Ok(shows) = shows_line(alloc, &entry) else {
        return Err(EntryFault::NoMemory);
    };
    if shows {
        Ok(entry)
    } else {
        Err(EntryFault::Bad)
    }
}
