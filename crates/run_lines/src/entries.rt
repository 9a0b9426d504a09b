//! The lines of entries.

ghost use Rattle.std.specs.Prelude.{◌≡◌, ◌∷◌, ◌++◌, [], List as Items, ℕ, OnOk, OnErr};
ghost use Rattle.zw_text.specs.Entry.{is_loud};
ghost use Rattle.run_lines.specs.Pieces.{entry_line, piece_of, pieces_of};

use crate::Answer;
use std::alloc::Global;
use zw_base::NoMemory;
use zw_print::{print_line, write_line};
use zw_text::Entry;

/// The room for the text of an entry, which is enough for nearly all.
const MOST_TEXTS: usize = 128;

/// Adds the line of each entry, as a piece of its own. A quiet transcript leaves the loud ones out.
pub fn add_entries(
    alloc: Global,
    quiet: bool,
    entries: &[Entry],
    out: &mut Answer,
) -> Result<(), NoMemory>
    ensures ok { OnOk result (out.new.items ≡ out.old.items ++ pieces_of quiet entries.now) }
    ensures prefix { OnErr result ((rest : Items (Items ℕ)) × (out.old.items ++ pieces_of quiet entries.now ≡ out.new.items ++ rest)) }
{
    let mut scratch = String::with_capacity(alloc, MOST_TEXTS)?;
    for entry in entries {
        add_entry(alloc, quiet, entry, &mut scratch, out)?;
    }
    Ok(())
}

/// Adds the line of an entry, unless it is left out. It is made in `scratch`.
fn add_entry(
    alloc: Global,
    quiet: bool,
    entry: &Entry,
    scratch: &mut String,
    out: &mut Answer,
) -> Result<(), NoMemory>
    ensures ok { OnOk result (out.new.items ≡ out.old.items ++ piece_of quiet entry.now) }
    ensures err { OnErr result (out.new.items ≡ out.old.items) }
{
    if quiet && is_loud(entry) {
        return Ok(());
    }
    add_line(alloc, entry, scratch, out)
}

/// Adds the line of an entry. It is made in `scratch`.
fn add_line(
    alloc: Global,
    entry: &Entry,
    scratch: &mut String,
    out: &mut Answer,
) -> Result<(), NoMemory>
    ensures ok { OnOk result (out.new.items ≡ out.old.items ++ entry_line entry.now ∷ []) }
    ensures err { OnErr result (out.new.items ≡ out.old.items) }
{
    match entry {
        Entry::Said { .. } | Entry::Json { .. } => {
            out.push(print_line(alloc, entry, scratch)?.as_slice())
        }
        entry => {
            write_line(alloc, entry, scratch)?;
            out.push(scratch.as_bytes())
        }
    }
}

/// Whether a quiet transcript leaves an entry out.
fn is_loud(entry: &Entry) -> bool
    ensures { result ≡ is_loud entry.now }
{
    match entry {
        Entry::Written { .. } => true,
        Entry::Air { .. } => true,
        Entry::Heard { .. } => true,
        Entry::Lost { .. } => true,
        Entry::Unheard { .. } => true,
        _ => false,
    }
}
