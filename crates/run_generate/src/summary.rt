//! What is printed of a scenario that was made from a number.

ghost use Rattle.std.specs.Prelude.{◌≡◌, ◌++◌, IfOk, OnOk};
ghost use Rattle.run_generate.specs.Generate.{accepted_count, is_accepted, is_success, success_count, summary_text, table_line};

use std::alloc::Global;
use zw_base::{Bytes, NoMemory};
use zw_print::print_entry;
use zw_text::{Ended, Entry};

/// The text: how many commands were accepted and how many successful, the ticks, and of each joined node how many sessions it had and
/// what its device shows.
pub fn summary(alloc: Global, entries: &[Entry], table: &[Entry]) -> Result<Bytes, NoMemory>
    ensures { IfOk result (λ text. text ≡ summary_text entries.now table.now) }
{
    let commands = accepted_count(entries);
    let successes = success_count(entries);
    let head = format!(in alloc; "commands {commands}\nsuccess {successes}\n")?;
    let mut text = Bytes::from_slice(alloc, head.as_bytes())?;
    for entry in table {
        add_row(alloc, entry, &mut text)?;
    }
    Ok(text)
}

/// How many commands were accepted.
fn accepted_count(entries: &[Entry]) -> usize
    ensures { result ≡ accepted_count entries.now }
{
    let mut count = 0;
    for entry in entries {
        if is_accepted(entry) {
            count += 1;
        }
    }
    count
}

/// Whether a command was accepted.
fn is_accepted(entry: &Entry) -> bool
    ensures { result ≡ is_accepted entry.now }
{
    match entry {
        Entry::Accepted { .. } => true,
        _ => false,
    }
}

/// How many commands were reported successful.
fn success_count(entries: &[Entry]) -> usize
    ensures { result ≡ success_count entries.now }
{
    let mut count = 0;
    for entry in entries {
        if is_success(entry) {
            count += 1;
        }
    }
    count
}

/// Whether a command was reported successful.
fn is_success(entry: &Entry) -> bool
    ensures { result ≡ is_success entry.now }
{
    match entry {
        Entry::Out { ended, .. } => *ended == Ended::Success,
        _ => false,
    }
}

/// Adds what is printed of a line of the final table.
fn add_row(alloc: Global, entry: &Entry, text: &mut Bytes) -> Result<(), NoMemory>
    ensures { OnOk result (text.new ≡ text.old ++ table_line entry.now) }
{
    match entry {
        Entry::TableEnd { ticks } => {
            let row = format!(in alloc; "ticks {ticks}\n")?;
            text.extend(row.as_bytes())
        }
        Entry::TableNode { node, sessions } => {
            let node = node.number();
            let count = sessions.len();
            let row = format!(in alloc; "node {node} sessions {count}\n")?;
            text.extend(row.as_bytes())
        }
        Entry::Device { .. } => {
            text.extend(print_entry(alloc, entry)?.as_slice())?;
            text.push(b'\n')
        }
        _ => Ok(()),
    }
}
