//! The pass over a transcript.

ghost use Rattle.std.specs.Prelude.{◌≡◌, [], IfErr, IfOk, List as Items};
ghost use Rattle.zw_text.specs.declared.entry.Entry.{Entry as AnyEntry};
ghost use Rattle.audit.specs.Breaking.{Examined, HasOneAnswer, IsBroken};
ghost use Rattle.audit.specs.Keeping.{IsKeptOf, IsTaken};

use crate::Break;
use crate::ledger::Ledger;
use audit_books::next_entry;
use std::alloc::Global;
use zw_base::NoMemory;

/// A text has one answer at most.
pub fn one_answer()
    ensures { HasOneAnswer }
{}

/// Judges the first line of a text, and takes it: what is after it, or the rule that it breaks.
fn take_line<'a>(
    alloc: Global,
    ledger: &mut Ledger,
    text: &'a [u8],
) -> Result<Result<&'a [u8], Break>, NoMemory>
    ensures taken { IfOk result (λ line. IfOk line (λ rest. (past : Items AnyEntry) → IsKeptOf ledger.old past → IsTaken past text.now rest.now ledger.new)) }
    ensures broken { IfOk result (λ line. IfErr line (λ rule. (past : Items AnyEntry) → IsKeptOf ledger.old past → (text.now ≡ [] → ⊥) →
        IsBroken past text.now rule)) }
{
    let Some((entry, rest)) = next_entry(alloc, text)? else {
        return Ok(Err(Break::Text));
    };
    if let Some(broken) = ledger.judge(&entry, rest)? {
        return Ok(Err(broken));
    }
    ledger.take(&entry)?;
    Ok(Ok(rest))
}

/// Goes through a text with a ledger that has taken nothing yet.
fn examine_with(
    alloc: Global,
    ledger: &mut Ledger,
    text: &[u8],
) -> Result<Option<(u32, Break)>, NoMemory>
    requires { IsKeptOf ledger.old [] }
    ensures { IfOk result (λ found. Examined text.now found) }
{
    let mut left = text;
    let mut line: u32 = 1;
    'lines: while !left.is_empty() {
        match take_line(alloc, ledger, left)? {
            Ok(rest) => left = rest,
            Err(broken) => return Ok(Some((line, broken))),
        }
        line = line.checked_add(1).ok_or(NoMemory)?;
    }
    Ok(None)
}

/// The first line that breaks a rule, counted from 1, with the first rule that it breaks; none where the text is that of
/// a transcript in order.
pub fn examine(alloc: Global, text: &[u8]) -> Result<Option<(u32, Break)>, NoMemory>
    ensures { IfOk result (λ found. Examined text.now found) }
{
    let mut ledger = Ledger::new(alloc)?;
    examine_with(alloc, &mut ledger, text)
}
