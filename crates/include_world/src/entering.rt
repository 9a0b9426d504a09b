//! What is entered of a line, and of an adding.

ghost use Rattle.std.specs.Prelude.{◌≡◌, ◌+◌, ◌<◌, ◌≤◌, ◌∷◌, [], ◌++◌};
ghost use Rattle.include_world.specs.Units.{both, in_order};
ghost use Rattle.include_world.specs.World.{said_entries};

use crate::units::{AddUnits, TwoUnits};
use include_text::{IncludeEntry, IncludeLine, IncludeRefusal};
use zw_base::List;

/// Enters the line that repeats a frame.
pub(crate) fn put_said(said: Option<IncludeLine>, out: &mut List<IncludeEntry>)
    requires { 0 < out.old.room }
    ensures outs { out.new.items ≡ out.old.items ++ said_entries said }
    ensures room { out.old.room ≤ out.new.room + 1 }
{
    if let Some(line) = said {
        out.put(IncludeEntry::Said { line });
    }
}

/// Enters a line that is refused.
pub(crate) fn put_refused(line: IncludeLine, refusal: IncludeRefusal, out: &mut List<IncludeEntry>)
    requires { 2 ≤ out.old.room }
    ensures { out.new.items ≡ out.old.items ++ IncludeEntry.Said line ∷ IncludeEntry.Refused refusal ∷ [] }
{
    out.put(IncludeEntry::Said { line });
    out.put(IncludeEntry::Refused { refusal });
}

/// Enters the units of an adding.
pub(crate) fn put_units(units: AddUnits, out: &mut List<IncludeEntry>)
    requires { 6 ≤ out.old.room }
    ensures outs { out.new.items ≡ out.old.items ++ in_order units }
    ensures room { out.new.room + 6 ≡ out.old.room }
{
    let AddUnits {
        opening,
        found,
        closing,
    } = units;
    put_both(opening, out);
    put_both(found, out);
    put_both(closing, out);
}

/// Enters two units.
fn put_both(units: TwoUnits, out: &mut List<IncludeEntry>)
    requires { 2 ≤ out.old.room }
    ensures outs { out.new.items ≡ out.old.items ++ both units }
    ensures room { out.new.room + 2 ≡ out.old.room }
{
    let TwoUnits { first, second } = units;
    out.put(first);
    out.put(second);
}
