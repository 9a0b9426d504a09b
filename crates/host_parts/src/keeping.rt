//! Records of events.

ghost use Rattle.std.specs.Prelude.{◌≡◌, ◌+◌, ◌≤◌, [], IfOk, OnOk, OnErr};
ghost use Rattle.host_keep.specs.Keeping.{Kept, added, Adds};
ghost use Rattle.host_keep.specs.Rows.{IsRecord};
ghost use Rattle.host_keep.specs.RecordText.{record_text};

use host_keep::{Keeper, Record, keep, write_record};
use std::alloc::Global;
use zw_base::NoMemory;

/// Has a record kept, whose numbers are in range since it was written, and answers whether it was.
pub fn keep_record<P: Keeper>(
    alloc: Global,
    kept: &Record,
    keeper: &mut P,
) -> Result<bool, NoMemory>
    ensures kept { IfOk result (λ is_kept.
        Kept is_kept (record_text kept.now)
        (P.shelf keeper.old) (P.shelf keeper.new)) }
    ensures in_range { OnOk result (IsRecord kept.now) }
    ensures no_record { OnErr result
        (Adds [] (P.shelf keeper.old) (P.shelf keeper.new)) }
    ensures never_falls { (P.shelf keeper.old).faults ≤ (P.shelf keeper.new).faults }
    ensures added { IfOk result (λ is_kept.
        P.number keeper.new ≡ P.number keeper.old + added is_kept) }
    ensures never_fewer { P.number keeper.old ≤ P.number keeper.new }
    ensures reads { P.reads keeper.new ≡ P.reads keeper.old }
{
    let text = write_record(alloc, kept)?;
    keep(keeper, text.as_slice())
}
