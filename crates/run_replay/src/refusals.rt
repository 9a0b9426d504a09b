//! Lines that the host refuses.

ghost use Rattle.std.specs.Prelude.{◌≡◌, Some, IfOk, OnOk, OnErr};
ghost use Rattle.world_model.specs.Refusals.{shown};
ghost use Rattle.host_core.specs.Orders.{shown_uncancelled};
ghost use Rattle.run_replay.specs.Asking.{Answers, Enters};

use host_core::{CancelFault, refusal_of, uncancelled_as};
use host_orders::Refused;
use zw_base::{List, NoMemory};
use zw_text::Entry;

/// The host refuses a line; an allocation failure is no refusal.
pub fn refuse(refused: Refused, out: &mut List<Entry>) -> Result<(), NoMemory>
    ensures ok { OnOk result (Enters (shown refused) out.old.items out.new.items) }
    ensures err { OnErr result (out.new.items ≡ out.old.items) }
{
    out.push(Entry::Refused {
        refusal: refusal_of(refused)?,
    })
}

/// A command is not taken back; an allocation failure is no refusal.
pub fn refuse_cancel(
    command: u32,
    fault: CancelFault,
    out: &mut List<Entry>,
) -> Result<(), NoMemory>
    ensures ok { OnOk result (Enters (shown_uncancelled command fault) out.old.items out.new.items) }
    ensures err { OnErr result (out.new.items ≡ out.old.items) }
{
    out.push(Entry::Refused {
        refusal: uncancelled_as(command, fault)?,
    })
}

/// The host took what was asked for, and nothing is entered; or it refuses.
pub fn unless_refused(answer: Result<(), Refused>, out: &mut List<Entry>) -> Result<(), NoMemory>
    ensures ok { OnOk result (Answers answer out.old.items out.new.items) }
    ensures err { OnErr result (out.new.items ≡ out.old.items) }
{
    match answer {
        Ok(()) => Ok(()),
        Err(refused) => refuse(refused, out),
    }
}
