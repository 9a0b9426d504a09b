//! What was told becomes entries of the transcript.

ghost use Rattle.std.specs.Prelude.{◌≡◌, ◌++◌, ◌+◌, ◌≤◌, ◌∷◌, [], length, not, OnOk, OnErr, ◌&&◌, ◌||◌};
ghost use Rattle.outside_model.specs.Events.{stamp, has_entered, ticked_entry};
ghost use Rattle.outside_model.specs.Did.{Enters};
ghost use Rattle.outside_model.specs.State.{tells};

use crate::OutsideCore;
use zw_base::{List, NoMemory};
use zw_text::{Entry, Refusal};

impl OutsideCore {
    /// Enters what an event told, after the number of the tick where that is not entered yet.
    pub fn enter(&mut self, told: List<Entry>, out: &mut List<Entry>) -> Result<(), NoMemory>
        ensures outer { OnOk result (self.new ≡ has_entered self.old told.items) }
        ensures entered { OnOk result (out.new.items ≡ out.old.items ++ stamp self.old told.items) }
        ensures no_entries { OnErr result (out.new.items ≡ out.old.items) }
    {
        if told.is_empty() {
            return Ok(());
        }
        if out.is_empty() && !self.is_to_stamp() {
            *out = told;
            return Ok(());
        }
        let Some(room) = told.len().checked_add(1) else {
            return Err(NoMemory);
        };
        out.reserve(room)?;
        self.enter_tick(out);
        put_all(told, out);
        Ok(())
    }

    /// Enters the number of the tick, where one runs and it is not entered yet.
    fn enter_tick(&mut self, out: &mut List<Entry>)
        requires { 1 ≤ out.old.room }
        ensures outer { self.new ≡ record self.old { stamped = self.old.in_tick || self.old.stamped } }
        ensures entered { out.new.items ≡ out.old.items ++ ticked_entry self.old }
        ensures room { out.old.room ≤ out.new.room + 1 }
    {
        if self.is_to_stamp() {
            out.put(Entry::Time { tick: self.clock });
            self.stamped = true;
        }
    }

    /// Whether a tick runs whose number is not entered yet.
    fn is_to_stamp(&self) -> bool
        ensures { result ≡ (self.now.in_tick && not self.now.stamped) }
    {
        self.in_tick && !self.stamped
    }

    /// A line is refused.
    pub fn refuse(&mut self, refusal: Refusal, out: &mut List<Entry>) -> Result<(), NoMemory>
        ensures ok { OnOk result (Enters (tells self.old (Entry.Refused refusal ∷ [])) self.new out.old.items out.new.items) }
        ensures err { OnErr result (out.new.items ≡ out.old.items) }
    {
        self.note(Entry::Refused { refusal }, out)
    }

    /// One entry.
    pub fn note(&mut self, entry: Entry, out: &mut List<Entry>) -> Result<(), NoMemory>
        ensures ok { OnOk result (Enters (tells self.old (entry ∷ [])) self.new out.old.items out.new.items) }
        ensures no_entries { OnErr result (out.new.items ≡ out.old.items) }
    {
        out.reserve(2)?;
        self.enter_tick(out);
        out.put(entry);
        Ok(())
    }
}

/// Puts entries at the end of others, for which there is room.
pub fn put_all(told: List<Entry>, out: &mut List<Entry>)
    requires { length told.items ≤ out.old.room }
    ensures { out.new.items ≡ out.old.items ++ told.items }
{
    out.put_all(told);
}
