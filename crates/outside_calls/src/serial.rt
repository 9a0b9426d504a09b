//! The serial line: what host and chip write and take; and the chip's tick.

ghost use Rattle.std.specs.Prelude.{◌≡◌, ◌++◌, ◌≤◌, ◌∷◌, [], false, length, take, drop, min, OnOk, OnErr, IfOk};
ghost use Rattle.outside_model.specs.State.{is_stalled};
ghost use Rattle.outside_step.specs.Pieces.{piece_size};
ghost use Rattle.outside_model.specs.Events.{Host_writes, Host_takes, Marks_loss, Marks_change, Clears_pipe, Chip_ticks};
ghost use Rattle.outside_model.specs.Did.{Goes, GoesOf};
ghost use Rattle.outside_model.specs.Schedules.{ChipTakes, any_moves};

use crate::Outside;
use outside_step::tell_cleared;
use serial_frame::Unit;
use serial_pipes::{CAPACITY, Garble};
use zw_base::{List, NoMemory};
use zw_text::{Entry, Side};

impl Outside {
    /// The host writes a unit.
    pub fn write_host(&mut self, unit: &Unit, out: &mut List<Entry>) -> Result<(), NoMemory>
        ensures ok { OnOk result (Goes (Host_writes unit.now ∷ []) self.old self.new out.old.items out.new.items) }
        ensures no_entries { OnErr result (out.new.items ≡ out.old.items) }
    {
        let mut told = List::new(self.core.alloc());
        self.core.write_host(unit, &mut told)?;
        self.core.enter(told, out)
    }

    /// How many bytes move at a time: as many as `cut` says, or as the line holds.
    pub fn piece(&self) -> usize
        ensures size { result ≡ piece_size self.now }
        ensures some { 1 ≤ result }
        ensures to_max { result ≤ CAPACITY }
    {
        self.core.piece()
    }

    /// How many bytes are on their way to the host.
    pub fn to_host(&self) -> usize
        ensures { result ≡ length self.now.to_host.bytes }
    {
        self.core.to_host()
    }

    /// Moves the first bytes that are on their way to the host to the prefix of `into`, and answers how many.
    pub fn take_host(&mut self, into: &mut [u8]) -> usize
        requires { is_stalled self.old ≡ false }
        ensures count { result ≡ min (length into.old) (length self.old.to_host.bytes) }
        ensures moved { into.new ≡ take result self.old.to_host.bytes ++ drop result into.old }
        ensures goes { Goes (Host_takes result ∷ []) self.old self.new [] [] }
    {
        self.core.take_host(into)
    }

    /// The chip takes all bytes that are on their way to it, in pieces; none moves in a stall. The answer is whether any
    /// did.
    pub fn chip_takes(&mut self, out: &mut List<Entry>) -> Result<bool, NoMemory>
        ensures ok { OnOk result (GoesOf (ChipTakes self.old) self.old self.new out.old.items out.new.items) }
        ensures moved { IfOk result (λ moved. moved ≡ any_moves self.old) }
        ensures no_entries { OnErr result (out.new.items ≡ out.old.items) }
    {
        if self.core.is_stalled() || self.core.to_chip() == 0 {
            return Ok(false);
        }
        let mut told = List::new(self.core.alloc());
        self.core.chip_takes_all(&mut told)?;
        self.core.enter(told, out)?;
        Ok(true)
    }

    /// The next unit of a side is to be lost.
    pub fn mark_loss(&mut self, side: Side) -> Result<(), NoMemory>
        ensures ok { OnOk result (Goes (Marks_loss side ∷ []) self.old self.new [] []) }
        ensures err { OnErr result (self.new ≡ self.old) }
    {
        self.core.mark_loss(side)
    }

    /// The next data frame of a side is to be changed.
    pub fn mark_change(&mut self, side: Side, garble: Garble) -> Result<(), NoMemory>
        ensures ok { OnOk result (Goes (Marks_change side garble ∷ []) self.old self.new [] []) }
        ensures err { OnErr result (self.new ≡ self.old) }
    {
        self.core.mark_change(side, garble)
    }

    /// The bytes that are on their way from a side are lost.
    pub fn clear(&mut self, side: Side, out: &mut List<Entry>) -> Result<(), NoMemory>
        ensures ok { OnOk result (Goes (Clears_pipe side ∷ []) self.old self.new out.old.items out.new.items) }
        ensures no_entries { OnErr result (out.new.items ≡ out.old.items) }
    {
        let bytes = self.core.clear_way(side);
        let mut told = List::new(self.core.alloc());
        tell_cleared(side, bytes, &mut told)?;
        self.core.enter(told, out)
    }

    /// The chip ticks.
    pub fn tick_chip(&mut self, out: &mut List<Entry>) -> Result<(), NoMemory>
        ensures ok { OnOk result (Goes (Chip_ticks ∷ []) self.old self.new out.old.items out.new.items) }
        ensures no_entries { OnErr result (out.new.items ≡ out.old.items) }
    {
        let mut told = List::new(self.core.alloc());
        self.core.tick_chip(&mut told)?;
        self.core.enter(told, out)
    }
}
