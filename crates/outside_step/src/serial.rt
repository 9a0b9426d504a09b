//! The serial line: what host and chip write and take.

ghost use Rattle.std.specs.Prelude.{◌≡◌, ℕ, ◌++◌, ◌+◌, ◌<◌, ◌≤◌, false, length, take, drop, min, OnOk, OnErr};
ghost use Rattle.serial_pipes.specs.Events.{after, told as told_of, Writes, Takes, Clears, Loses, Changes};
ghost use Rattle.outside_model.specs.State.{is_stalled};
ghost use Rattle.outside_step.specs.Pieces.{piece_size};
ghost use Rattle.outside_model.specs.Events.{way_of, with_way, cleared_entries};
ghost use Rattle.outside_model.specs.Schedules.{TakesBytes};

use crate::OutsideCore;
use serial_frame::Unit;
use serial_pipes::{CAPACITY, Garble, Way};
use zw_base::{List, NoMemory};
use zw_text::{Entry, Side};

/// The most bytes that the chip takes at once.
const PIECE: usize = 256;

impl OutsideCore {
    /// The host writes a unit.
    pub fn write_host(&mut self, unit: &Unit, told: &mut List<Entry>) -> Result<(), NoMemory>
        ensures way { OnOk result (self.new ≡ record self.old { to_chip = after self.old.to_chip (Writes unit.now) }) }
        ensures told { OnOk result (told.new.items ≡ told.old.items ++ told_of Side.Host self.old.to_chip unit.now) }
    {
        self.to_chip.write(Side::Host, unit, told)
    }

    /// How many bytes move at a time: as many as `cut` says, or as the line holds.
    pub fn piece(&self) -> usize
        ensures size { result ≡ piece_size self.now }
        ensures some { 1 ≤ result }
        ensures to_max { result ≤ CAPACITY }
    {
        if self.piece == 0 || self.piece > CAPACITY {
            CAPACITY
        } else {
            self.piece
        }
    }

    /// How many bytes are on their way to the host.
    pub fn to_host(&self) -> usize
        ensures { result ≡ length self.now.to_host.bytes }
    {
        self.to_host.len()
    }

    /// How many bytes are on their way to the chip.
    pub fn to_chip(&self) -> usize
        ensures { result ≡ length self.now.to_chip.bytes }
    {
        self.to_chip.len()
    }

    /// Moves the first bytes that are on their way to the host to the prefix of `into`, and answers how many.
    pub fn take_host(&mut self, into: &mut [u8]) -> usize
        ensures count { result ≡ min (length into.old) (length self.old.to_host.bytes) }
        ensures moved { into.new ≡ take result self.old.to_host.bytes ++ drop result into.old }
        ensures way { self.new ≡ record self.old { to_host = after self.old.to_host (Takes result) } }
    {
        self.to_host.take(into)
    }

    /// The chip takes all bytes that are on their way to it, of which there are some, in pieces.
    pub fn chip_takes_all(&mut self, told: &mut List<Entry>) -> Result<(), NoMemory>
        requires some { 0 < length self.old.to_chip.bytes }
        requires moves { is_stalled self.old ≡ false }
        ensures { OnOk result (TakesBytes (length self.old.to_chip.bytes) self.old self.new told.old.items told.new.items) }
    {
        self.chip_takes_piece(told)?;
        while self.to_chip.len() > 0 {
            self.chip_takes_piece(told)?;
        }
        Ok(())
    }

    /// How many bytes the chip takes at once: as many as move at a time, and no more than a piece.
    fn most_at_once(&self) -> usize
        ensures some { 1 ≤ result }
        ensures to_max { result ≤ PIECE }
    {
        let most = self.piece();
        if most > PIECE { PIECE } else { most }
    }

    /// The chip takes the next piece.
    fn chip_takes_piece(&mut self, told: &mut List<Entry>) -> Result<(), NoMemory>
        requires some { 0 < length self.old.to_chip.bytes }
        requires moves { is_stalled self.old ≡ false }
        ensures { OnOk result ((count : ℕ) × (1 ≤ count) × (count ≤ length self.old.to_chip.bytes)
            × TakesBytes count self.old self.new told.old.items told.new.items) }
    {
        let mut buffer = [0; PIECE];
        let most = self.most_at_once();
        let piece = take_into(&mut self.to_chip, &mut buffer, most);
        let mut outputs = List::new(self.alloc);
        self.chip.feed(piece, &mut outputs)?;
        self.put_outputs(&outputs, told)
    }

    /// The next unit of a side is to be lost.
    pub fn mark_loss(&mut self, side: Side) -> Result<(), NoMemory>
        ensures ok { OnOk result (self.new ≡ with_way self.old side (after (way_of self.old side) Loses)) }
        ensures err { OnErr result (self.new ≡ self.old) }
    {
        match side {
            Side::Host => self.to_chip.lose(),
            Side::Chip => self.to_host.lose(),
        }
    }

    /// The next data frame of a side is to be changed.
    pub fn mark_change(&mut self, side: Side, garble: Garble) -> Result<(), NoMemory>
        ensures ok { OnOk result (self.new ≡ with_way self.old side (after (way_of self.old side) (Changes garble))) }
        ensures err { OnErr result (self.new ≡ self.old) }
    {
        match side {
            Side::Host => self.to_chip.change(garble),
            Side::Chip => self.to_host.change(garble),
        }
    }

    /// The bytes that are on their way from a side are lost. The answer is how many there were.
    pub fn clear_way(&mut self, side: Side) -> usize
        ensures count { result ≡ length (way_of self.old side).bytes }
        ensures way { self.new ≡ with_way self.old side (after (way_of self.old side) Clears) }
    {
        match side {
            Side::Host => self.to_chip.clear(),
            Side::Chip => self.to_host.clear(),
        }
    }
}

/// How many bytes of a side were lost is told, where there were any.
pub fn tell_cleared(side: Side, bytes: usize, told: &mut List<Entry>) -> Result<(), NoMemory>
    ensures { OnOk result (told.new.items ≡ told.old.items ++ cleared_entries side bytes) }
{
    if bytes == 0 {
        return Ok(());
    }
    told.push(Entry::Cleared {
        side,
        bytes: bytes as u64,
    })
}

/// Moves the first bytes of a direction into a buffer, and answers with them.
fn take_into<'a>(way: &mut Way, buffer: &'a mut [u8; PIECE], most: usize) -> &'a [u8]
    requires to_max { most ≤ PIECE }
    ensures read { result.now ≡ take most way.old.bytes }
    ensures way { way.new ≡ after way.old (Takes (length result.now)) }
{
    let count = way.take(&mut buffer[..most]);
    &buffer[..count]
}
