//! One direction of the serial line.

ghost use Rattle.std.specs.Prelude.{◌≡◌, ◌++◌, ◌+◌, ◌≤◌, ◌∷◌, length, take, drop, min, IfOk, OnOk, OnErr};
ghost use Rattle.serial_pipes.specs.State.{empty_way, garbled, joined, overrun};
ghost use Rattle.serial_pipes.specs.Events.{after, told, told_by, passing, Writes, Takes, Clears, Loses, Changes};

use crate::marks::Marks;
use crate::pipe::{CAPACITY, Pipe};
use crate::{Garble, Mark};
use serial_frame::{Unit, encode};
use std::alloc::Global;
use std::marker::Model;
use zw_base::{Bytes, List, NoMemory};
use zw_text::{Entry, Side};

/// The place of the Type in a data frame.
const TYPE_AT: usize = 2;

/// The most that is told of a unit: that it was written, that it was changed, and that it had no room.
const MOST_TOLD: usize = 3;

/// One direction of the serial line. Contracts see its bytes and its marks.
#[derive(Drop)]
pub struct Way {
    alloc: Global,
    pipe: Pipe,
    marks: Marks,
}

impl Model for Way {
    ghost use Rattle.serial_pipes.specs.State.{WayState};

    ghost Value = { WayState };

    ghost view = { λ w. record { bytes = w.pipe; marks = w.marks } };
}

impl Way {
    /// Nothing is on its way, and nothing is marked.
    pub fn new(alloc: Global) -> Result<Way, NoMemory>
        ensures { IfOk result (λ way. way ≡ empty_way) }
    {
        Ok(Way {
            alloc,
            pipe: Pipe::new(alloc)?,
            marks: Marks::new(alloc),
        })
    }

    /// How many bytes are on their way.
    pub fn len(&self) -> usize
        ensures value { result ≡ length self.now.bytes }
        ensures to_max { result ≤ CAPACITY }
    {
        self.pipe.len()
    }

    /// One more unit is to be lost.
    pub fn lose(&mut self) -> Result<(), NoMemory>
        ensures ok { OnOk result (self.new ≡ after self.old Loses) }
        ensures err { OnErr result (self.new ≡ self.old) }
    {
        self.marks.add_drop()
    }

    /// One more data frame is to be changed.
    pub fn change(&mut self, garble: Garble) -> Result<(), NoMemory>
        ensures ok { OnOk result (self.new ≡ after self.old (Changes garble)) }
        ensures err { OnErr result (self.new ≡ self.old) }
    {
        self.marks.add_garble(garble)
    }

    /// A side writes a unit: by the marks it is lost, or changed, and it may find no room. What is told of it is entered.
    pub fn write(&mut self, side: Side, unit: &Unit, out: &mut List<Entry>) -> Result<(), NoMemory>
        ensures way { OnOk result (self.new ≡ after self.old (Writes unit.now)) }
        ensures told { OnOk result (out.new.items ≡ out.old.items ++ told side self.old unit.now) }
        ensures err { OnErr result (self.new ≡ self.old) }
        ensures no_entries { OnErr result (out.new.items ≡ out.old.items) }
    {
        out.reserve(MOST_TOLD)?;
        let text = encode(self.alloc, unit)?;
        let mark = self.marks.mark_for(unit);
        self.pass(side, mark, text, out)
    }

    /// A text that was written goes on by its mark.
    fn pass(
        &mut self,
        side: Side,
        mark: Mark,
        text: Bytes,
        out: &mut List<Entry>,
    ) -> Result<(), NoMemory>
        requires some { 1 ≤ length text }
        requires room { 3 ≤ out.old.room }
        ensures way { OnOk result (self.new ≡ passing self.old mark text) }
        ensures told { OnOk result (out.new.items ≡ out.old.items ++ Entry.Written side text ∷ told_by side self.old.bytes mark text) }
        ensures err { OnErr result (self.new ≡ self.old) }
        ensures no_entries { OnErr result (out.new.items ≡ out.old.items) }
    {
        match mark {
            Mark::Lost => {
                out.put(Entry::Written { side, unit: text });
                out.put(Entry::Dropped { side });
            }
            Mark::Free => self.put_written(side, text, out),
            Mark::Changed(garble) => {
                let changed = changed(self.alloc, &text, garble)?;
                let shown = Bytes::from_slice(self.alloc, changed.as_slice())?;
                out.put(Entry::Written { side, unit: text });
                out.put(Entry::Garbled { side, unit: shown });
                self.put(side, changed.as_slice(), out);
            }
        }
        self.marks.use_up(mark);
        Ok(())
    }

    /// A text that was written goes into the pipe, where it has room.
    fn put_written(&mut self, side: Side, text: Bytes, out: &mut List<Entry>)
        requires { 2 ≤ out.old.room }
        ensures way { self.new ≡ record self.old { bytes = joined self.old.bytes text } }
        ensures told { out.new.items ≡ out.old.items ++ Entry.Written side text ∷ overrun side self.old.bytes text }
    {
        let fits = self.pipe.fits(text.as_slice());
        self.pipe.put(text.as_slice());
        out.put(Entry::Written { side, unit: text });
        if !fits {
            out.put(Entry::Overrun { side });
        }
    }

    /// A text goes into the pipe, where it has room.
    fn put(&mut self, side: Side, text: &[u8], out: &mut List<Entry>)
        requires { 1 ≤ out.old.room }
        ensures way { self.new ≡ record self.old { bytes = joined self.old.bytes text.now } }
        ensures told { out.new.items ≡ out.old.items ++ overrun side self.old.bytes text.now }
    {
        if !self.pipe.fits(text) {
            out.put(Entry::Overrun { side });
        }
        self.pipe.put(text);
    }

    /// Moves the first bytes to the prefix of `into`, as many as there are and as it takes, and answers how many.
    pub fn take(&mut self, into: &mut [u8]) -> usize
        ensures count { result ≡ min (length into.old) (length self.old.bytes) }
        ensures moved { into.new ≡ take result self.old.bytes ++ drop result into.old }
        ensures way { self.new ≡ after self.old (Takes result) }
    {
        self.pipe.take(into)
    }

    /// Loses all bytes. The answer is how many there were.
    pub fn clear(&mut self) -> usize
        ensures count { result ≡ length self.old.bytes }
        ensures way { self.new ≡ after self.old Clears }
    {
        let bytes = self.pipe.len();
        self.pipe.clear();
        bytes
    }
}

/// A text with one byte changed, which stands at most at its end.
fn changed(alloc: Global, text: &Bytes, garble: Garble) -> Result<Bytes, NoMemory>
    requires { 1 ≤ length text.now }
    ensures { IfOk result (λ bytes. bytes ≡ garbled garble text.now) }
{
    let mut bytes = Vec::from_slice(alloc, text.as_slice())?;
    let at = (TYPE_AT + garble.place as usize).min(bytes.len() - 1);
    bytes[at] ^= garble.xor;
    Bytes::from_slice(alloc, bytes.as_slice())
}
