//! A sink, and what was handed over and waits.

ghost use Rattle.std.specs.Prelude.{◌≡◌, ◌≤◌, ◌++◌, [], true, false, length, OnOk, OnErr, IsTrue};
ghost use Rattle.std.specs.Io.KnownBytes.{Appends};
ghost use Rattle.run_lines.specs.Writing.{AppendsPrefix};
ghost use Rattle.run_writes.specs.Gathering.{handed};

use run_lines::write_piece;
use std::alloc::Global;
use std::cell::RefCell;
use zw_base::{Failed, Sink};

/// The most bytes that wait.
pub const MOST_WAITING: usize = 65_536;

/// A sink, and what was handed over and is not written to it yet. After a write that failed it takes nothing more.
#[derive(Drop)]
pub struct Gathered<K: Sink> {
    sink: K,
    waiting: Vec<u8>,
    most: usize,
    has_failed: bool,
}

impl<K: Sink> Gathered<K> {
    /// Nothing was handed over. Up to so many bytes may wait; with none each piece is written at once.
    pub fn new(alloc: Global, sink: K, most: usize) -> Gathered<K>
        ensures sink { result.sink ≡ sink }
        ensures nothing { result.waiting.items ≡ [] }
        ensures most { result.most ≡ most }
        ensures sound { result.has_failed ≡ false }
    {
        Gathered {
            sink,
            waiting: Vec::new(alloc),
            most,
            has_failed: false,
        }
    }

    /// Takes a piece: it waits, or it is written after all that waits.
    fn take(&mut self, piece: &[u8]) -> Result<(), Failed>
        ensures ok { OnOk result (Appends
            (handed (K.written self.old.sink) self.old.waiting.items)
            (handed (K.written self.new.sink) self.new.waiting.items) piece.now) }
        ensures sound { OnOk result (self.old.has_failed ≡ false) }
        ensures no_more { self.old.has_failed ≡ true → self.new ≡ self.old }
        ensures err { OnErr result (AppendsPrefix (K.written self.old.sink) (K.written self.new.sink) (self.old.waiting.items ++ piece.now)) }
        ensures failed { OnErr result (self.new.has_failed ≡ true) }
        ensures most { self.new.most ≡ self.old.most }
        ensures within { length self.old.waiting.items ≤ self.old.most → length self.new.waiting.items ≤ self.new.most }
    {
        if self.has_failed {
            return Err(Failed);
        }
        if gather(&mut self.waiting, self.most, piece) {
            return Ok(());
        }
        self.write_on()?;
        if gather(&mut self.waiting, self.most, piece) {
            return Ok(());
        }
        self.put(piece)
    }

    /// Writes all that waits.
    fn write_on(&mut self) -> Result<(), Failed>
        ensures written { OnOk result (Appends (K.written self.old.sink) (K.written self.new.sink) self.old.waiting.items) }
        ensures sound { OnOk result (self.old.has_failed ≡ false) }
        ensures no_more { self.old.has_failed ≡ true → self.new ≡ self.old }
        ensures nothing { OnOk result (self.new.waiting.items ≡ []) }
        ensures err { OnErr result (AppendsPrefix (K.written self.old.sink) (K.written self.new.sink) self.old.waiting.items) }
        ensures failed { OnErr result (self.new.has_failed ≡ true) }
        ensures most { self.new.most ≡ self.old.most }
        ensures within { length self.old.waiting.items ≤ self.old.most → length self.new.waiting.items ≤ self.new.most }
    {
        if self.has_failed {
            return Err(Failed);
        }
        match write_piece(&mut self.sink, self.waiting.as_slice()) {
            Ok(()) => {
                self.waiting.clear();
                Ok(())
            }
            Err(Failed) => {
                self.has_failed = true;
                Err(Failed)
            }
        }
    }

    /// Writes a piece.
    fn put(&mut self, piece: &[u8]) -> Result<(), Failed>
        ensures written { OnOk result (Appends (K.written self.old.sink) (K.written self.new.sink) piece.now) }
        ensures err { OnErr result (AppendsPrefix (K.written self.old.sink) (K.written self.new.sink) piece.now) }
        ensures failed { OnErr result (self.new.has_failed ≡ true) }
        ensures waiting { self.new.waiting.items ≡ self.old.waiting.items }
        ensures most { self.new.most ≡ self.old.most }
    {
        match write_piece(&mut self.sink, piece) {
            Ok(()) => Ok(()),
            Err(Failed) => {
                self.has_failed = true;
                Err(Failed)
            }
        }
    }
}

/// Has a piece wait, where no more than so many bytes do then, and answers whether it does.
fn gather(waiting: &mut Vec<u8>, most: usize, piece: &[u8]) -> bool
    ensures gathered { IsTrue result → waiting.new.items ≡ waiting.old.items ++ piece.now }
    ensures refused { result ≡ false → waiting.new.items ≡ waiting.old.items }
    ensures within { length waiting.old.items ≤ most → length waiting.new.items ≤ most }
{
    if piece.len() > most.saturating_sub(waiting.len()) {
        return false;
    }
    waiting.extend_from_slice(piece).is_ok()
}

/// Writes all that waits, and answers whether all that was handed over is written.
pub fn write_waiting<K: Sink>(gathered: &RefCell<Gathered<K>>) -> Result<(), Failed> {
    match gathered.try_borrow_mut() {
        Ok(mut gathered) => gathered.write_on(),
        Err(_) => Err(Failed),
    }
}

/// Hands a piece over.
pub(crate) fn hand_over<K: Sink>(
    gathered: &RefCell<Gathered<K>>,
    piece: &[u8],
) -> Result<(), Failed> {
    match gathered.try_borrow_mut() {
        Ok(mut gathered) => gathered.take(piece),
        Err(_) => Err(Failed),
    }
}
