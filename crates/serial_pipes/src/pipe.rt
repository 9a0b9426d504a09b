//! Bytes on their way.

ghost use Rattle.std.specs.Prelude.{◌≡◌, ◌++◌, ◌+◌, ◌≤◌, [], length, take, drop, min, IfOk};
ghost use Rattle.serial_pipes.specs.State.{fits, joined};

use circular_buffer::HeapCircularBuffer;
use std::alloc::Global;
use std::marker::Model;
use zw_base::NoMemory;

/// The most bytes that are on their way in one direction.
pub const CAPACITY: usize = 4096;

/// The bytes on their way in one direction, first to arrive first. Contracts see the list.
#[derive(Drop)]
pub(crate) struct Pipe {
    bytes: HeapCircularBuffer<u8>,
}

impl Model for Pipe {
    ghost use Rattle.std.specs.Prelude.{ℕ, List, ◌≡◌, ◌≤◌, length};

    ghost Value = { List ℕ };

    ghost view = { λ p. p.bytes.items };

    ghost invariant = { λ p. (p.bytes.capacity ≡ 4096) × (length p.bytes.items ≤ 4096) };
}

impl Pipe {
    /// No bytes, with the room for all that may be on their way.
    pub(crate) fn new(alloc: Global) -> Result<Pipe, NoMemory>
        ensures { IfOk result (λ pipe. pipe ≡ []) }
    {
        Ok(Pipe {
            bytes: HeapCircularBuffer::with_capacity(alloc, CAPACITY)?,
        })
    }

    /// How many bytes are on their way.
    pub(crate) fn len(&self) -> usize
        ensures value { result ≡ length self.now }
        ensures to_max { result ≤ CAPACITY }
    {
        self.bytes.len()
    }

    /// Whether so many more bytes have room.
    pub(crate) fn fits(&self, text: &[u8]) -> bool
        ensures { result ≡ fits self.now text.now }
    {
        text.len() <= CAPACITY - self.len()
    }

    /// Takes a text whole, or nothing of it where it has no room.
    pub(crate) fn put(&mut self, text: &[u8])
        ensures { self.new ≡ joined self.old text.now }
    {
        if self.fits(text) {
            let _ = self.bytes.fill_from_slice(text);
        }
    }

    /// Moves the first bytes to the prefix of `into`, as many as there are and as it takes, and answers how many.
    pub(crate) fn take(&mut self, into: &mut [u8]) -> usize
        ensures count { result ≡ min (length into.old) (length self.old) }
        ensures moved { into.new ≡ take result self.old ++ drop result into.old }
        ensures left { self.new ≡ drop result self.old }
    {
        self.bytes.read_into(into)
    }

    /// Loses all bytes.
    pub(crate) fn clear(&mut self)
        ensures { self.new ≡ [] }
    {
        self.bytes.clear();
    }
}
