//! Bytes that grow, and answer where there is no memory.

ghost use Rattle.std.specs.Prelude.{◌≡◌, ℕ, List, [], ◌∷◌, ◌++◌, length, IfOk, OnOk, OnErr, IsTrue, ◌↔◌};

use crate::NoMemory;
use std::alloc::Global;
use std::marker::Model;

/// The least room that a copy of some bytes is given: the least memory that is handed out holds as much.
const LEAST_ROOM: usize = 24;

/// The most bytes of a check that is put after a message.
const CHECK_LEN: usize = 2;

/// A list of bytes. Contracts see the list.
#[derive(Debug, Drop)]
pub struct Bytes {
    bytes: Vec<u8>,
}

impl Model for Bytes {
    ghost Value = { List ℕ };

    ghost view = { λ b. b.bytes.items };
}

impl Bytes {
    /// No bytes. It takes no memory.
    pub fn new(alloc: Global) -> Bytes
        ensures { result ≡ [] }
    {
        Bytes {
            bytes: Vec::new(alloc),
        }
    }

    /// A copy of these bytes.
    pub fn from_slice(alloc: Global, bytes: &[u8]) -> Result<Bytes, NoMemory>
        ensures { IfOk result (λ copy. copy ≡ bytes.now) }
    {
        let mut copy = Vec::with_capacity(alloc, room_for(bytes.len()))?;
        copy.extend_from_slice(bytes)?;
        Ok(Bytes { bytes: copy })
    }

    /// A copy of bytes, and of others after them, with room for a check after them.
    pub fn joined(alloc: Global, first: &[u8], rest: &[u8]) -> Result<Bytes, NoMemory>
        ensures { IfOk result (λ joined. joined ≡ first.now ++ rest.now) }
    {
        let len = first.len().saturating_add(rest.len());
        let mut joined = Vec::with_capacity(alloc, room_for(len.saturating_add(CHECK_LEN)))?;
        joined.extend_from_slice(first)?;
        joined.extend_from_slice(rest)?;
        Ok(Bytes { bytes: joined })
    }

    /// These bytes, as they are. It takes no memory.
    pub fn of(bytes: Vec<u8>) -> Bytes
        ensures { result ≡ bytes.items }
    {
        Bytes { bytes }
    }

    pub fn len(&self) -> usize
        ensures { result ≡ length self.now }
    {
        self.bytes.len()
    }

    pub fn is_empty(&self) -> bool
        ensures { IsTrue result ↔ (self.now ≡ []) }
    {
        self.bytes.is_empty()
    }

    /// Adds a byte at the end.
    pub fn push(&mut self, byte: u8) -> Result<(), NoMemory>
        ensures ok { OnOk result (self.new ≡ self.old ++ byte ∷ []) }
        ensures err { OnErr result (self.new ≡ self.old) }
    {
        self.bytes.push(byte)?;
        Ok(())
    }

    /// Adds bytes at the end, all of them or none.
    pub fn extend(&mut self, bytes: &[u8]) -> Result<(), NoMemory>
        ensures ok { OnOk result (self.new ≡ self.old ++ bytes.now) }
        ensures err { OnErr result (self.new ≡ self.old) }
    {
        self.bytes.extend_from_slice(bytes)?;
        Ok(())
    }

    /// Makes room for so many more bytes.
    pub fn reserve(&mut self, additional: usize) -> Result<(), NoMemory>
        ensures { self.new ≡ self.old }
    {
        self.bytes.reserve(additional)?;
        Ok(())
    }

    pub fn as_slice(&self) -> &[u8]
        ensures { result.now ≡ self.now }
    {
        self.bytes.as_slice()
    }
}

/// The room that a copy of so many bytes is given. No bytes take no memory.
fn room_for(len: usize) -> usize {
    if len == 0 { 0 } else { len.max(LEAST_ROOM) }
}
