//! The decoder: a stream of bytes and ticks, split as it comes.

ghost use Rattle.std.specs.Prelude.{◌≡◌, ℕ, List as Items, [], ◌∷◌, ◌++◌, ◌+◌, ◌<◌, ◌≤◌, ◌↔◌, IsTrue, OnOk, OnErr, IfOk, OnSome, length, take};
ghost use Rattle.serial_frame.specs.Stream.{IsUnfinished, IsRest, Reads, Adds, Feeds, FeedsOne, GoesOn, no_rest, piece_of, mark, after_tick, aborted_if};
ghost use Rattle.serial_frame.specs.Search.{running_sum};

use crate::Item;
use crate::search::{Found, find};
use crate::split::split;
use crate::unit::{SUM_START, put_at};
use std::alloc::Global;
use std::marker::Model;
use zw_base::{List, NoMemory};

/// The longest unfinished frame: SOF, the length 255, and one byte less than it asks for.
const MAX_HELD: usize = 256;

/// The tick after its first byte at which an unfinished frame is forgotten.
const ABORT_TICKS: u8 = 15;

/// Splits a stream of bytes into units and refusals. Contracts see the unfinished frame and its ticks.
#[derive(Drop)]
pub struct Decoder {
    alloc: Global,
    held: [u8; MAX_HELD],
    len: usize,
    sum: u8,
    ticks: u8,
}

impl Model for Decoder {
    ghost use Rattle.std.specs.Prelude.{take};
    ghost use Rattle.serial_frame.specs.Stream.{Rest};

    ghost Value = { Rest };

    ghost use Rattle.serial_frame.specs.Decoder.{IsDecoder};

    ghost view = { λ d. record { bytes = take d.len d.held; ticks = d.ticks } };

    ghost invariant = { IsDecoder };
}

impl Decoder {
    /// A decoder at the beginning of a stream. It takes no memory.
    pub fn new(alloc: Global) -> Decoder
        ensures state { result ≡ no_rest }
        ensures is_rest { IsRest result }
    {
        Decoder {
            alloc,
            held: [0; MAX_HELD],
            len: 0,
            sum: SUM_START,
            ticks: 0,
        }
    }

    /// A decoder with the same unfinished frame. It takes no memory.
    pub fn copy(&self) -> Decoder
        ensures state { result ≡ self.now }
        ensures is_rest { IsRest result }
    {
        Decoder {
            alloc: self.alloc,
            held: self.held,
            len: self.len,
            sum: self.sum,
            ticks: self.ticks,
        }
    }

    /// The number of bytes of the unfinished frame, 0 to 256.
    pub fn rest(&self) -> u16
        ensures bytes { result ≡ length self.now.bytes }
        ensures is_rest { IsRest self.now }
    {
        self.len as u16
    }

    /// Takes the next bytes of the stream, and adds each item that ends in them.
    pub fn feed(&mut self, piece: &[u8], out: &mut List<Item>) -> Result<(), NoMemory>
        // The items and the new rest are what the old rest and the piece read as.
        ensures feeds { OnOk result (Adds out.old.items out.new.items (Feeds self.old piece.now self.new)) }
        ensures only { OnOk result ((items : Items Item) (rest : Items ℕ) → Reads (self.old.bytes ++ piece.now) items rest →
            (out.new.items ≡ out.old.items ++ items) × (self.new.bytes ≡ rest)) }
        // So they go on with each splitting of the stream so far.
        ensures stream { OnOk result (Adds out.old.items out.new.items (GoesOn self.old (piece_of piece.now) self.new)) }
        ensures is_rest { IsRest self.new }
        ensures err { OnErr result ((self.new ≡ self.old) × (out.new.items ≡ out.old.items)) }
    {
        match find(self.alloc, &self.held[..self.len], self.sum, piece)? {
            Found::Part { sum } => self.extend(piece, sum),
            Found::Whole { item, rest } => {
                let (sum, tail) = split(self.alloc, item, rest, out)?;
                self.replace(tail, sum);
            }
        }
        Ok(())
    }

    /// Takes the bytes up to the end of the first item that ends in the piece, or all of them. The answer is that
    /// item and the bytes that were not taken.
    pub fn next_item<'a>(&mut self, piece: &'a [u8]) -> Result<(Option<Item>, &'a [u8]), NoMemory>
        ensures feeds { IfOk result (λ found. FeedsOne self.old piece.now self.new found.0 found.1.now) }
        ensures shorter { IfOk result (λ found. OnSome found.0 (length found.1.now < length piece.now)) }
        ensures is_rest { IsRest self.new }
        ensures err { OnErr result (self.new ≡ self.old) }
    {
        match find(self.alloc, &self.held[..self.len], self.sum, piece)? {
            Found::Part { sum } => {
                self.extend(piece, sum);
                Ok((None, &[]))
            }
            Found::Whole { item, rest } => {
                self.replace(&[], SUM_START);
                Ok((Some(item), rest))
            }
        }
    }

    /// All of the piece is of the unfinished frame.
    fn extend(&mut self, piece: &[u8], sum: u8)
        requires unfinished { IsUnfinished (self.old.bytes ++ piece.now) }
        requires sum { sum ≡ running_sum (self.old.bytes ++ piece.now) }
        requires room { length (self.old.bytes ++ piece.now) ≤ 256 }
        ensures state { self.new ≡ record { bytes = self.old.bytes ++ piece.now; ticks = self.old.ticks } }
        ensures is_rest { IsRest self.new }
    {
        put_at(&mut self.held, self.len, piece);
        self.len += piece.len();
        self.sum = sum;
    }

    /// The unfinished frame is these bytes, which have come since the last tick.
    fn replace(&mut self, tail: &[u8], sum: u8)
        requires unfinished { IsUnfinished tail.now }
        requires sum { sum ≡ running_sum tail.now }
        requires room { length tail.now ≤ 256 }
        ensures state { self.new ≡ record { bytes = tail.now; ticks = 0 } }
        ensures is_rest { IsRest self.new }
    {
        put_at(&mut self.held, 0, tail);
        self.len = tail.len();
        self.sum = sum;
        self.ticks = 0;
    }

    /// Counts a tick. True exactly where it is the fifteenth since the first byte of an unfinished frame, which is
    /// forgotten then.
    pub fn tick(&mut self) -> bool
        ensures aborts { IsTrue result ↔ (self.old.ticks ≡ 14) }
        ensures after { self.new ≡ after_tick self.old }
        ensures is_rest { IsRest self.new }
        ensures stream { GoesOn self.old (mark ∷ []) self.new (aborted_if result) }
    {
        if self.len == 0 {
            return false;
        }
        self.ticks += 1;
        if self.ticks < ABORT_TICKS {
            return false;
        }
        self.len = 0;
        self.sum = SUM_START;
        self.ticks = 0;
        true
    }
}
