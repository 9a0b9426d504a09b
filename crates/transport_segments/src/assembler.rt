//! Datagrams put together from their segments.

ghost use Rattle.std.specs.Prelude.{◌≡◌, ◌+◌, ◌-◌, ◌<◌, ◌≤◌, ◌↔◌, length, take, drop, map, replicate, Some, None, IsTrue, IfOk, IfErr, OnOk, MatchOption};
ghost use Rattle.transport_segments.specs.Faults.{IsSound, MayAnswer};
ghost use Rattle.transport_segments.specs.Places.{written, IsFull};
ghost use Rattle.transport_segments.specs.Kept.{Empty, Partial, kept_len, with_payload};
ghost use Rattle.transport_segments.specs.Reassembly.{Takes, Answers, opened, places_with};
ghost use Rattle.transport_segments.specs.Taking.{taken_at, TakesAs, CompletesAs};

use crate::SegmentFault;
use crate::places::{append_present, forget, is_full, least_missing, write};
use crate::segment::{MAX_DATAGRAM, Segment, judge};
use std::alloc::Global;
use std::marker::Model;
use zw_base::{Bytes, NoMemory};

/// What a segment brought.
#[derive(Debug, Drop)]
pub enum Taken {
    /// It is kept, and the last byte of the datagram has not come.
    Kept,
    /// The last byte of the datagram has come, and that place is the first for which no byte has.
    Need(u16),
    /// The datagram, whose last missing byte it was.
    Whole(Bytes),
}

/// One datagram of at most 512 bytes while its segments come. Contracts see what is kept of it.
#[derive(Debug, Drop)]
pub struct Assembler {
    alloc: Global,
    id: u8,
    size: usize,
    places: Vec<Option<u8>>,
}

impl Model for Assembler {
    ghost use Rattle.std.specs.Prelude.{◌≡◌, ◌≤◌, take, vec_len};
    ghost use Rattle.transport_segments.specs.Kept.{Reassembly, kept_of};

    ghost Value = { Reassembly };

    ghost view = { λ a. kept_of a.id (take a.size a.places.items) };

    ghost invariant = { λ a. (vec_len a.places ≡ 512) × (a.size ≤ 512) };
}

impl Assembler {
    /// Nothing is kept, and there is room for a datagram.
    pub fn new(alloc: Global) -> Result<Assembler, NoMemory>
        ensures { IfOk result (λ assembler. assembler ≡ Empty) }
    {
        let places = vec![in alloc; None; usize::from(MAX_DATAGRAM)]?;
        Ok(Assembler {
            alloc,
            id: 0,
            size: 0,
            places,
        })
    }

    /// Forgets what is kept.
    pub fn clear(&mut self)
        ensures { self.new ≡ Empty }
    {
        self.size = 0;
    }

    /// Takes one segment.
    pub fn take(&mut self, bytes: &[u8]) -> Result<Taken, SegmentFault>
        ensures sound { IfOk result (λ taken. IsSound bytes.now) }
        ensures taken { IfOk result (λ taken. Takes self.old bytes.now taken self.new) }
        ensures fault { IfErr result (λ fault. MayAnswer bytes.now fault) }
        ensures unchanged { IfErr result (λ fault. self.new ≡ self.old) }
        ensures to_most { OnOk result (kept_len self.new ≤ 512) }
        // the answer as a function of what is kept and the segment
        ensures exact { TakesAs result (taken_at self.old bytes.now) }
    {
        self.take_one(bytes)
    }

    /// The same.
    fn take_one(&mut self, bytes: &[u8]) -> Result<Taken, SegmentFault>
        ensures sound { IfOk result (λ taken. IsSound bytes.now) }
        ensures taken { IfOk result (λ taken. Takes self.old bytes.now taken self.new) }
        ensures fault { IfErr result (λ fault. MayAnswer bytes.now fault) }
        ensures unchanged { IfErr result (λ fault. self.new ≡ self.old) }
        ensures to_most { OnOk result (kept_len self.new ≤ 512) }
    {
        let segment = judge(bytes)?;
        if let Some(datagram) = self.joined_with(&segment)? {
            self.clear();
            return Ok(Taken::Whole(datagram));
        }
        self.keep(&segment);
        Ok(answer(&self.places[..self.size]))
    }

    /// The datagram that this segment completes, where it does. Nothing is taken.
    pub fn completes(&self, bytes: &[u8]) -> Result<Option<Bytes>, SegmentFault>
        ensures exact { CompletesAs result (taken_at self.now bytes.now) }
    {
        let segment = match judge(bytes) {
            Ok(segment) => segment,
            Err(fault) => return Err(fault),
        };
        Ok(self.joined_with(&segment)?)
    }

    /// The datagram, where no byte is missing with this segment.
    fn joined_with(&self, segment: &Segment<'_>) -> Result<Option<Bytes>, NoMemory>
        requires from_one { 1 ≤ segment.now.size }
        requires inside { segment.now.offset + length segment.now.payload.now ≤ segment.now.size }
        ensures { let places = places_with self.now segment.now.id segment.now.size segment.now.offset segment.now.payload.now in
            IfOk result (λ joined. MatchOption joined (¬ IsFull places) (λ datagram. places ≡ map Some datagram)) }
    {
        let size = usize::from(segment.size);
        if self.id == segment.id && self.size == size {
            joined(
                self.alloc,
                &self.places[..size],
                usize::from(segment.offset),
                segment.payload,
            )
        } else {
            alone(
                self.alloc,
                size,
                usize::from(segment.offset),
                segment.payload,
            )
        }
    }

    /// Keeps a segment.
    fn keep(&mut self, segment: &Segment<'_>)
        requires from_one { 1 ≤ segment.now.size }
        requires to_most { segment.now.size ≤ 512 }
        requires inside { segment.now.offset + length segment.now.payload.now ≤ segment.now.size }
        ensures { self.new ≡ Partial segment.now.id (places_with self.old segment.now.id segment.now.size segment.now.offset segment.now.payload.now) }
    {
        self.open(segment.id, usize::from(segment.size));
        self.put(usize::from(segment.offset), segment.payload);
    }

    /// Keeps a datagram of this session and size, and nothing of another.
    fn open(&mut self, id: u8, size: usize)
        requires from_one { 1 ≤ size }
        requires to_most { size ≤ 512 }
        ensures { self.new ≡ Partial id (opened self.old id size) }
    {
        if self.id == id && self.size == size {
            return;
        }
        self.begin(id, size);
    }

    /// Keeps no byte of another datagram.
    fn begin(&mut self, id: u8, size: usize)
        requires from_one { 1 ≤ size }
        requires to_most { size ≤ 512 }
        ensures { self.new ≡ Partial id (replicate size None) }
    {
        self.id = id;
        self.size = size;
        forget(&mut self.places);
    }

    /// Puts a payload in its places.
    fn put(&mut self, offset: usize, payload: &[u8])
        requires from_one { 1 ≤ kept_len self.old }
        requires inside { offset + length payload.now ≤ kept_len self.old }
        ensures { self.new ≡ with_payload self.old offset payload.now }
    {
        write(&mut self.places, offset, payload);
    }
}

/// The payload, where it is a whole datagram of that size.
fn alone(
    alloc: Global,
    size: usize,
    offset: usize,
    payload: &[u8],
) -> Result<Option<Bytes>, NoMemory>
    requires from_one { 1 ≤ size }
    requires inside { offset + length payload.now ≤ size }
    ensures { let places = written (replicate size None) offset payload.now in
        IfOk result (λ joined. MatchOption joined (¬ IsFull places) (λ datagram. places ≡ map Some datagram)) }
{
    if payload.len() == size {
        Ok(Some(Bytes::from_slice(alloc, payload)?))
    } else {
        Ok(None)
    }
}

/// The bytes of these places with a payload in those from `offset` on, where none is missing then.
fn joined(
    alloc: Global,
    places: &[Option<u8>],
    offset: usize,
    payload: &[u8],
) -> Result<Option<Bytes>, NoMemory>
    requires { offset + length payload.now ≤ length places.now }
    ensures { IfOk result (λ joined. MatchOption joined (¬ IsFull (written places.now offset payload.now))
        (λ datagram. written places.now offset payload.now ≡ map Some datagram)) }
{
    let end = offset + payload.len();
    if !is_full_around(places, offset, end) {
        return Ok(None);
    }
    let mut datagram = Bytes::new(alloc);
    datagram.reserve(places.len())?;
    append_present(&mut datagram, &places[..offset])?;
    datagram.extend(payload)?;
    append_present(&mut datagram, &places[end..])?;
    Ok(Some(datagram))
}

/// Whether a byte came for each place before `start` and from `end` on.
fn is_full_around(places: &[Option<u8>], start: usize, end: usize) -> bool
    requires start { start ≤ end }
    requires end { end ≤ length places.now }
    ensures { IsTrue result ↔ (IsFull (take start places.now) × IsFull (drop end places.now)) }
{
    is_full(&places[..start]) && is_full(&places[end..])
}

/// What is answered while a byte is missing.
fn answer(places: &[Option<u8>]) -> Taken
    requires from_one { 1 ≤ length places.now }
    requires to_most { length places.now ≤ 512 }
    requires missing { ¬ IsFull places.now }
    ensures { Answers places.now result }
{
    if places[places.len() - 1].is_some() {
        Taken::Need(least_missing(places) as u16)
    } else {
        Taken::Kept
    }
}
