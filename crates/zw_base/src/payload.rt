//! Payloads of radio frames, and the replies that a device gives in one call.

ghost use Rattle.std.specs.Prelude.{◌≡◌, ℕ, [], ◌∷◌, ◌++◌, ◌<◌, ◌≤◌, length, slice_get, IfOk, IfSome, IsTrue, ◌↔◌};
ghost use Rattle.std.specs.Option.{SomeIff, option_copied};

use crate::{List, NoMemory};
use std::alloc::Global;
use std::marker::Model;

/// The most bytes of a payload on the air (this project's own limit).
pub const MAX_PAYLOAD: usize = 46;

/// The most payloads that a device gives in one call.
pub const MAX_REPLIES: u8 = 8;

/// The bytes that a radio frame carries, at most 46, kept in the value itself. Contracts see the list.
#[derive(Debug, Drop)]
pub struct Payload {
    buffer: [u8; MAX_PAYLOAD],
    len: usize,
}

impl Model for Payload {
    ghost use Rattle.std.specs.Prelude.{ℕ, List, take, ◌≤◌};

    ghost Value = { List ℕ };

    ghost view = { λ p. take p.len p.buffer };

    ghost invariant = { λ p. p.len ≤ 46 };
}

impl Payload {
    /// These bytes as a payload, where they are at most 46. It takes no memory.
    pub fn of(bytes: &[u8]) -> Option<Payload>
        ensures { SomeIff result (length bytes.now ≤ 46) bytes.now }
    {
        if bytes.len() > MAX_PAYLOAD {
            return None;
        }
        Some(Payload::fitting(bytes))
    }

    /// These bytes, at most 46, as a payload. It takes no memory.
    pub fn fitting(bytes: &[u8]) -> Payload
        requires { length bytes.now ≤ 46 }
        ensures { result ≡ bytes.now }
    {
        let len = bytes.len();
        let mut buffer = [0; MAX_PAYLOAD];
        buffer[..len].copy_from_slice(bytes);
        Payload { buffer, len }
    }

    pub fn bytes(&self) -> &[u8]
        ensures value { result.now ≡ self.now }
        ensures to_max { length self.now ≤ 46 }
    {
        &self.buffer[..self.len]
    }
}

/// At most 8 payloads, in the order in which they are to be sent. Contracts see the list.
#[derive(Debug, Drop)]
pub struct Replies {
    payloads: List<Payload>,
}

impl Model for Replies {
    ghost use Rattle.std.specs.Prelude.{ℕ, List, length, ◌≤◌, ◌+◌};

    ghost Value = { List (List ℕ) };

    ghost view = { λ r. r.payloads.items };

    ghost invariant = { λ r. (length r.payloads.items ≤ 8) × (8 ≤ length r.payloads.items + r.payloads.room) };
}

impl Replies {
    /// No replies, with the room for all that may come.
    pub fn new(alloc: Global) -> Result<Replies, NoMemory>
        ensures { IfOk result (λ replies. replies ≡ []) }
    {
        let mut payloads = List::new(alloc);
        payloads.reserve(MAX_REPLIES as usize)?;
        Ok(Replies { payloads })
    }

    pub fn len(&self) -> u8
        ensures value { result ≡ length self.now }
        ensures to_max { result ≤ 8 }
    {
        self.payloads.len() as u8
    }

    pub fn is_full(&self) -> bool
        ensures { IsTrue result ↔ (length self.now ≡ 8) }
    {
        self.payloads.len() >= MAX_REPLIES as usize
    }

    /// The payload at that place, counted from 0.
    pub fn get(&self, at: u8) -> Option<&[u8]>
        ensures value { option_copied result ≡ slice_get self.now at }
        ensures to_max { IfSome result (λ payload. length payload.now ≤ 46) }
    {
        match self.payloads.as_slice().get(at as usize) {
            Some(payload) => Some(payload.bytes()),
            None => None,
        }
    }

    /// Adds a payload at the end. There are fewer than 8.
    pub fn push(&mut self, payload: Payload)
        requires { length self.old < 8 }
        ensures { self.new ≡ self.old ++ payload ∷ [] }
    {
        self.payloads.put(payload);
    }

    pub fn clear(&mut self)
        ensures { self.new ≡ [] }
    {
        self.payloads.clear();
    }
}
