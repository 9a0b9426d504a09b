//! Numbers of sessions, and offsets of segments.

ghost use Rattle.std.specs.Prelude.{◌≡◌, ℕ, ◌+◌, ◌*◌, ◌<◌};
ghost use Rattle.std.specs.Option.{SomeIff};
ghost use Rattle.class_core.specs.Cell.{bits};

use std::marker::Model;

/// The greatest number of a supervision session.
pub const MAX_SESSION: u8 = 63;
/// The greatest number of a transport session.
pub const MAX_TRANSPORT: u8 = 15;
/// The greatest offset of a segment, in bytes.
pub const MAX_OFFSET: u16 = 2047;

/// The number of a supervision session, 0 to 63 (Supervision Command Class). Contracts see it.
#[derive(Clone, Copy, Debug, PartialEq, Eq)]
pub struct SessionId {
    number: u8,
}

impl Model for SessionId {
    ghost Value = { ℕ };

    ghost view = { λ s. s.number };

    ghost invariant = { λ s. s.number < 64 };

    ghost inverse = { λ n. record { number = n } };
}

impl SessionId {
    /// The session with this number, where there is one.
    pub fn of(number: u8) -> Option<SessionId>
        ensures { SomeIff result (number < 64) number }
    {
        if number <= MAX_SESSION {
            Some(SessionId { number })
        } else {
            None
        }
    }

    /// The session in the low six bits of a byte.
    pub fn from_low_bits(byte: u8) -> SessionId
        ensures { result ≡ bits 0 6 byte }
    {
        SessionId {
            number: byte & MAX_SESSION,
        }
    }

    pub fn number(self) -> u8
        ensures value { result ≡ self }
        ensures range { result < 64 }
    {
        self.number
    }
}

/// The number of a transport session, 0 to 15 (Transport Service Command Class). Contracts see it.
#[derive(Clone, Copy, Debug, PartialEq, Eq)]
pub struct TransportId {
    number: u8,
}

impl Model for TransportId {
    ghost Value = { ℕ };

    ghost view = { λ s. s.number };

    ghost invariant = { λ s. s.number < 16 };

    ghost inverse = { λ n. record { number = n } };
}

impl TransportId {
    /// The session with this number, where there is one.
    pub fn of(number: u8) -> Option<TransportId>
        ensures { SomeIff result (number < 16) number }
    {
        if number <= MAX_TRANSPORT {
            Some(TransportId { number })
        } else {
            None
        }
    }

    /// The session in the high four bits of a byte.
    pub fn from_high_bits(byte: u8) -> TransportId
        ensures { result ≡ bits 4 4 byte }
    {
        TransportId { number: byte >> 4 }
    }

    pub fn number(self) -> u8
        ensures value { result ≡ self }
        ensures range { result < 16 }
    {
        self.number
    }
}

/// Where a segment stands in its datagram, 0 to 2047 bytes from its start (Transport Service Command Class).
/// Contracts see the number.
#[derive(Clone, Copy, Debug, PartialEq, Eq)]
pub struct SegmentOffset {
    number: u16,
}

impl Model for SegmentOffset {
    ghost Value = { ℕ };

    ghost view = { λ o. o.number };

    ghost invariant = { λ o. o.number < 2048 };

    ghost inverse = { λ n. record { number = n } };
}

impl SegmentOffset {
    /// The offset with this number, where there is one.
    pub fn of(number: u16) -> Option<SegmentOffset>
        ensures { SomeIff result (number < 2048) number }
    {
        if number <= MAX_OFFSET {
            Some(SegmentOffset { number })
        } else {
            None
        }
    }

    /// The offset whose bits 10 to 8 are the low three bits of one byte, and whose low bits are another.
    pub fn from_bytes(high: u8, low: u8) -> SegmentOffset
        ensures { result ≡ bits 0 3 high * 256 + low }
    {
        SegmentOffset {
            number: u16::from(high & 0x07) * 256 + u16::from(low),
        }
    }

    pub fn number(self) -> u16
        ensures value { result ≡ self }
        ensures range { result < 2048 }
    {
        self.number
    }
}
