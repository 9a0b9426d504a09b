//! An attempt: what it gives, when it ends, and what its end is to the host.

use zw_base::Bytes;

/// How many ticks after its last good callback or Working report an attempt ends.
pub(crate) const WAIT_TICKS: u8 = 100;

/// How many ticks after its end a series is followed by the next one, where a command waits.
pub(crate) const AGAIN_TICKS: u8 = 100;

/// What an attempt gives.
#[derive(Debug, Drop)]
pub enum Plan {
    /// The whole message at once.
    Whole,
    /// So many segments, at least one, of which the first is given at once.
    Segments(u8),
    /// A Nonce Get at once, and this plain text, at most 26 bytes, sealed for the nonce that answers it.
    Sealed(Bytes),
}

/// When an attempt ends, seen from the ticks of the node.
#[derive(Clone, Copy, Debug, PartialEq, Eq)]
pub enum Moment {
    /// Outside the host's tick.
    BetweenTicks,
    /// In the host's tick, of which this node's own tick is still to come: it counts for no wait that begins now.
    BeforeItsTick,
}

/// What the end of an attempt is to the host.
#[derive(Clone, Copy, Debug, PartialEq, Eq)]
pub enum AttemptEnd {
    /// No attempt ended.
    NoneRan,
    /// The next attempt of the series is due.
    Again,
    /// It was the third. The node falls asleep where it was awake and does not listen.
    Unanswered(bool),
}
