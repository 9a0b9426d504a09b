//! Frames, and what is counted between node 1 and another node.

ghost use Rattle.std.specs.Prelude.{◌≡◌};
ghost use Rattle.include_world.specs.Air.{no_counts};

use air_frames::{Heading, Nonces};
use zw_base::{NodeId, Payload};

/// A frame that went on the air.
#[derive(Drop)]
pub struct Flight {
    /// The end that is not node 1.
    pub node: NodeId,
    pub heading: Heading,
    /// Whether it was marked as lost.
    pub lost: bool,
    pub payload: Payload,
    /// How many new nonces had been shown between its ends when it was on the air.
    pub shown: u64,
}

/// What is counted between node 1 and another node.
#[derive(Clone, Copy)]
pub struct Pair {
    /// The nonces that were shown.
    pub nonces: Nonces,
    /// The frames up to this number are heard no more.
    pub forgotten: u64,
}

impl Pair {
    /// Nothing was counted.
    pub(crate) fn new() -> Pair
        ensures { result ≡ no_counts }
    {
        Pair {
            nonces: Nonces::new(),
            forgotten: 0,
        }
    }
}
