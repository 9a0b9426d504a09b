//! What is counted for one node: its sessions, and the nonces shown between it and node 1.

ghost use Rattle.std.specs.Prelude.{◌≡◌, ◌+◌, ◌<◌, ◌^◌};

use crate::{Heading, Nonces};

/// What is counted for one node.
#[derive(Clone, Copy, Debug)]
pub struct Peer {
    begun: u64,
    nonces: Nonces,
}

impl Peer {
    ghost use Rattle.air_frames.specs.Peer.{no_counts, showing};

    /// Nothing was counted.
    pub(crate) fn new() -> Peer
        ensures { result ≡ no_counts }
    {
        Peer {
            begun: 0,
            nonces: Nonces::new(),
        }
    }

    /// How many sessions of the node have begun.
    pub fn begun(&self) -> u64
        ensures { result ≡ self.now.begun }
    {
        self.begun
    }

    /// How many new nonces have been shown between the node and node 1.
    pub fn shown(&self) -> u64
        ensures { result ≡ self.now.nonces.shown }
    {
        self.nonces.shown()
    }

    pub(crate) fn set_begun(&mut self, sessions: u64)
        ensures { self.new ≡ record self.old { begun = sessions } }
    {
        self.begun = sessions;
    }

    /// Counts the nonce that a payload shows, where it is a new one.
    pub(crate) fn show(&mut self, heading: Heading, payload: &[u8])
        requires { self.old.nonces.shown + 1 < 2 ^ 64 }
        ensures { self.new ≡ showing self.old heading payload.now }
    {
        self.nonces.show(heading, payload);
    }
}
