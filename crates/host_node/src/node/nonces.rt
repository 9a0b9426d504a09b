//! Nonces of the node, and the plain text that is sealed for one.

ghost use Rattle.std.specs.Prelude.{◌≡◌, ◌^◌, ◌↔◌, Some, IsTrue, IsSome, IfOk, OnErr};
ghost use Rattle.host_node.specs.State.{count_at as counted, SealsText};
ghost use Rattle.host_node.specs.Steps.{after_nonce, after_restore_seen};

use crate::node::Node;
use s0_crypto::Keys;
use zw_base::{NoMemory, Payload};

impl Node {
    /// Whether the running attempt has a plain text that waits for a nonce of it.
    pub fn is_pending(&self) -> bool
        ensures { IsTrue result ↔ IsSome self.now.pending }
    {
        self.sender.is_pending()
    }

    /// How many nonces of it count as seen once one with that first byte is taken; `None` where it is not taken, since
    /// no plain text is pending or the byte is neither that of the last one nor of the next.
    pub fn count_at(&self, first: u8) -> Result<Option<u64>, NoMemory>
        ensures ok { IfOk result (λ after. after ≡ counted self.now first) }
        ensures err { OnErr result (counted self.now first ≡ Some (2 ^ 64)) }
    {
        self.sender.count_at(first)
    }

    /// The message that seals the pending plain text under a nonce of the node and `drawn`, the controller's own.
    pub fn seal_text(
        &self,
        keys: &Keys,
        nonce: [u8; 8],
        drawn: [u8; 8],
    ) -> Result<Payload, NoMemory>
        requires { IsSome self.now.pending }
        ensures { IfOk result (λ text.
            SealsText self.now keys.now drawn nonce text) }
    {
        let bytes = self.sender.seal_pending(keys, nonce, drawn)?.unwrap();
        Ok(Payload::of(bytes.as_slice()).unwrap())
    }

    /// A nonce of the node is taken, so that this many were seen: the running attempt has `text` to give.
    pub fn take_nonce(&mut self, seen: u64, text: Payload)
        requires { IsSome self.old.pending }
        ensures { self.new ≡ after_nonce self.old seen text }
    {
        self.sender.restore(seen);
        self.sender.drop_pending();
        self.text = Some(text);
    }

    /// So many nonces of it were seen, by the records.
    pub fn restore_seen(&mut self, seen: u64)
        ensures { self.new ≡ after_restore_seen self.old seen }
    {
        self.sender.restore(seen);
    }
}
