//! Plain texts that wait for a nonce of their receiver.

ghost use Rattle.std.specs.Prelude.{◌≡◌, ◌≤◌, ◌^◌, ◌<◌, ◌↔◌, Option, Some, None, IsSome, IsTrue, List, ℕ, length, slice_index, IfOk, OnErr};
ghost use Rattle.s0_session.specs.Sending.{seen_after, taken, SealsPending, WouldSeal};

use s0_crypto::{Bytes, Keys, NoMemory, SealEnds, seal};
use std::alloc::Global;
use std::marker::Model;

/// One plain text at a time, to be sealed for a nonce of its receiver. Contracts see the ends, how many nonces were
/// seen, and the pending plain text.
#[derive(Drop)]
pub struct Sender {
    alloc: Global,
    ends: SealEnds,
    seen: u64,
    pending: Option<Bytes>,
}

impl Model for Sender {
    ghost use Rattle.std.specs.Prelude.{◌≤◌, length};
    ghost use Rattle.std.specs.Option.{ForSome};
    ghost use Rattle.s0_session.specs.Sending.{Sending};

    ghost Value = { Sending };

    ghost view = { λ s. record { ends = s.ends; seen = s.seen; pending = s.pending } };

    ghost invariant = { λ s. ForSome s.pending (λ plain. length plain ≤ 26) };
}

/// The count after a nonce with that first byte: that of the last nonce seen, or of the next one.
fn count_after(seen: u64, first: u8) -> Result<Option<u64>, NoMemory>
    ensures ok { IfOk result (λ after. after ≡ seen_after seen first) }
    ensures err { OnErr result (seen_after seen first ≡ Some (2 ^ 64)) }
{
    let first = first as u64;
    if seen > 0 && first == seen % 256 {
        return Ok(Some(seen));
    }
    if seen == u64::MAX {
        return if first == 0 { Err(NoMemory) } else { Ok(None) };
    }
    if first == (seen + 1) % 256 {
        return Ok(Some(seen + 1));
    }
    Ok(None)
}

impl Sender {
    /// Nothing is pending, and no nonce was seen.
    pub fn new(alloc: Global, ends: SealEnds) -> Sender
        ensures { result ≡ record { ends = ends; seen = 0; pending = None } }
    {
        Sender {
            alloc,
            ends,
            seen: 0,
            pending: None,
        }
    }

    /// A plain text is pending, in place of one that was.
    pub fn ask(&mut self, plain: Bytes)
        requires { length plain ≤ 26 }
        ensures { self.new ≡ record self.old { pending = Some plain } }
    {
        self.pending = Some(plain);
    }

    /// Offers a nonce of the receiver: where it is taken, the pending plain text is sealed under it and `drawn`, the
    /// sender's own.
    pub fn offer(
        &mut self,
        keys: &Keys,
        nonce: [u8; 8],
        drawn: [u8; 8],
    ) -> Result<Option<Bytes>, NoMemory>
        ensures ignored { (result ≡ Ok None) ↔ (taken self.old (slice_index nonce 0) ≡ None) }
        ensures ignored_unchanged { result ≡ Ok None → self.new ≡ self.old }
        ensures sealed { (bytes : List ℕ) → result ≡ Ok (Some bytes) → SealsPending self.old keys.now drawn nonce bytes self.new }
        ensures err { OnErr result (self.new ≡ self.old) }
    {
        let Some(seen) = self.count_at(nonce[0])? else {
            return Ok(None);
        };
        let Some(bytes) = self.seal_pending(keys, nonce, drawn)? else {
            return Ok(None);
        };
        self.seen = seen;
        self.pending = None;
        Ok(Some(bytes))
    }

    /// Whether a plain text is pending.
    pub fn is_pending(&self) -> bool
        ensures { IsTrue result ↔ IsSome self.now.pending }
    {
        self.pending.is_some()
    }

    /// How many nonces count as seen once one with that first byte is taken, where it would be.
    pub fn count_at(&self, first: u8) -> Result<Option<u64>, NoMemory>
        ensures ok { IfOk result (λ after. after ≡ taken self.now first) }
        ensures err { OnErr result (taken self.now first ≡ Some (2 ^ 64)) }
    {
        if self.pending.is_none() {
            return Ok(None);
        }
        count_after(self.seen, first)
    }

    /// The message that seals the pending plain text under a nonce of the receiver and `drawn`, the sender's own. It
    /// stays pending.
    pub fn seal_pending(
        &self,
        keys: &Keys,
        nonce: [u8; 8],
        drawn: [u8; 8],
    ) -> Result<Option<Bytes>, NoMemory>
        ensures nothing { (result ≡ Ok None) ↔ (self.now.pending ≡ None) }
        ensures sealed { (bytes : List ℕ) → result ≡ Ok (Some bytes) → WouldSeal self.now keys.now drawn nonce bytes }
        ensures short { (bytes : List ℕ) → result ≡ Ok (Some bytes) → length bytes ≤ 46 }
    {
        let Some(plain) = &self.pending else {
            return Ok(None);
        };
        let bytes = seal(self.alloc, keys, drawn, nonce, &self.ends, plain.as_slice())?;
        Ok(Some(bytes))
    }

    /// Nothing is pending.
    pub fn drop_pending(&mut self)
        ensures { self.new ≡ record self.old { pending = None } }
    {
        let _dropped = self.pending.take();
    }
    /// How many nonces of the receiver were seen.
    pub fn seen(&self) -> u64
        ensures { result ≡ self.now.seen }
    {
        self.seen
    }

    /// Sets how many nonces of the receiver were seen.
    pub fn restore(&mut self, count: u64)
        ensures { self.new ≡ record self.old { seen = count } }
    {
        self.seen = count;
    }
}
