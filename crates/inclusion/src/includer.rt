//! The end of the host, which adds nodes.

ghost use Rattle.std.specs.Prelude.{
  ◌≡◌,
  ◌∷◌,
  ◌-◌,
  [],
  Option,
  Some,
  None,
  Ok,
  slice_index,
  IfOk,
  IfSome,
  OnOk,
  OnErr,
  IsSome,
  IsErrOf,
  ◌↔◌,
  is_some,
  true,
  false,
};
ghost use Rattle.s0_session.specs.Nonces.{account_of, nonce_spent};
ghost use Rattle.inclusion.specs.Messages.{IsSealed, nonce_named, scheme_get};
ghost use Rattle.inclusion.specs.Including.{
  adding,
  asking,
  asks,
  exchange_after,
  failing_in,
  fresh_includer,
  gives_nonce,
  held_in,
  includer_takes,
  is_secure,
  is_verified,
  is_with,
  sealing,
  seals,
  takes_nonce,
  takes_scheme,
  takes_sealed,
  without_secure,
};

use crate::message::{NONCE_GET, SCHEME_GET, is_verify, key_set, message_of, nonce_report};
use crate::sealing::{TEMPORARY_KEY, nonce_named, seal_for};
use crate::{AddFault, EXCHANGE_TICKS, Exchange, Message};
use s0_crypto::{SealEnds, open};
use s0_session::{NonceBook, Sender};
use std::alloc::Global;
use std::marker::Model;
use zw_base::{Bytes, NoMemory, NodeId, Payload, Replies, controller};

/// One place for each node number from 0 to 232; that of 0 is never used.
const NODES: usize = 233;

/// The host's part of adding nodes with a key. Contracts see all that it is.
#[derive(Drop)]
pub struct Includer {
    alloc: Global,
    key: [u8; 16],
    secure: [bool; 233],
    book: NonceBook,
    seen: [u64; 233],
    exchange: Option<Exchange>,
}

impl Model for Includer {
    ghost use Rattle.inclusion.specs.Including.{Including};

    ghost Value = { Including };

    ghost view = { λ i. record { key = i.key; secure = i.secure; book = i.book; seen = i.seen; exchange = i.exchange } };
}

impl Includer {
    /// No node is secure, and no exchange under way.
    #[tactic(auto, unfolding(crate::specs::Including::fresh_includer))]
    pub fn new(alloc: Global, key: [u8; 16]) -> Result<Includer, NoMemory>
        ensures { IfOk result (λ includer. includer ≡ fresh_includer key) }
    {
        Ok(Includer {
            alloc,
            key,
            secure: [false; NODES],
            book: NonceBook::new(alloc)?,
            seen: [0; NODES],
            exchange: None,
        })
    }

    /// Whether a node counts as secure.
    pub fn is_secure(&self, node: NodeId) -> bool
        ensures { result ≡ is_secure self.now node }
    {
        self.secure[node.number() as usize]
    }

    /// A node counts as secure no more; nonces stay.
    pub fn reset(&mut self, node: NodeId)
        ensures { self.new ≡ without_secure self.old node }
    {
        self.secure[node.number() as usize] = false;
    }

    /// The exchange with a node begins, and gives its Scheme Get.
    pub fn add(&mut self, node: NodeId, out: &mut Replies) -> Result<(), AddFault>
        requires { out.old ≡ [] }
        ensures busy { IsErrOf result AddFault.Busy ↔ IsSome self.old.exchange }
        ensures secure { IsErrOf result AddFault.Secure ↔ ((self.old.exchange ≡ None) × (is_secure self.old node ≡ true)) }
        ensures ok { OnOk result (self.new ≡ adding self.old node) }
        ensures replies { OnOk result (out.new ≡ scheme_get ∷ []) }
        ensures err { OnErr result (self.new ≡ self.old) }
        ensures err_replies { OnErr result (out.new ≡ []) }
    {
        if self.exchange.is_some() {
            return Err(AddFault::Busy);
        }
        if self.is_secure(node) {
            return Err(AddFault::Secure);
        }
        let ends = SealEnds {
            sender: controller(),
            receiver: node,
        };
        let mut sender = Sender::new(self.alloc, ends);
        sender.restore(self.seen[node.number() as usize]);
        self.exchange = Some(Exchange {
            node,
            left: EXCHANGE_TICKS,
            asked: false,
            sender,
        });
        out.push(Payload::fitting(&SCHEME_GET));
        Ok(())
    }

    /// A tick of 100 ms passes. The answer is the node whose exchange fails at it.
    pub fn tick(&mut self) -> Option<NodeId>
        ensures answer { result ≡ failing_in self.old.exchange }
        ensures after { self.new ≡ record self.old { exchange = exchange_after self.old.exchange } }
    {
        let Some(exchange) = &mut self.exchange else {
            return None;
        };
        if exchange.left > 1 {
            exchange.left -= 1;
            return None;
        }
        let node = exchange.node;
        self.exchange = None;
        Some(node)
    }

    /// Whether the exchange under way fails at the next tick.
    pub fn fails_next(&self) -> bool
        ensures { result ≡ is_some (failing_in self.now.exchange) }
    {
        match &self.exchange {
            Some(exchange) => exchange.left <= 1,
            None => false,
        }
    }

    /// The host hears a payload of a node. `drawn` are the bytes of a nonce, where one is needed.
    #[tactic(auto, unfolding(crate::specs::Including::includer_takes))]
    pub fn take(
        &mut self,
        from: NodeId,
        payload: &[u8],
        drawn: [u8; 8],
        out: &mut Replies,
    ) -> Result<(), NoMemory>
        requires { out.old ≡ [] }
        ensures ok { OnOk result (self.new ≡ (includer_takes self.old from payload.now drawn).includer) }
        ensures replies { OnOk result (out.new ≡ (includer_takes self.old from payload.now drawn).replies) }
        ensures err { OnErr result (self.new ≡ self.old) }
        ensures err_replies { OnErr result (out.new ≡ []) }
    {
        if !self.is_with(from) {
            return Ok(());
        }
        match message_of(payload) {
            Message::SchemeReport => self.take_scheme(out)?,
            Message::NonceGet => self.give_nonce(from, drawn, out)?,
            Message::NonceReport(nonce) => self.take_nonce(nonce, drawn, out)?,
            Message::Sealed => self.take_sealed(from, payload)?,
            Message::SchemeGet | Message::Other => {}
        }
        Ok(())
    }

    /// Whether the exchange under way is with that node.
    fn is_with(&self, node: NodeId) -> bool
        ensures { result ≡ is_with self.now.exchange node }
    {
        match &self.exchange {
            Some(exchange) => exchange.node == node,
            None => false,
        }
    }

    /// The host hears a Scheme Report.
    fn take_scheme(&mut self, out: &mut Replies) -> Result<(), NoMemory>
        requires { out.old ≡ [] }
        ensures ok { OnOk result (self.new ≡ (takes_scheme self.old).includer) }
        ensures replies { OnOk result (out.new ≡ (takes_scheme self.old).replies) }
        ensures err { OnErr result (self.new ≡ self.old) }
        ensures err_replies { OnErr result (out.new ≡ []) }
    {
        let Some(mut exchange) = self.exchange.take() else {
            return Ok(());
        };
        let asked = ask(self.alloc, &self.key, &mut exchange, out);
        self.exchange = Some(exchange);
        asked?;
        Ok(())
    }

    /// The host hears a Nonce Report.
    fn take_nonce(
        &mut self,
        nonce: [u8; 8],
        drawn: [u8; 8],
        out: &mut Replies,
    ) -> Result<(), NoMemory>
        requires { out.old ≡ [] }
        ensures ok { OnOk result (self.new ≡ (takes_nonce self.old self.old.exchange nonce drawn).includer) }
        ensures replies { OnOk result (out.new ≡ (takes_nonce self.old self.old.exchange nonce drawn).replies) }
        ensures err { OnErr result (self.new ≡ self.old) }
        ensures err_replies { OnErr result (out.new ≡ []) }
    {
        let Some(mut exchange) = self.exchange.take() else {
            return Ok(());
        };
        let node = exchange.node;
        let sealed = seal_key(&mut exchange, nonce, drawn, out);
        let seen = exchange.sender.seen();
        self.exchange = Some(exchange);
        sealed?;
        self.seen[node.number() as usize] = seen;
        Ok(())
    }

    /// The host hears a Nonce Get.
    fn give_nonce(
        &mut self,
        node: NodeId,
        drawn: [u8; 8],
        out: &mut Replies,
    ) -> Result<(), NoMemory>
        requires { out.old ≡ [] }
        ensures ok { OnOk result (self.new ≡ (gives_nonce self.old node drawn).includer) }
        ensures replies { OnOk result (out.new ≡ (gives_nonce self.old node drawn).replies) }
        ensures err { OnErr result (self.new ≡ self.old) }
        ensures err_replies { OnErr result (out.new ≡ []) }
    {
        if self.book.given(node) == u64::MAX {
            return Err(NoMemory);
        }
        let nonce = self.book.give(node, drawn);
        out.push(nonce_report(&nonce));
        Ok(())
    }

    /// The host hears a Security message: the nonce that it names is spent, whether it opens or not.
    fn take_sealed(&mut self, node: NodeId, payload: &[u8]) -> Result<(), NoMemory>
        requires { IsSealed payload.now }
        ensures ok { OnOk result (self.new ≡ takes_sealed self.old node payload.now) }
        ensures err { OnErr result (self.new ≡ self.old) }
    {
        let is_verified = self.is_verified(node, payload)?;
        let _spent = self.book.spend(node, nonce_named(payload));
        if is_verified {
            self.secure[node.number() as usize] = true;
            self.exchange = None;
        }
        Ok(())
    }

    /// Whether a Security message names the live nonce and holds a Verify.
    fn is_verified(&self, node: NodeId, payload: &[u8]) -> Result<bool, NoMemory>
        requires { IsSealed payload.now }
        ensures { IfOk result (λ told. told ≡
            is_verified (held_in self.now node payload.now (nonce_spent (account_of self.now.book node) (nonce_named payload.now)))) }
    {
        let Some(nonce) = self.live(node, nonce_named(payload)) else {
            return Ok(false);
        };
        let ends = SealEnds {
            sender: node,
            receiver: controller(),
        };
        match open(self.alloc, self.key, nonce, &ends, payload)? {
            Some(plain) => Ok(is_verify(plain.as_slice())),
            None => Ok(false),
        }
    }

    /// The live nonce of a node, if it has that first byte.
    fn live(&self, node: NodeId, first: u8) -> Option<[u8; 8]>
        ensures value { result ≡ nonce_spent (account_of self.now.book node) first }
        ensures named { IfSome result (λ nonce. slice_index nonce 0 ≡ first) }
    {
        let nonce = self.book.live(node)?;
        if nonce[0] == first { Some(nonce) } else { None }
    }
}

/// The first Scheme Report of an exchange makes the key pending, and a nonce is asked for it.
fn ask(
    alloc: Global,
    key: &[u8; 16],
    exchange: &mut Exchange,
    out: &mut Replies,
) -> Result<(), NoMemory>
    requires { out.old ≡ [] }
    ensures ok { OnOk result (exchange.new ≡ asking key.now exchange.old exchange.old.asked) }
    ensures replies { OnOk result (out.new ≡ asks exchange.old.asked) }
    ensures err { OnErr result (exchange.new ≡ exchange.old) }
    ensures err_replies { OnErr result (out.new ≡ []) }
{
    if exchange.asked {
        return Ok(());
    }
    let plain = Bytes::from_slice(alloc, &key_set(key))?;
    exchange.sender.ask(plain);
    exchange.asked = true;
    out.push(Payload::fitting(&NONCE_GET));
    Ok(())
}

/// For a nonce of the node the key is sealed, where it is pending.
fn seal_key(
    exchange: &mut Exchange,
    nonce: [u8; 8],
    drawn: [u8; 8],
    out: &mut Replies,
) -> Result<(), NoMemory>
    requires { out.old ≡ [] }
    ensures ok { OnOk result (exchange.new ≡ sealing exchange.old nonce) }
    ensures replies { OnOk result (out.new ≡ seals exchange.old nonce drawn) }
    ensures err { OnErr result (exchange.new ≡ exchange.old) }
    ensures err_replies { OnErr result (out.new ≡ []) }
{
    if let Some(message) = seal_for(&mut exchange.sender, TEMPORARY_KEY, nonce, drawn)? {
        out.push(Payload::fitting(message.as_slice()));
    }
    Ok(())
}
