//! The end of a lock that joins.

ghost use Rattle.std.specs.Prelude.{◌≡◌, ◌-◌, [], length, slice_index, IfOk, OnOk, OnErr, Some, None};
ghost use Rattle.inclusion.specs.Messages.{IsSealed};
ghost use Rattle.inclusion.specs.Joining.{fresh_joiner, forgetful, gives_nonce, joiner_takes, takes_for, takes_key, takes_nonce, takes_sealed, tells_scheme};

use crate::Message;
use crate::message::{KEY_VERIFY, NONCE_GET, SCHEME_REPORT, key_in, message_of, nonce_report};
use crate::sealing::{TEMPORARY_KEY, nonce_named, seal_for};
use s0_crypto::{SealEnds, open};
use s0_session::{Account, Sender};
use std::alloc::Global;
use std::marker::Model;
use zw_base::{Bytes, NoMemory, NodeId, Payload, Replies, controller};

/// A lock that may be given a key. Contracts see all that it is.
#[derive(Drop)]
pub struct Joiner {
    alloc: Global,
    node: NodeId,
    key: Option<[u8; 16]>,
    given: Account,
    sealing: Sender,
}

impl Model for Joiner {
    ghost use Rattle.inclusion.specs.Joining.{Joining};

    ghost Value = { Joining };

    ghost view = { λ j. record { node = j.node; key = j.key; given = j.given; sealing = j.sealing } };
}

impl Joiner {
    /// A lock without a key, which gave and saw no nonce.
    pub fn new(alloc: Global, node: NodeId) -> Result<Joiner, NoMemory>
        ensures { IfOk result (λ joiner. joiner ≡ fresh_joiner node) }
    {
        let ends = SealEnds {
            sender: node,
            receiver: controller(),
        };
        Ok(Joiner {
            alloc,
            node,
            key: None,
            given: Account::new(),
            sealing: Sender::new(alloc, ends),
        })
    }

    /// The key that it holds.
    pub fn key(&self) -> Option<[u8; 16]>
        ensures { result ≡ self.now.key }
    {
        self.key
    }

    /// It forgets its key and what is pending; nonces stay.
    pub fn reset(&mut self)
        ensures { self.new ≡ forgetful self.old }
    {
        self.key = None;
        self.sealing.drop_pending();
    }

    /// It hears a payload of the host. `drawn` are the bytes of a nonce, where one is needed.
    #[tactic(auto, unfolding(crate::specs::Joining::joiner_takes))]
    pub fn take(
        &mut self,
        payload: &[u8],
        drawn: [u8; 8],
        out: &mut Replies,
    ) -> Result<(), NoMemory>
        requires { out.old ≡ [] }
        ensures ok { OnOk result (self.new ≡ (joiner_takes self.old payload.now drawn).joiner) }
        ensures replies { OnOk result (out.new ≡ (joiner_takes self.old payload.now drawn).replies) }
        ensures err { OnErr result (self.new ≡ self.old) }
        ensures err_replies { OnErr result (out.new ≡ []) }
    {
        match message_of(payload) {
            Message::SchemeGet => self.tell_scheme(out),
            Message::NonceGet => self.give_nonce(drawn, out)?,
            Message::NonceReport(nonce) => self.take_nonce(nonce, drawn, out)?,
            Message::Sealed => self.take_sealed(payload, out)?,
            Message::SchemeReport | Message::Other => {}
        }
        Ok(())
    }

    /// It tells its scheme while it has no key.
    fn tell_scheme(&mut self, out: &mut Replies)
        requires { out.old ≡ [] }
        ensures joiner { self.new ≡ self.old }
        ensures replies { out.new ≡ (tells_scheme self.old self.old.key).replies }
    {
        if self.key.is_none() {
            out.push(Payload::fitting(&SCHEME_REPORT));
        }
    }

    /// It gives the host a nonce.
    fn give_nonce(&mut self, drawn: [u8; 8], out: &mut Replies) -> Result<(), NoMemory>
        requires { out.old ≡ [] }
        ensures ok { OnOk result (self.new ≡ (gives_nonce self.old drawn).joiner) }
        ensures replies { OnOk result (out.new ≡ (gives_nonce self.old drawn).replies) }
        ensures err { OnErr result (self.new ≡ self.old) }
        ensures err_replies { OnErr result (out.new ≡ []) }
    {
        if self.given.given() == u64::MAX {
            return Err(NoMemory);
        }
        let nonce = self.given.give(drawn);
        out.push(nonce_report(&nonce));
        Ok(())
    }

    /// It seals its Verify for a nonce of the host, where one is pending.
    fn take_nonce(
        &mut self,
        nonce: [u8; 8],
        drawn: [u8; 8],
        out: &mut Replies,
    ) -> Result<(), NoMemory>
        requires { out.old ≡ [] }
        ensures ok { OnOk result (self.new ≡ (takes_nonce self.old nonce drawn self.old.key).joiner) }
        ensures replies { OnOk result (out.new ≡ (takes_nonce self.old nonce drawn self.old.key).replies) }
        ensures err { OnErr result (self.new ≡ self.old) }
        ensures err_replies { OnErr result (out.new ≡ []) }
    {
        let Some(key) = self.key else {
            return Ok(());
        };
        if let Some(message) = seal_for(&mut self.sealing, key, nonce, drawn)? {
            out.push(Payload::fitting(message.as_slice()));
        }
        Ok(())
    }

    /// It hears a Security message: the nonce that it names is spent, whether it opens or not.
    fn take_sealed(&mut self, payload: &[u8], out: &mut Replies) -> Result<(), NoMemory>
        requires empty { out.old ≡ [] }
        requires sealed { IsSealed payload.now }
        ensures ok { OnOk result (self.new ≡ (takes_sealed self.old payload.now).joiner) }
        ensures replies { OnOk result (out.new ≡ (takes_sealed self.old payload.now).replies) }
        ensures err { OnErr result (self.new ≡ self.old) }
        ensures err_replies { OnErr result (out.new ≡ []) }
    {
        let before = self.given;
        let Some(nonce) = self.given.spend(nonce_named(payload)) else {
            return Ok(());
        };
        let taken = self.take_for(payload, nonce, out);
        if taken.is_err() {
            self.given = before;
        }
        taken
    }

    /// It hears a Security message for a nonce that was live.
    fn take_for(
        &mut self,
        payload: &[u8],
        nonce: [u8; 8],
        out: &mut Replies,
    ) -> Result<(), NoMemory>
        requires empty { out.old ≡ [] }
        requires sealed { IsSealed payload.now }
        requires named { slice_index payload.now (length payload.now - 9) ≡ slice_index nonce 0 }
        ensures ok { OnOk result (self.new ≡ (takes_for self.old payload.now (Some nonce) self.old.key).joiner) }
        ensures replies { OnOk result (out.new ≡ (takes_for self.old payload.now (Some nonce) self.old.key).replies) }
        ensures err { OnErr result (self.new ≡ self.old) }
        ensures err_replies { OnErr result (out.new ≡ []) }
    {
        if self.key.is_some() {
            return Ok(());
        }
        let ends = SealEnds {
            sender: controller(),
            receiver: self.node,
        };
        let Some(plain) = open(self.alloc, TEMPORARY_KEY, nonce, &ends, payload)? else {
            return Ok(());
        };
        match key_in(plain.as_slice()) {
            Some(key) => self.take_key(key, out),
            None => Ok(()),
        }
    }

    /// It takes a key, and asks for the nonce that its Verify is to be sealed for.
    fn take_key(&mut self, key: [u8; 16], out: &mut Replies) -> Result<(), NoMemory>
        requires { out.old ≡ [] }
        ensures ok { OnOk result (self.new ≡ (takes_key self.old (Some key)).joiner) }
        ensures replies { OnOk result (out.new ≡ (takes_key self.old (Some key)).replies) }
        ensures err { OnErr result (self.new ≡ self.old) }
        ensures err_replies { OnErr result (out.new ≡ []) }
    {
        let verify = Bytes::from_slice(self.alloc, &KEY_VERIFY)?;
        self.sealing.ask(verify);
        self.key = Some(key);
        out.push(Payload::fitting(&NONCE_GET));
        Ok(())
    }
}
