//! How a lock opens and seals messages.

ghost use Rattle.std.specs.Prelude.{◌≡◌, ◌-◌, ◌≤◌, [], length, slice_index, IfOk, OnOk, OnErr, All, Some, Ok, ◌∷◌, if◌then◌else◌};
ghost use Rattle.encap.specs.Opening.{opened_at};
ghost use Rattle.class_info.specs.InfoReading.{info_at};
ghost use Rattle.class_info.specs.InfoSpelling.{form};
ghost use Rattle.device_kinds.specs.Worded.{IsPayload};
ghost use Rattle.device_stack.specs.Hearing.{hears_securely, hears_sealed, hears_for, hears_inside, hears_nonces, gives_nonce, takes_nonce, SaysOfNonces};

use crate::Stack;
use class_core::ClassFault;
use class_info::InfoMessage;
use device_kinds::{HOST, SECURITY, is_sealed, node, nonce_report};
use encap::{Opened, Outer};
use s0_crypto::{SealEnds, keys, open};
use std::alloc::Global;
use zw_base::{NoMemory, Payload, Replies};

/// Nonce Get.
const NONCE_GET: u8 = 0x40;

/// The bytes of the shortest Security message.
const SHORTEST: usize = 20;

/// Where a message names a nonce, counted from its end.
const NAMED: usize = 9;

/// The most bytes that are opened.
pub(crate) const MOST: usize = 65_534;

/// What a payload says of nonces.
#[derive(Drop)]
pub enum Nonces {
    /// One is asked for.
    Asked,
    /// This one is given.
    Told([u8; 8]),
    /// Nothing.
    Unsaid,
}

/// What a message says of nonces.
fn nonces_of(message: &InfoMessage) -> Nonces
    ensures { SaysOfNonces result (Ok message.now) }
{
    match message {
        InfoMessage::NonceGet => Nonces::Asked,
        InfoMessage::NonceReport { nonce } => Nonces::Told(*nonce),
        _ => Nonces::Unsaid,
    }
}

/// What these bytes say of nonces.
fn nonces_in(alloc: Global, bytes: &[u8]) -> Result<Nonces, NoMemory>
    ensures { IfOk result (λ said. SaysOfNonces said (info_at bytes.now)) }
{
    match class_info::read(alloc, bytes) {
        Ok(message) => Ok(nonces_of(&message)),
        Err(ClassFault::NoMemory) => Err(NoMemory),
        Err(_) => Ok(Nonces::Unsaid),
    }
}

impl Stack {
    /// Hears what comes to a lock.
    #[tactic(auto, unfolding(crate::specs::Hearing::hears_securely))]
    pub(crate) fn hear_securely(
        &mut self,
        payload: &[u8],
        drawn: [u8; 8],
        out: &mut Replies,
    ) -> Result<(), NoMemory>
        requires { out.old ≡ [] }
        ensures ok { OnOk result (self.new ≡ (hears_securely self.old payload.now drawn).device) }
        ensures replies { OnOk result (out.new ≡ (hears_securely self.old payload.now drawn).replies) }
        ensures sizes { OnOk result (All IsPayload out.new) }
        ensures err { OnErr result (self.new ≡ self.old) }
        ensures err_replies { OnErr result (out.new ≡ []) }
    {
        if is_sealed(payload) {
            return self.hear_sealed(payload, out);
        }
        match nonces_in(self.alloc, payload)? {
            Nonces::Asked => self.give_nonce(drawn, out),
            Nonces::Told(nonce) => self.take_nonce(nonce, drawn, out),
            Nonces::Unsaid => Ok(()),
        }
    }

    /// Gives the host a nonce.
    fn give_nonce(&mut self, drawn: [u8; 8], out: &mut Replies) -> Result<(), NoMemory>
        requires { out.old ≡ [] }
        ensures ok { OnOk result (self.new ≡ (gives_nonce self.old drawn).device) }
        ensures replies { OnOk result (out.new ≡ (gives_nonce self.old drawn).replies) }
        ensures sizes { OnOk result (All IsPayload out.new) }
        ensures err { OnErr result (self.new ≡ self.old) }
        ensures err_replies { OnErr result (out.new ≡ []) }
    {
        if self.given.given() == u64::MAX {
            return Err(NoMemory);
        }
        let mut given = self.given;
        let nonce = given.give(drawn);
        let report = nonce_report(self.alloc, nonce)?;
        self.given = given;
        out.push(report);
        Ok(())
    }

    /// Seals the pending answer for a nonce of the host.
    fn take_nonce(
        &mut self,
        nonce: [u8; 8],
        drawn: [u8; 8],
        out: &mut Replies,
    ) -> Result<(), NoMemory>
        requires { out.old ≡ [] }
        ensures ok { OnOk result (self.new ≡ (takes_nonce self.old nonce drawn).device) }
        ensures replies { OnOk result (out.new ≡ (takes_nonce self.old nonce drawn).replies) }
        ensures sizes { OnOk result (All IsPayload out.new) }
        ensures err { OnErr result (self.new ≡ self.old) }
        ensures err_replies { OnErr result (out.new ≡ []) }
    {
        let _eight = nonce_len(&drawn);
        let Some(message) = self.sealing.offer(&keys(self.key), nonce, drawn)? else {
            return Ok(());
        };
        out.push(Payload::fitting(message.as_slice()));
        Ok(())
    }

    /// Hears a Security message: the nonce that it names is spent, whether it opens or not.
    #[tactic(auto, unfolding(crate::specs::Hearing::hears_sealed))]
    fn hear_sealed(&mut self, payload: &[u8], out: &mut Replies) -> Result<(), NoMemory>
        requires empty { out.old ≡ [] }
        requires class { slice_index payload.now 0 ≡ 0x98 }
        requires command { slice_index payload.now 1 ≡ 0x81 }
        ensures ok { OnOk result (self.new ≡ (hears_sealed self.old payload.now).device) }
        ensures replies { OnOk result (out.new ≡ (hears_sealed self.old payload.now).replies) }
        ensures sizes { OnOk result (All IsPayload out.new) }
        ensures err { OnErr result (self.new ≡ self.old) }
        ensures err_replies { OnErr result (out.new ≡ []) }
    {
        if payload.len() < SHORTEST {
            return Ok(());
        }
        let before = self.given;
        let Some(nonce) = self.given.spend(payload[payload.len() - NAMED]) else {
            return Ok(());
        };
        let heard = self.hear_for(payload, nonce, out);
        if heard.is_err() {
            self.given = before;
        }
        heard
    }

    /// Hears a Security message for a nonce that was live.
    fn hear_for(
        &mut self,
        payload: &[u8],
        nonce: [u8; 8],
        out: &mut Replies,
    ) -> Result<(), NoMemory>
        requires empty { out.old ≡ [] }
        requires long { 20 ≤ length payload.now }
        requires class { slice_index payload.now 0 ≡ 0x98 }
        requires command { slice_index payload.now 1 ≡ 0x81 }
        requires named { slice_index payload.now (length payload.now - 9) ≡ slice_index nonce 0 }
        ensures ok { OnOk result (self.new ≡ (hears_for self.old payload.now (Some nonce)).device) }
        ensures replies { OnOk result (out.new ≡ (hears_for self.old payload.now (Some nonce)).replies) }
        ensures sizes { OnOk result (All IsPayload out.new) }
        ensures err { OnErr result (self.new ≡ self.old) }
        ensures err_replies { OnErr result (out.new ≡ []) }
    {
        let ends = SealEnds {
            sender: node(HOST),
            receiver: self.node,
        };
        match open(self.alloc, self.key, nonce, &ends, payload)? {
            Some(plain) => self.hear_inside(plain.as_slice(), out),
            None => Ok(()),
        }
    }

    /// Hears what was sealed. The answer waits for a nonce of the host, which is asked for.
    fn hear_inside(&mut self, plain: &[u8], out: &mut Replies) -> Result<(), NoMemory>
        requires empty { out.old ≡ [] }
        ensures ok { OnOk result (self.new ≡ (hears_inside self.old (opened_at plain.now)).device) }
        ensures replies { OnOk result (out.new ≡ (hears_inside self.old (opened_at plain.now)).replies) }
        ensures sizes { OnOk result (All IsPayload out.new) }
        ensures err { OnErr result (self.new ≡ self.old) }
        ensures err_replies { OnErr result (out.new ≡ []) }
    {
        let Some(opened) = self.unpacked(plain)? else {
            return Ok(());
        };
        if self.answer_sealed(&opened)? {
            out.push(Payload::fitting(&[SECURITY, NONCE_GET]));
        }
        Ok(())
    }

    /// Answers what was sealed, and says whether the answer waits for a nonce.
    fn answer_sealed(&mut self, opened: &Opened) -> Result<bool, NoMemory>
        ensures ok { IfOk result (λ waits. hears_inside self.old
            (Some (record { plan = opened.now.plan; commands = opened.now.commands.items })) ≡
            record { device = self.new; replies = if waits then form InfoMessage.NonceGet ∷ [] else [] }) }
        ensures err { OnErr result (self.new ≡ self.old) }
    {
        if opened.plan.outer == Outer::Crc16 {
            return Ok(false);
        }
        match self.answer(opened)? {
            Some(answer) => {
                self.sealing.ask(answer);
                Ok(true)
            }
            None => Ok(false),
        }
    }
}

/// How many bytes a nonce has.
fn nonce_len(nonce: &[u8; 8]) -> usize
    ensures { length nonce.now ≡ 8 }
{
    let bytes: &[u8] = nonce;
    bytes.len()
}
