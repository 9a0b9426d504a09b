//! How a payload is brought down to a message, and the answer is brought up again.

ghost use Rattle.std.specs.Prelude.{◌≡◌, [], IfOk, IfSome, OnOk, OnErr, All};
ghost use Rattle.std.specs.Option.{option_map};
ghost use Rattle.encap.specs.Opening.{Message, opened_at};
ghost use Rattle.device_kinds.specs.Worded.{IsShort, IsPayload};
ghost use Rattle.device_stack.specs.Hearing.{answers, answers_bytes, hears_openly, hears_by, hears};

use crate::Stack;
use crate::sealing::MOST;
use device_kinds::{Kind, send};
use encap::{Opened, WrapFault, unpack};
use zw_base::{Bytes, NoMemory, Replies};

impl Stack {
    /// The message in these bytes, where there is one.
    pub(crate) fn unpacked(&self, bytes: &[u8]) -> Result<Option<Opened>, NoMemory>
        ensures { IfOk result (λ opened. option_map (λ opened. record { plan = opened.plan; commands = opened.commands.items }) opened ≡ opened_at bytes.now) }
    {
        if bytes.len() > MOST {
            return Err(NoMemory);
        }
        match unpack(self.alloc, bytes) {
            Ok(opened) => Ok(Some(opened)),
            Err(WrapFault::NoMemory) => Err(NoMemory),
            Err(_) => Ok(None),
        }
    }

    /// Takes a message out of its wraps, and gives the text that answers it.
    #[tactic(auto, unfolding(crate::specs::Hearing::answers, crate::specs::Effects::effect_of))]
    pub(crate) fn answer(&mut self, opened: &Opened) -> Result<Option<Bytes>, NoMemory>
        ensures value { IfOk result (λ text. text ≡ (answers self.old (record { plan = opened.now.plan; commands = opened.now.commands.items })).answer) }
        ensures ok { OnOk result (self.new ≡ (answers self.old (record { plan = opened.now.plan; commands = opened.now.commands.items })).device) }
        ensures short { IfOk result (λ text. IfSome text IsShort) }
        ensures err { OnErr result (self.new ≡ self.old) }
    {
        let effect = self.effect(opened)?;
        let text = self.answer_text(&opened.plan, &effect)?;
        self.carry_out(&opened.plan, effect)?;
        Ok(text)
    }

    /// The same of bytes that may be a message.
    #[tactic(auto, unfolding(crate::specs::Hearing::answers_bytes))]
    pub(crate) fn answer_bytes(&mut self, bytes: &[u8]) -> Result<Option<Bytes>, NoMemory>
        ensures value { IfOk result (λ text. text ≡ (answers_bytes self.old bytes.now).answer) }
        ensures ok { OnOk result (self.new ≡ (answers_bytes self.old bytes.now).device) }
        ensures short { IfOk result (λ text. IfSome text IsShort) }
        ensures err { OnErr result (self.new ≡ self.old) }
    {
        match self.unpacked(bytes)? {
            Some(opened) => self.answer(&opened),
            None => Ok(None),
        }
    }

    /// Hears a message that is not sealed.
    #[tactic(auto, unfolding(crate::specs::Hearing::hears_openly))]
    pub(crate) fn hear_openly(&mut self, payload: &[u8], out: &mut Replies) -> Result<(), NoMemory>
        requires { out.old ≡ [] }
        ensures ok { OnOk result (self.new ≡ (hears_openly self.old payload.now).device) }
        ensures replies { OnOk result (out.new ≡ (hears_openly self.old payload.now).replies) }
        ensures sizes { OnOk result (All IsPayload out.new) }
        ensures err { OnErr result (self.new ≡ self.old) }
        ensures err_replies { OnErr result (out.new ≡ []) }
    {
        let text = self.answer_bytes(payload)?;
        send(text, out);
        Ok(())
    }

    /// Hears a payload, by kind.
    fn hear_by_kind(
        &mut self,
        payload: &[u8],
        drawn: [u8; 8],
        out: &mut Replies,
    ) -> Result<(), NoMemory>
        requires { out.old ≡ [] }
        ensures ok { OnOk result (self.new ≡ (hears_by self.old.kind self.old payload.now drawn).device) }
        ensures replies { OnOk result (out.new ≡ (hears_by self.old.kind self.old payload.now drawn).replies) }
        ensures sizes { OnOk result (All IsPayload out.new) }
        ensures err { OnErr result (self.new ≡ self.old) }
        ensures err_replies { OnErr result (out.new ≡ []) }
    {
        match self.kind {
            Kind::Lock => self.hear_securely(payload, drawn, out),
            Kind::Configurable => self.hear_in_segments(payload, out),
            Kind::Relay
            | Kind::Switch
            | Kind::Dimmer
            | Kind::Sensor
            | Kind::Thermostat
            | Kind::Strip => self.hear_openly(payload, out),
        }
    }

    /// Hears a payload: a device that sleeps hears nothing. What is sent is put into `out`.
    #[tactic(auto, unfolding(crate::specs::Hearing::hears))]
    pub fn hear(
        &mut self,
        payload: &[u8],
        drawn: [u8; 8],
        out: &mut Replies,
    ) -> Result<(), NoMemory>
        requires { out.old ≡ [] }
        ensures ok { OnOk result (self.new ≡ (hears self.old payload.now drawn).device) }
        ensures replies { OnOk result (out.new ≡ (hears self.old payload.now drawn).replies) }
        ensures sizes { OnOk result (All IsPayload out.new) }
        ensures err { OnErr result (self.new ≡ self.old) }
        ensures err_replies { OnErr result (out.new ≡ []) }
    {
        if !self.awake {
            return Ok(());
        }
        let before = self.active_at;
        self.active_at = self.clock;
        let heard = self.hear_by_kind(payload, drawn, out);
        if heard.is_err() {
            self.active_at = before;
        }
        heard
    }
}
