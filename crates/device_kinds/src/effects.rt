//! What a message does to a device, once it is out of its wraps.

ghost use Rattle.std.specs.Prelude.{◌≡◌, ◌+◌, ◌<◌, ◌^◌, IfOk, IsTrue, Ok, Some, None};
ghost use Rattle.supervision.specs.Device.{is_new, is_again};
ghost use Rattle.class_info.specs.InfoReading.{info_at};
ghost use Rattle.device_kinds.specs.Judging.{judged_set};
ghost use Rattle.device_kinds.specs.Effects.{end_of, value_in, level_in, set_plainly, effect_untold, effect_alone, effect_by, IsDue};

use crate::effect::Effect;
use crate::{Bench, Journal, Kind, SUPERVISION, Verdict, judge_message, tell};
use class_core::{ClassFault, CoreMessage};
use class_info::InfoMessage;
use encap::{Ends, Opened, Supervised};
use std::alloc::Global;
use supervision::{DeviceBook, WORKING, session_id};
use zw_base::{EndPoint, NoMemory};

/// The end point that a message is for.
fn end(channel: Option<Ends>) -> EndPoint
    ensures { result ≡ end_of channel }
{
    match channel {
        Some(ends) => ends.target,
        None => EndPoint::root(),
    }
}

/// Whether an id names the next session, and the device is not at work.
fn is_next(book: &DeviceBook, id: u8) -> bool
    requires { book.now.taken + 1 < 2 ^ 64 }
    ensures value { result ≡ is_new book.now id }
    ensures six_bits { IsTrue result → id < 64 }
{
    id == session_id(book.taken() + 1) && book.status() != WORKING
}

/// Whether an id names the last session taken.
fn is_last(book: &DeviceBook, id: u8) -> bool
    ensures value { result ≡ is_again book.now id }
    ensures six_bits { IsTrue result → id < 64 }
{
    book.taken() > 0 && id == session_id(book.taken())
}

/// What a device goes by when it judges a message: its kind, its journal, and the sessions that it took.
#[derive(Clone, Copy)]
pub struct Grounds<'a> {
    pub alloc: Global,
    pub kind: Kind,
    pub journal: &'a Journal,
    pub sessions: &'a DeviceBook,
}

impl Grounds<'_> {
    /// What a message does.
    pub fn effect(&self, opened: &Opened) -> Result<Effect, NoMemory>
        ensures value { IfOk result (λ effect. effect ≡
            effect_by self.now.kind self.now.journal.now self.now.sessions.now opened.now.plan opened.now.commands.items opened.now.plan.session) }
        ensures due { IfOk result (λ effect. IsDue self.now.sessions.now opened.now.plan.session effect) }
    {
        match opened.plan.session {
            Some(asked) => self.effect_supervised(opened, asked),
            None => self.effect_unsupervised(opened),
        }
    }

    /// What commands of a session do.
    fn effect_supervised(&self, opened: &Opened, asked: Supervised) -> Result<Effect, NoMemory>
        ensures value { IfOk result (λ effect. effect ≡
            effect_by self.now.kind self.now.journal.now self.now.sessions.now opened.now.plan opened.now.commands.items (Some asked)) }
        ensures due { IfOk result (λ effect. IsDue self.now.sessions.now (Some asked) effect) }
    {
        if !self.kind.lists(SUPERVISION) {
            return Ok(Effect::Ignores);
        }
        if self.sessions.taken() == u64::MAX {
            return Err(NoMemory);
        }
        if is_next(self.sessions, asked.id) {
            let verdict = judge_message(
                self.alloc,
                self.kind,
                self.journal,
                end(opened.plan.channel),
                opened.plan.batch,
                opened.commands.as_slice(),
            )?;
            return Ok(Effect::Takes(verdict));
        }
        if is_last(self.sessions, asked.id) {
            return Ok(Effect::Repeats(self.sessions.status()));
        }
        Ok(Effect::Ignores)
    }

    /// What a message without Supervision does.
    fn effect_unsupervised(&self, opened: &Opened) -> Result<Effect, NoMemory>
        ensures value { IfOk result (λ effect. effect ≡
            effect_by self.now.kind self.now.journal.now self.now.sessions.now opened.now.plan opened.now.commands.items None) }
        ensures due { IfOk result (λ effect. IsDue self.now.sessions.now None effect) }
    {
        if opened.plan.batch {
            return Ok(Effect::Ignores);
        }
        match opened.commands.as_slice() {
            [command, ..] => self.effect_of_command(end(opened.plan.channel), command.as_slice()),
            [] => self.effect_of_command(end(opened.plan.channel), &[]),
        }
    }

    /// What one command does that is not supervised.
    fn effect_of_command(&self, end: EndPoint, command: &[u8]) -> Result<Effect, NoMemory>
        ensures value { IfOk result (λ effect. effect ≡ effect_alone self.now.kind self.now.journal.now end (info_at command.now)) }
        ensures due { IfOk result (λ effect. IsDue self.now.sessions.now None effect) }
    {
        match class_info::read(self.alloc, command) {
            Ok(message) => self.effect_of_message(end, &message),
            Err(ClassFault::NoMemory) => Err(NoMemory),
            Err(_) => Ok(Effect::Ignores),
        }
    }

    /// What one message does.
    fn effect_of_message(&self, end: EndPoint, message: &InfoMessage) -> Result<Effect, NoMemory>
        ensures value { IfOk result (λ effect. effect ≡ effect_alone self.now.kind self.now.journal.now end (Ok message.now)) }
        ensures due { IfOk result (λ effect. IsDue self.now.sessions.now None effect) }
    {
        match tell(self.alloc, self.kind, self.journal, end, message)? {
            Some(report) => Ok(Effect::Tells(report)),
            None => self.effect_untold(end, message),
        }
    }

    /// What one message does that asks for nothing.
    fn effect_untold(&self, end: EndPoint, message: &InfoMessage) -> Result<Effect, NoMemory>
        ensures value { IfOk result (λ effect. effect ≡ effect_untold self.now.kind self.now.journal.now end message.now) }
        ensures due { IfOk result (λ effect. IsDue self.now.sessions.now None effect) }
    {
        match message {
            InfoMessage::Core(message @ CoreMessage::SwitchBinarySet { .. }) => {
                self.effect_of_set(end, message)
            }
            InfoMessage::WakeUpNoMoreInformation => {
                if !self.kind.listens() && self.kind.has_end(end) {
                    Ok(Effect::Sleeps)
                } else {
                    Ok(Effect::Ignores)
                }
            }
            _ => Ok(Effect::Ignores),
        }
    }

    /// What a Set does that is not supervised.
    fn effect_of_set(&self, end: EndPoint, message: &CoreMessage) -> Result<Effect, NoMemory>
        ensures value { IfOk result (λ effect. effect ≡
            set_plainly self.now.kind end (judged_set self.now.kind (value_in self.now.journal.now) (level_in self.now.journal.now) end message.now)) }
        ensures due { IfOk result (λ effect. IsDue self.now.sessions.now None effect) }
    {
        let bench = Bench {
            alloc: self.alloc,
            kind: self.kind,
            journal: self.journal,
            made: &[],
            end,
        };
        match bench.judge_set(message)? {
            Verdict::Makes(settings) => {
                if !self.kind.lists(SUPERVISION) && self.kind.has_end(end) {
                    Ok(Effect::Sets(settings))
                } else {
                    Ok(Effect::Ignores)
                }
            }
            Verdict::Works(_) | Verdict::Fails | Verdict::NoSupport => Ok(Effect::Ignores),
        }
    }
}
