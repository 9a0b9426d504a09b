//! What a message makes of a device, once it is out of its wraps.

ghost use Rattle.std.specs.Prelude.{◌≡◌, ◌+◌, ◌<◌, ◌^◌, IfOk, IfSome, OnOk, OnErr, IsTrue, Some};
ghost use Rattle.std.specs.Option.{option_map};
ghost use Rattle.supervision.specs.Device.{is_new};
ghost use Rattle.supervision.specs.Session.{IsStatus};
ghost use Rattle.transport_segments.specs.Kept.{Empty};
ghost use Rattle.device_kinds.specs.Answers.{answer_plan, worded};
ghost use Rattle.device_kinds.specs.Effects.{effect_by, IsDue};
ghost use Rattle.device_kinds.specs.Worded.{IsShort};
ghost use Rattle.device_stack.specs.Answers.{status_report};
ghost use Rattle.device_stack.specs.Effects.{takes, after_effect, answer_of};

use crate::Stack;
use crate::work::Work;
use device_kinds::{Change, Effect, Grounds, Verdict, answered};
use encap::{Opened, Plan, Supervised};
use zw_base::{By, Bytes, NoMemory};

/// How many ticks the work of a dimmer takes.
const WORK_TICKS: u8 = 5;

impl Stack {
    /// What a message does.
    pub(crate) fn effect(&self, opened: &Opened) -> Result<Effect, NoMemory>
        ensures value { IfOk result (λ effect. effect ≡
            effect_by self.now.kind self.now.journal self.now.sessions opened.now.plan opened.now.commands.items opened.now.plan.session) }
        ensures due { IfOk result (λ effect. IsDue self.now.sessions opened.now.plan.session effect) }
    {
        let grounds = Grounds {
            alloc: self.alloc,
            kind: self.kind,
            journal: &self.journal,
            sessions: &self.sessions,
        };
        grounds.effect(opened)
    }

    /// The text that answers a message with this plan and effect.
    pub(crate) fn answer_text(
        &self,
        plan: &Plan,
        effect: &Effect,
    ) -> Result<Option<Bytes>, NoMemory>
        requires { IsDue self.now.sessions plan.now.session effect.now }
        ensures value { IfOk result (λ text. text ≡ option_map (worded (answer_plan plan.now)) (answer_of self.now plan.now effect.now)) }
        ensures short { IfOk result (λ text. IfSome text IsShort) }
    {
        match effect {
            Effect::Tells(report) => answered(self.alloc, plan, report),
            Effect::Repeats(status) => match plan.session {
                Some(asked) => self.status_text(plan, asked, *status),
                None => unreachable!(),
            },
            Effect::Takes(verdict) => match plan.session {
                Some(asked) => self.status_text(plan, asked, verdict.status()),
                None => unreachable!(),
            },
            Effect::Ignores | Effect::Sleeps | Effect::Sets(_) => Ok(None),
        }
    }

    /// The text that tells a status.
    fn status_text(
        &self,
        plan: &Plan,
        asked: Supervised,
        status: u8,
    ) -> Result<Option<Bytes>, NoMemory>
        requires { asked.id < 64 }
        ensures value { IfOk result (λ text. text ≡ Some (worded (answer_plan plan.now) (status_report self.now asked status))) }
        ensures short { IfOk result (λ text. IfSome text IsShort) }
    {
        answered(self.alloc, plan, &self.status_report(asked, status))
    }

    /// Makes what a message does.
    pub(crate) fn carry_out(&mut self, plan: &Plan, effect: Effect) -> Result<(), NoMemory>
        requires { IsDue self.old.sessions plan.now.session effect }
        ensures ok { OnOk result (self.new ≡ after_effect self.old plan.now effect) }
        ensures err { OnErr result (self.new ≡ self.old) }
    {
        match effect {
            Effect::Sleeps => {
                self.awake = false;
                Ok(())
            }
            Effect::Sets(settings) => self.journal.make(Change {
                by: By::Plain,
                settings,
            }),
            Effect::Takes(verdict) => match plan.session {
                Some(asked) => self.take(plan, asked, verdict),
                None => unreachable!(),
            },
            Effect::Ignores | Effect::Tells(_) | Effect::Repeats(_) => Ok(()),
        }
    }

    /// Takes the next session with this verdict.
    fn take(&mut self, plan: &Plan, asked: Supervised, verdict: Verdict) -> Result<(), NoMemory>
        requires new { IsTrue (is_new self.old.sessions asked.id) }
        requires countable { self.old.sessions.taken + 1 < 2 ^ 64 }
        ensures ok { OnOk result (self.new ≡ takes self.old plan.now asked verdict) }
        ensures err { OnErr result (self.new ≡ self.old) }
    {
        let status = verdict.status();
        match verdict {
            Verdict::Makes(settings) => {
                let by = By::Session(self.sessions.taken() + 1);
                self.journal.make(Change { by, settings })?;
            }
            Verdict::Works(settings) => {
                let answer = if asked.updates { Some(*plan) } else { None };
                self.work = Work { settings, answer };
                self.work_left = WORK_TICKS;
            }
            Verdict::Fails | Verdict::NoSupport => {}
        }
        self.count(asked.id, status);
        Ok(())
    }

    /// Counts a session with its status. Nothing of a datagram is kept.
    fn count(&mut self, id: u8, status: u8)
        requires new { IsTrue (is_new self.old.sessions id) }
        requires countable { self.old.sessions.taken + 1 < 2 ^ 64 }
        requires known { IsStatus status }
        ensures { self.new ≡ record self.old { sessions = record { taken = self.old.sessions.taken + 1; status = status }; reassembly = Empty } }
    {
        let _heard = self.sessions.hear(id);
        self.sessions.finish(status);
        self.reassembly.clear();
    }
}
