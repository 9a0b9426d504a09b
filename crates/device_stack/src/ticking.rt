//! Ticks, wake-ups, values set by hand, and what is shown.

ghost use Rattle.std.specs.Prelude.{◌≡◌, ◌+◌, ◌<◌, ◌^◌, ◌&&◌, [], ◌∷◌, length, IfOk, IfSome, OnOk, OnErr, All};
ghost use Rattle.std.specs.Option.{option_map};
ghost use Rattle.class_info.specs.InfoSpelling.{form};
ghost use Rattle.device_kinds.specs.Kind.{main_name_of, tells};
ghost use Rattle.device_stack.specs.State.{with_change};
ghost use Rattle.device_kinds.specs.Judging.{setting_of};
ghost use Rattle.device_kinds.specs.Answers.{worded, answer_plan};
ghost use Rattle.device_kinds.specs.Worded.{IsShort, IsPayload};
ghost use Rattle.device_stack.specs.Answers.{final_report};
ghost use Rattle.device_stack.specs.Ticking.{aged, works_out, ticked, woken, by_hand, tells_by_hand, main_told, set_by_hand};
ghost use Rattle.device_stack.specs.Showing.{shown_of, shown_at};

use crate::Stack;
use crate::work::Work;
use device_kinds::{
    Change, Kind, WAKE_UP, answered, bare, is_same, one_setting, report, root, send,
};
use std::alloc::Global;
use supervision::SUCCESS;
use zw_base::{
    By, Bytes, EndPoint, List, Name, NoMemory, Payload, Property, Replies, Sequence, Setting,
};

/// For how many ticks a device that does not listen stays awake after it was active.
const AWAKE_TICKS: u64 = 200;

/// Wake Up Notification.
const NOTIFICATION: u8 = 0x07;

/// What a switch or a lock keeps when it is on.
const ON: u32 = 255;

/// The greatest level in per cent.
const FULL_LEVEL: u8 = 99;

/// How many modes a thermostat has.
const MODES: u8 = 3;

/// The value that a number means for the main property.
fn value_by_hand(name: Name, value: u8) -> u32
    ensures { result ≡ by_hand name value }
{
    match name {
        Name::Switch | Name::Lock => { if value == 0 { 0 } else { ON } }
        Name::Level => u32::from(value.min(FULL_LEVEL)),
        Name::Mode => u32::from(value % MODES),
        Name::Setpoint(_)
        | Name::Config(_)
        | Name::Member(_, _)
        | Name::Interval
        | Name::Sensor
        | Name::Battery => u32::from(value),
    }
}

/// Whether a device of that kind tells of its main property unasked.
fn tells_unasked(kind: Kind) -> bool
    ensures { result ≡ tells_by_hand kind }
{
    match kind {
        Kind::Configurable => false,
        Kind::Relay
        | Kind::Switch
        | Kind::Dimmer
        | Kind::Lock
        | Kind::Sensor
        | Kind::Thermostat
        | Kind::Strip => true,
    }
}

impl Stack {
    /// Whether the next tick finds it awake still.
    fn stays_awake(&self) -> bool
        requires { self.now.clock + 1 < 2 ^ 64 }
        ensures { result ≡ (aged self.now).awake }
    {
        self.awake
            && (self.kind.listens()
                || (self.clock + 1).saturating_sub(self.active_at) < AWAKE_TICKS)
    }

    /// One tick more on the clock.
    fn age(&mut self)
        requires { self.old.clock + 1 < 2 ^ 64 }
        ensures { self.new ≡ aged self.old }
    {
        if !self.kind.listens() {
            self.awake = self.stays_awake();
        }
        self.clock += 1;
    }

    /// A tick of 100 ms passes. The answer is how many changes it made.
    #[tactic(auto, unfolding(crate::specs::Ticking::ticked))]
    pub fn tick(&mut self, out: &mut Replies) -> Result<u64, NoMemory>
        requires { out.old ≡ [] }
        ensures ok { OnOk result (self.new ≡ (ticked self.old).device) }
        ensures replies { OnOk result (out.new ≡ (ticked self.old).replies) }
        ensures made { IfOk result (λ made. length self.new.journal ≡ length self.old.journal + made) }
        ensures sizes { OnOk result (All IsPayload out.new) }
        ensures err { OnErr result (self.new ≡ self.old) }
        ensures err_replies { OnErr result (out.new ≡ []) }
    {
        if self.clock == u64::MAX {
            return Err(NoMemory);
        }
        let mut made = 0;
        if self.work_left == 1 {
            self.finish_work(out)?;
            made = 1;
        } else if self.work_left > 1 {
            self.work_left -= 1;
        }
        self.age();
        Ok(made)
    }

    /// The text that tells the end of the work, where that was asked for.
    fn final_text(&self) -> Result<Option<Bytes>, NoMemory>
        ensures value { IfOk result (λ text. text ≡ option_map (λ plan. worded (answer_plan plan) (final_report self.now)) self.now.work.answer) }
        ensures short { IfOk result (λ text. IfSome text IsShort) }
    {
        match self.work.answer {
            Some(plan) => answered(self.alloc, &plan, &self.final_report()),
            None => Ok(None),
        }
    }

    /// Makes the change of the work, and tells it where that was asked for.
    #[cold]
    #[inline(never)]
    fn finish_work(&mut self, out: &mut Replies) -> Result<(), NoMemory>
        requires { out.old ≡ [] }
        ensures ok { OnOk result (self.new ≡ (works_out self.old).device) }
        ensures replies { OnOk result (out.new ≡ (works_out self.old).replies) }
        ensures sizes { OnOk result (All IsPayload out.new) }
        ensures err { OnErr result (self.new ≡ self.old) }
        ensures err_replies { OnErr result (out.new ≡ []) }
    {
        let text = self.final_text()?;
        self.end_work()?;
        send(text, out);
        Ok(())
    }

    /// Makes the change of the work.
    fn end_work(&mut self) -> Result<(), NoMemory>
        ensures ok { OnOk result (self.new ≡ (works_out self.old).device) }
        ensures err { OnErr result (self.new ≡ self.old) }
    {
        let settings = Sequence::from_slice(self.alloc, self.work.settings.as_slice())?;
        let by = By::Session(self.sessions.taken());
        self.journal.make(Change { by, settings })?;
        self.sessions.finish(SUCCESS);
        self.work = Work::idle(self.alloc);
        self.work_left = 0;
        Ok(())
    }

    /// Somebody wakes the device: where it does not listen, it is awake and says so.
    #[tactic(auto, unfolding(crate::specs::Ticking::woken))]
    pub fn wake(&mut self, out: &mut Replies) -> Result<(), NoMemory>
        requires { out.old ≡ [] }
        ensures ok { OnOk result (self.new ≡ (woken self.old).device) }
        ensures replies { OnOk result (out.new ≡ (woken self.old).replies) }
        ensures sizes { OnOk result (All IsPayload out.new) }
        ensures err { OnErr result (self.new ≡ self.old) }
        ensures err_replies { OnErr result (out.new ≡ []) }
    {
        if !self.kind.listens() {
            self.awake = true;
            self.active_at = self.clock;
            out.push(Payload::fitting(&[WAKE_UP, NOTIFICATION]));
        }
        Ok(())
    }

    /// Somebody sets the main property by hand. What is told of it is put into `out`.
    #[tactic(auto, unfolding(crate::specs::Ticking::set_by_hand))]
    pub fn set_by_hand(&mut self, value: u8, out: &mut Replies) -> Result<(), NoMemory>
        requires { out.old ≡ [] }
        ensures ok { OnOk result (self.new ≡ (set_by_hand self.old value).device) }
        ensures replies { OnOk result (out.new ≡ (set_by_hand self.old value).replies) }
        ensures sizes { OnOk result (All IsPayload out.new) }
        ensures err { OnErr result (self.new ≡ self.old) }
        ensures err_replies { OnErr result (out.new ≡ []) }
    {
        let value = value_by_hand(self.kind.main_name(), value);
        let text = self.main_text(value)?;
        self.change_main(value)?;
        send(text, out);
        Ok(())
    }

    /// Makes the change of the main property that was made by hand.
    fn change_main(&mut self, value: u32) -> Result<(), NoMemory>
        ensures ok { OnOk result (self.new ≡ with_change self.old By.Local (setting_of 0 (main_name_of self.old.kind) value ∷ [])) }
        ensures err { OnErr result (self.new ≡ self.old) }
    {
        let settings = one_setting(self.alloc, EndPoint::root(), self.kind.main_name(), value)?;
        self.journal.make(Change {
            by: By::Local,
            settings,
        })?;
        Ok(())
    }

    /// Whether it tells of its main property unasked.
    fn tells_main(&self) -> bool
        ensures { result ≡ (self.now.awake && tells_by_hand self.now.kind && tells self.now.kind (main_name_of self.now.kind)) }
    {
        self.awake && tells_unasked(self.kind) && self.kind.tells(self.kind.main_name())
    }

    /// The text that tells the main property with a new value, where the kind tells it.
    fn main_text(&self, value: u32) -> Result<Option<Bytes>, NoMemory>
        ensures value { IfOk result (λ text. text ≡ option_map (λ report. form report) (main_told self.now value)) }
        ensures short { IfOk result (λ text. IfSome text IsShort) }
    {
        if !self.tells_main() {
            return Ok(None);
        }
        match report(self.kind.main_name(), value) {
            Some(report) => Ok(Some(bare(self.alloc, &report)?)),
            None => Ok(None),
        }
    }

    /// The main property and the others that are not 0, in the order of properties, with their values.
    #[tactic(auto, unfolding(crate::specs::Showing::shown_of))]
    pub fn show(&self, alloc: Global) -> Result<List<Setting>, NoMemory>
        ensures { IfOk result (λ shown. shown.items ≡ shown_of self.now) }
    {
        let main = self.kind.main_name();
        let mut shown = List::new(alloc);
        for at in 0..self.kind.property_count() {
            let property = self.kind.property(at);
            match self.shown(&main, &property) {
                Some(setting) => shown.push(setting)?,
                None => {}
            }
        }
        Ok(shown)
    }

    /// A property with its value, if it is shown of a device with that main property.
    fn shown(&self, main: &Name, property: &Property) -> Option<Setting>
        requires { main.now ≡ main_name_of self.now.kind }
        ensures { result ≡ shown_at self.now property.now }
    {
        let value = self.journal.value(property);
        if is_same(property, &root(*main)) || value != 0 {
            Some(Setting {
                property: *property,
                value,
            })
        } else {
            None
        }
    }
}
