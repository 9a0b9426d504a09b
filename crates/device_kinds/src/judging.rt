//! How the commands of a session are judged.

ghost use Rattle.std.specs.Prelude.{◌≡◌, ◌+◌, ◌≤◌, [], ◌∷◌, length, IfOk, Ok, Err};
ghost use Rattle.supervision.specs.Session.{IsStatus};
ghost use Rattle.class_info.specs.InfoReading.{info_at};
ghost use Rattle.device_kinds.specs.Values.{value_by, value_after, level_after};
ghost use Rattle.device_kinds.specs.Judging.{
  setting_of,
  level_meant,
  where_listed,
  where_inside,
  is_setpoint,
  in_tenths,
  configured,
  memberships,
  member_count,
  judged_members,
  judged_set,
  judged,
  judged_all,
  judged_message,
  status_of,
};

use crate::journal::Journal;
use crate::kind::{
    ASSOCIATION, CONFIGURATION, DOOR_LOCK, GROUP, Kind, MULTI_COMMAND, SWITCH_BINARY,
    SWITCH_MULTILEVEL, THERMOSTAT_MODE, THERMOSTAT_SETPOINT, WAKE_UP, node,
};
use crate::settings::{merge, value_with};
use crate::verdict::Verdict;
use class_core::{ClassFault, CoreMessage, Decimal, Number, NumberList};
use class_info::InfoMessage;
use std::alloc::Global;
use supervision::{FAIL, NO_SUPPORT, SUCCESS, WORKING};
use zw_base::{Bytes, EndPoint, Name, NoMemory, NodeId, Property, Sequence, Setting};

/// The greatest mode of a thermostat.
const MAX_MODE: u8 = 2;

/// The least and the greatest setpoint, in tenths of a degree Celsius.
const MIN_TENTHS: u16 = 50;

const MAX_TENTHS: u16 = 350;

/// How many parameters there are.
const PARAMETERS: usize = 256;

/// How many members a group has at most.
const MAX_MEMBERS: u16 = 5;

/// The level that means the last one above 0.
const LAST_LEVEL: u8 = 0xFF;

/// The greatest node.
const NODES: u8 = 232;

/// What a device goes by when it judges a command: its kind and journal, what the commands before it make, and the end
/// point that the command is for.
#[derive(Clone, Copy)]
pub struct Bench<'a> {
    pub alloc: Global,
    pub kind: Kind,
    pub journal: &'a Journal,
    pub made: &'a [Setting],
    pub end: EndPoint,
}

impl Verdict {
    /// The status that the device keeps of a session with this verdict.
    pub fn status(&self) -> u8
        ensures value { result ≡ status_of self.now }
        ensures known { IsStatus result }
    {
        match self {
            Verdict::NoSupport => NO_SUPPORT,
            Verdict::Fails => FAIL,
            Verdict::Makes(_) => SUCCESS,
            Verdict::Works(_) => WORKING,
        }
    }
}

/// The verdict, if the class is listed.
fn if_listed(kind: Kind, class: u8, verdict: Verdict) -> Verdict
    ensures { result ≡ where_listed kind class verdict }
{
    if kind.lists(class) {
        verdict
    } else {
        Verdict::NoSupport
    }
}

/// The settings, if the values are inside.
fn if_inside(inside: bool, settings: Sequence<Setting>) -> Verdict
    ensures { result ≡ where_inside inside settings }
{
    if inside {
        Verdict::Makes(settings)
    } else {
        Verdict::Fails
    }
}

/// A setting of the end point.
fn setting(end: EndPoint, name: Name, value: u32) -> Setting
    ensures { result ≡ setting_of end name value }
{
    Setting {
        property: Property { end, name },
        value,
    }
}

/// That setting alone.
pub fn one_setting(
    alloc: Global,
    end: EndPoint,
    name: Name,
    value: u32,
) -> Result<Sequence<Setting>, NoMemory>
    ensures { IfOk result (λ settings. settings ≡ setting_of end name value ∷ []) }
{
    Sequence::from_slice(alloc, &[setting(end, name, value)])
}

/// Whether a setpoint is one that the device has.
fn is_inside(kind: u8, value: Decimal) -> bool
    ensures { result ≡ is_setpoint kind value }
{
    (kind == 1 || kind == 2)
        && value.precision() == 1
        && value.scale() == 0
        && is_in_tenths(value.number())
}

fn is_in_tenths(number: Number) -> bool
    ensures { result ≡ in_tenths number }
{
    match number {
        Number::Two(tenths) => tenths >= MIN_TENTHS && tenths <= MAX_TENTHS,
        Number::One(_) | Number::Four(_) => false,
    }
}

/// The parameters from one on.
fn parameters(
    alloc: Global,
    end: EndPoint,
    first: u16,
    values: &[u32],
) -> Result<Sequence<Setting>, NoMemory>
    requires { first + length values.now ≤ 256 }
    ensures { IfOk result (λ settings. settings ≡ configured end first values.now) }
{
    let mut settings = Vec::with_capacity(alloc, values.len())?;
    for (i, value) in values.iter().enumerate() {
        let parameter = (usize::from(first) + i) as u8;
        settings.push(setting(end, Name::Config(parameter), *value))?;
    }
    Sequence::from_slice(alloc, settings.as_slice())
}

/// The nodes as members of the group, or as members no longer.
fn members(
    alloc: Global,
    end: EndPoint,
    value: u32,
    nodes: &[NodeId],
) -> Result<Sequence<Setting>, NoMemory>
    ensures { IfOk result (λ settings. settings ≡ memberships end value nodes.now) }
{
    let mut settings = Vec::with_capacity(alloc, nodes.len())?;
    for node in nodes {
        settings.push(setting(end, Name::Member(GROUP, *node), value))?;
    }
    Sequence::from_slice(alloc, settings.as_slice())
}

impl Bench<'_> {
    /// The value of a property, if the commands before were made.
    fn value(&self, property: &Property) -> u32
        ensures { result ≡ value_by self.now.made.now property.now (value_after self.now.journal.now property.now 0) }
    {
        value_with(self.made, property, self.journal.value(property))
    }

    /// How many members the group has with these settings besides.
    #[tactic(auto, unfolding(crate::specs::Judging::member_count))]
    fn count(&self, settings: &[Setting]) -> u16
        ensures value { result ≡ member_count
            (λ property. value_by self.now.made.now property (value_after self.now.journal.now property 0)) settings.now self.now.end }
        ensures small { result ≤ 232 }
    {
        let mut count = 0;
        for before in 0..NODES {
            let property = Property {
                end: self.end,
                name: Name::Member(GROUP, node(before + 1)),
            };
            if value_with(settings, &property, self.value(&property)) != 0 {
                count += 1;
            }
        }
        count
    }

    /// Members of a group that are set or removed.
    #[tactic(auto, unfolding(crate::specs::Judging::judged_members))]
    fn judge_members(&self, value: u32, group: u8, nodes: &[NodeId]) -> Result<Verdict, NoMemory>
        ensures { IfOk result (λ verdict. verdict ≡
            judged_members (λ property. value_by self.now.made.now property (value_after self.now.journal.now property 0)) self.now.end value group nodes.now) }
    {
        let settings = members(self.alloc, self.end, value, nodes)?;
        let inside = group == GROUP
            && !nodes.is_empty()
            && self.count(settings.as_slice()) <= MAX_MEMBERS;
        Ok(if_inside(inside, settings))
    }

    /// Parameters in a row.
    fn judge_bulk(
        &self,
        first: u16,
        default: bool,
        values: &NumberList,
    ) -> Result<Verdict, NoMemory>
        ensures { IfOk result (λ verdict. verdict ≡
            judged_set self.now.kind (λ property. value_by self.now.made.now property (value_after self.now.journal.now property 0))
            (level_after self.now.journal.now 99) self.now.end (CoreMessage.ConfigurationBulkSet first default values.now)) }
    {
        if !self.kind.lists(CONFIGURATION) {
            return Ok(Verdict::NoSupport);
        }
        if default || usize::from(first) + values.len() > PARAMETERS {
            return Ok(Verdict::Fails);
        }
        Ok(Verdict::Makes(parameters(self.alloc, self.end, first, values.as_slice())?))
    }

    /// One setting, if its value is inside.
    fn judge_one(
        &self,
        class: u8,
        inside: bool,
        name: Name,
        value: u32,
    ) -> Result<Verdict, NoMemory>
        ensures { IfOk result (λ verdict. verdict ≡ where_listed self.now.kind class (where_inside inside (setting_of self.now.end name value ∷ []))) }
    {
        let settings = one_setting(self.alloc, self.end, name, value)?;
        Ok(if_listed(self.kind, class, if_inside(inside, settings)))
    }

    /// A level, which takes time.
    fn judge_level(&self, level: u8) -> Result<Verdict, NoMemory>
        ensures { IfOk result (λ verdict. verdict ≡
            where_listed self.now.kind 0x26
            (Verdict.Works (setting_of self.now.end Name.Level (level_meant (level_after self.now.journal.now 99) level) ∷ []))) }
    {
        let value = if level == LAST_LEVEL {
            self.journal.last_level()
        } else {
            u32::from(level)
        };
        let settings = one_setting(self.alloc, self.end, Name::Level, value)?;
        Ok(if_listed(self.kind, SWITCH_MULTILEVEL, Verdict::Works(settings)))
    }

    /// A command that sets.
    pub fn judge_set(&self, message: &CoreMessage) -> Result<Verdict, NoMemory>
        ensures { IfOk result (λ verdict. verdict ≡
            judged_set self.now.kind (λ property. value_by self.now.made.now property (value_after self.now.journal.now property 0))
            (level_after self.now.journal.now 99) self.now.end message.now) }
    {
        match message {
            CoreMessage::SwitchBinarySet { value } => {
                self.judge_one(SWITCH_BINARY, true, Name::Switch, u32::from(value.byte()))
            }
            CoreMessage::SwitchMultilevelSet { level } => self.judge_level(level.byte()),
            CoreMessage::ThermostatModeSet { mode } => {
                let mode = mode.number();
                self.judge_one(
                    THERMOSTAT_MODE,
                    mode <= MAX_MODE,
                    Name::Mode,
                    u32::from(mode),
                )
            }
            CoreMessage::ThermostatSetpointSet { kind, value } => {
                let kind = kind.number();
                let inside = is_inside(kind, *value);
                self.judge_one(
                    THERMOSTAT_SETPOINT,
                    inside,
                    Name::Setpoint(kind),
                    value.number().value(),
                )
            }
            CoreMessage::DoorLockOperationSet { mode } => {
                self.judge_one(DOOR_LOCK, true, Name::Lock, u32::from(mode.byte()))
            }
            CoreMessage::ConfigurationSet {
                parameter,
                default,
                value,
            } => {
                self.judge_one(
                    CONFIGURATION,
                    !*default,
                    Name::Config(*parameter),
                    value.value(),
                )
            }
            CoreMessage::ConfigurationBulkSet {
                offset,
                default,
                values,
            } => { self.judge_bulk(*offset, *default, values) }
            CoreMessage::AssociationSet { group, members } => {
                let verdict = self.judge_members(1, *group, members.as_slice())?;
                Ok(if_listed(self.kind, ASSOCIATION, verdict))
            }
            CoreMessage::AssociationRemove { group, members } => {
                let verdict = self.judge_members(0, *group, members.as_slice())?;
                Ok(if_listed(self.kind, ASSOCIATION, verdict))
            }
            CoreMessage::WakeUpIntervalSet { seconds, target } => {
                self.judge_one(
                    WAKE_UP,
                    target.number() == 1,
                    Name::Interval,
                    seconds.number(),
                )
            }
            _ => Ok(Verdict::NoSupport),
        }
    }

    /// A command in its bytes.
    fn judge(&self, command: &[u8]) -> Result<Verdict, NoMemory>
        ensures { IfOk result (λ verdict. verdict ≡
            judged self.now.kind (λ property. value_by self.now.made.now property (value_after self.now.journal.now property 0))
            (level_after self.now.journal.now 99) self.now.end (info_at command.now)) }
    {
        match class_info::read(self.alloc, command) {
            Ok(InfoMessage::Core(message)) => self.judge_set(&message),
            Ok(_) => Ok(Verdict::NoSupport),
            Err(ClassFault::NoMemory) => Err(NoMemory),
            Err(_) => Ok(Verdict::NoSupport),
        }
    }
}

/// A command after those that make these settings.
fn judge_next(
    alloc: Global,
    kind: Kind,
    journal: &Journal,
    end: EndPoint,
    made: &[Setting],
    command: &[u8],
) -> Result<Verdict, NoMemory>
    ensures { IfOk result (λ verdict. verdict ≡
        judged kind (λ property. value_by made.now property (value_after journal.now property 0)) (level_after journal.now 99) end (info_at command.now)) }
{
    let bench = Bench {
        alloc,
        kind,
        journal,
        made,
        end,
    };
    bench.judge(command)
}

/// The commands of a message together, each judged as if those before it were made.
fn judge_all(
    alloc: Global,
    kind: Kind,
    journal: &Journal,
    end: EndPoint,
    commands: &[Bytes],
) -> Result<Verdict, NoMemory>
    ensures { IfOk result (λ verdict. verdict ≡
        judged_all kind (λ property. value_after journal.now property 0) (level_after journal.now 99) end [] commands.now) }
{
    let mut made = Sequence::new(alloc);
    for command in commands {
        match judge_next(
            alloc,
            kind,
            journal,
            end,
            made.as_slice(),
            command.as_slice(),
        )? {
            Verdict::Makes(settings) => {
                made = merge(alloc, made.as_slice(), settings.as_slice())?;
            }
            verdict => return Ok(verdict),
        }
    }
    Ok(Verdict::Makes(made))
}

/// The commands of a message to an end point.
#[tactic(auto, unfolding(crate::specs::Judging::judged_message))]
pub fn judge_message(
    alloc: Global,
    kind: Kind,
    journal: &Journal,
    end: EndPoint,
    batch: bool,
    commands: &[Bytes],
) -> Result<Verdict, NoMemory>
    ensures { IfOk result (λ verdict. verdict ≡
        judged_message kind (λ property. value_after journal.now property 0) (level_after journal.now 99) end batch commands.now) }
{
    if !kind.has_end(end) {
        return Ok(Verdict::NoSupport);
    }
    if batch && (!kind.lists(MULTI_COMMAND) || commands.is_empty()) {
        return Ok(Verdict::NoSupport);
    }
    judge_all(alloc, kind, journal, end, commands)
}
