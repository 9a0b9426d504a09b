//! Messages without Supervision: a Set that is not reported, and a Get.

ghost use Rattle.std.specs.Prelude.{◌≡◌, ℕ, ◌≤◌, ◌<◌, false, length, List, Option, Some, IfOk, IfErr};
ghost use Rattle.host_orders.specs.Refusals.{Refuses, is_bad_word as is_bad_for};
ghost use Rattle.host_orders.specs.Errands.{
  plain_text,
  queue_full,
  secured,
  sendable_of,
  sendable_refusal,
  send_refusal,
  send_text,
  gettable_of,
  gettable_class,
  gettable_refusal,
  get_command,
  get_refusal,
  get_text,
  RefusesOrNone,
};

use crate::actuator::{Actuator, DOOR_LOCK, SWITCH_BINARY, SWITCH_MULTILEVEL, lists};
use crate::judging::{is_bad_word, known, need, need_channel};
use crate::messages::value_command;
use crate::refused::Refused;
use crate::wrapping::{SECURITY, ends_of, outer_for};
use class_core::{CoreMessage, write};
use encap::{Plan, wrap};
use std::alloc::Global;
use zw_base::{Bytes, EndPoint, List as Listed, NoMemory, Payload, Word};

/// Thermostat Mode.
const THERMOSTAT_MODE: u8 = 0x40;
/// Multilevel Sensor.
const SENSOR_MULTILEVEL: u8 = 0x31;
/// Its Get.
const SENSOR_GET: u8 = 0x04;
/// The most housekeeping requests that wait.
const MAX_QUEUED: u8 = 64;

/// What a node is asked for: the value of the first of these classes that it lists.
#[derive(Clone, Copy, PartialEq, Eq)]
pub enum Gettable {
    /// Switch Binary (0x25).
    Binary,
    /// Switch Multilevel (0x26).
    Multilevel,
    /// Door Lock (0x62).
    Lock,
    /// Thermostat Mode (0x40).
    Thermostat,
    /// Multilevel Sensor (0x31).
    Sensor,
}

impl Gettable {
    ghost use Rattle.std.specs.Prelude.{◌≡◌};
    ghost use Rattle.host_orders.specs.Errands.{gettable_of, gettable_class};

    /// What a node with these classes is asked for: Switch Binary where it lists none of them.
    #[tactic(auto, unfolding(crate::specs::Errands::gettable_of))]
    pub fn of(classes: &[u8]) -> Gettable
        ensures { result ≡ gettable_of classes.now }
    {
        if lists(classes, SWITCH_BINARY) {
            Gettable::Binary
        } else if lists(classes, SWITCH_MULTILEVEL) {
            Gettable::Multilevel
        } else if lists(classes, DOOR_LOCK) {
            Gettable::Lock
        } else if lists(classes, THERMOSTAT_MODE) {
            Gettable::Thermostat
        } else if lists(classes, SENSOR_MULTILEVEL) {
            Gettable::Sensor
        } else {
            Gettable::Binary
        }
    }

    /// The number of its class.
    pub fn class(self) -> u8
        ensures { result ≡ gettable_class self }
    {
        match self {
            Gettable::Binary => SWITCH_BINARY,
            Gettable::Multilevel => SWITCH_MULTILEVEL,
            Gettable::Lock => DOOR_LOCK,
            Gettable::Thermostat => THERMOSTAT_MODE,
            Gettable::Sensor => SENSOR_MULTILEVEL,
        }
    }
}

/// What a Set that is not reported sets: Switch Binary or Switch Multilevel.
#[tactic(auto, unfolding(crate::specs::Errands::sendable_of))]
fn sendable_of(classes: &[u8]) -> Actuator
    ensures { result ≡ sendable_of classes.now }
{
    if lists(classes, SWITCH_BINARY) {
        Actuator::Binary
    } else if lists(classes, SWITCH_MULTILEVEL) {
        Actuator::Multilevel
    } else {
        Actuator::Binary
    }
}

fn not_secured(classes: &[u8]) -> Result<(), Refused>
    ensures { Refuses result (secured classes.now) }
{
    if lists(classes, SECURITY) {
        Err(Refused::Secured)
    } else {
        Ok(())
    }
}

fn has_place(queued: u8) -> Result<(), Refused>
    ensures { Refuses result (queue_full queued) }
{
    if queued >= MAX_QUEUED {
        Err(Refused::QueueFull(MAX_QUEUED))
    } else {
        Ok(())
    }
}

/// A command to an end point, in its wraps for a node that has no Security 0.
fn plain(alloc: Global, classes: &[u8], end: EndPoint, command: Bytes) -> Result<Payload, Refused>
    requires short { length command ≤ 4 }
    requires plain { Rattle.host_orders.specs.Errands.IsPlainCommand command }
    requires open { secured classes.now ≡ Rattle.std.specs.Prelude.None }
    ensures text { IfOk result (λ payload.
        payload ≡ plain_text classes.now end command) }
    ensures err { IfErr result (λ refused. refused ≡ Refused.NoMemory) }
{
    let channel = ends_of(end);
    let len = if channel.is_some() {
        command.len() + 4
    } else {
        command.len()
    };
    let plan = Plan {
        batch: false,
        session: None,
        channel,
        outer: outer_for(classes, len),
    };
    let mut commands = Listed::new(alloc);
    commands.push(command)?;
    match wrap(alloc, &plan, &commands) {
        Ok(bytes) => Payload::of(bytes.as_slice()).ok_or(Refused::NoMemory),
        Err(_) => Err(Refused::NoMemory),
    }
}

/// Judges a Set that is not reported, of end point 0, and makes its payload. `queued` housekeeping requests wait.
#[tactic(auto, unfolding(crate::specs::Errands::send_refusal))]
pub fn send_payload(
    alloc: Global,
    is_joined: bool,
    classes: &Option<Bytes>,
    queued: u8,
    word: Word,
) -> Result<Payload, Refused>
    ensures refuses { RefusesOrNone result
        (send_refusal (record { joined = is_joined; classes = classes.now; waiting = 0 }) queued word) }
    ensures sent { (listed : List ℕ) → classes.now ≡ Some listed →
        IfOk result (λ payload. payload ≡ send_text listed word) }
{
    let classes = known(is_joined, classes)?;
    let actuator = judge_send(classes, queued, word)?;
    let command = value_command(alloc, actuator, word)?;
    plain(alloc, classes, EndPoint::root(), command)
}

#[tactic(auto, unfolding(crate::specs::Errands::sendable_refusal))]
fn judge_send(classes: &[u8], queued: u8, word: Word) -> Result<Actuator, Refused>
    ensures refuses { Refuses result
        (sendable_refusal classes.now queued word) }
    ensures actuator { IfOk result (λ actuator.
        actuator ≡ sendable_of classes.now) }
    ensures good { IfOk result (λ actuator.
        is_bad_for actuator word ≡ false) }
    ensures open { IfOk result (λ _.
        secured classes.now ≡ Rattle.std.specs.Prelude.None) }
{
    not_secured(classes)?;
    let actuator = sendable_of(classes);
    need(classes, actuator.class())?;
    if is_bad_word(actuator, word) {
        return Err(Refused::BadValue);
    }
    has_place(queued)?;
    Ok(actuator)
}

/// The Get of a class.
fn get_command(alloc: Global, gettable: Gettable) -> Result<Bytes, NoMemory>
    ensures { IfOk result (λ bytes. bytes ≡ get_command gettable) }
{
    match gettable {
        Gettable::Binary => write(alloc, &CoreMessage::SwitchBinaryGet),
        Gettable::Multilevel => write(alloc, &CoreMessage::SwitchMultilevelGet),
        Gettable::Lock => write(alloc, &CoreMessage::DoorLockOperationGet),
        Gettable::Thermostat => write(alloc, &CoreMessage::ThermostatModeGet),
        Gettable::Sensor => Bytes::from_slice(alloc, &[SENSOR_MULTILEVEL, SENSOR_GET]),
    }
}

#[tactic(auto, unfolding(crate::specs::Errands::gettable_refusal))]
fn judge_get(classes: &[u8], queued: u8, end: u8) -> Result<Gettable, Refused>
    ensures refuses { Refuses result
        (gettable_refusal classes.now queued end) }
    ensures gettable { IfOk result (λ gettable.
        gettable ≡ gettable_of classes.now) }
    ensures open { IfOk result (λ _.
        secured classes.now ≡ Rattle.std.specs.Prelude.None) }
{
    not_secured(classes)?;
    let gettable = Gettable::of(classes);
    need(classes, gettable.class())?;
    need_channel(classes, end)?;
    has_place(queued)?;
    Ok(gettable)
}

/// Judges a Get of an end point, and makes its payload. `queued` housekeeping requests wait.
#[tactic(auto, unfolding(crate::specs::Errands::get_refusal))]
pub fn get_payload(
    alloc: Global,
    is_joined: bool,
    classes: &Option<Bytes>,
    queued: u8,
    end: EndPoint,
) -> Result<Payload, Refused>
    ensures refuses { RefusesOrNone result
        (get_refusal (record { joined = is_joined; classes = classes.now; waiting = 0 }) queued end) }
    ensures asked { (listed : List ℕ) → classes.now ≡ Some listed →
        IfOk result (λ payload. payload ≡ get_text listed end) }
{
    let classes = known(is_joined, classes)?;
    let gettable = judge_get(classes, queued, end.number())?;
    let command = get_command(alloc, gettable)?;
    plain(alloc, classes, end, command)
}
