//! The messages of an order, as they are written.

ghost use Rattle.std.specs.Prelude.{◌≡◌, ◌<◌, ◌≤◌, ◌∷◌, [], false, length, IfOk};
ghost use Rattle.class_core.specs.Spelling.{form};
ghost use Rattle.class_core.specs.declared.message.CoreMessage.TheVariants as messages;
ghost use Rattle.class_core.specs.declared.number.Size.TheVariants as sizes;
ghost use Rattle.class_core.specs.declared.number.Number.TheVariants as numbers;
ghost use Rattle.host_orders.specs.Messages.{switch_of, lock_of, value_message, setpoint_message, commands_of, first_command_of, is_batch, BulkHasAtMost};
ghost use Rattle.host_orders.specs.Refusals.{is_bad, is_bad_word, is_bad_mode, is_bad_setpoint, is_bad_interval};

use crate::actuator::Actuator;
use crate::setting::level_of;
use class_core::{
    CoreMessage, Decimal, Level, LockMode, Mode, NodeList, Number, NumberList, Seconds,
    SetpointKind, Size, Switch, write,
};
use std::alloc::Global;
use zw_base::{Bytes, List, NoMemory, NodeId, What, Word, read_node};

/// The controller, which a node that wakes tells so.
const CONTROLLER: u8 = 1;
/// A temperature has one digit after the decimal point.
const TENTHS: u8 = 1;
/// Degrees Celsius.
const CELSIUS: u8 = 0;

/// Whether the messages are sent in one Multi Command Encapsulation.
pub(crate) fn is_batch(what: &What) -> bool
    ensures { result ≡ is_batch what.now }
{
    matches!(what, What::Comfort { .. })
}

fn switch_of(word: Word) -> Switch
    ensures { result ≡ switch_of word }
{
    match word {
        Word::On => Switch::On,
        Word::Off | Word::Level(_) => Switch::Off,
    }
}

fn lock_of(word: Word) -> LockMode
    ensures { result ≡ lock_of word }
{
    match word {
        Word::On => LockMode::Secured,
        Word::Off | Word::Level(_) => LockMode::Unsecured,
    }
}

/// The message that sets a value.
pub(crate) fn value_command(
    alloc: Global,
    actuator: Actuator,
    word: Word,
) -> Result<Bytes, NoMemory>
    requires { is_bad_word actuator word ≡ false }
    ensures { IfOk result (λ bytes.
        bytes ≡ form (value_message actuator word)) }
{
    match actuator {
        Actuator::Binary => write(
            alloc,
            &CoreMessage::SwitchBinarySet {
                value: switch_of(word),
            },
        ),
        Actuator::Multilevel => level_command(alloc, level_of(word)),
        Actuator::Lock => write(
            alloc,
            &CoreMessage::DoorLockOperationSet {
                mode: lock_of(word),
            },
        ),
    }
}

fn level_command(alloc: Global, level: u8) -> Result<Bytes, NoMemory>
    requires { level ≤ 99 }
    ensures { IfOk result (λ bytes.
        bytes ≡ form (messages.SwitchMultilevelSet level)) }
{
    let level = Level::of(level).unwrap();
    write(alloc, &CoreMessage::SwitchMultilevelSet { level })
}

fn mode_command(alloc: Global, mode: u8) -> Result<Bytes, NoMemory>
    requires { is_bad_mode mode ≡ false }
    ensures { IfOk result (λ bytes.
        bytes ≡ form (messages.ThermostatModeSet mode)) }
{
    let mode = Mode::of(mode).unwrap();
    write(alloc, &CoreMessage::ThermostatModeSet { mode })
}

fn setpoint_command(alloc: Global, kind: u8, tenths: u16) -> Result<Bytes, NoMemory>
    requires { is_bad_setpoint kind tenths ≡ false }
    ensures { IfOk result (λ bytes.
        bytes ≡ form (setpoint_message kind tenths)) }
{
    let kind = SetpointKind::of(kind).unwrap();
    let value = Decimal::new(TENTHS, CELSIUS, Number::Two(tenths));
    write(alloc, &CoreMessage::ThermostatSetpointSet { kind, value })
}

fn config_command(alloc: Global, parameter: u8, value: u32) -> Result<Bytes, NoMemory>
    ensures { IfOk result (λ bytes.
        bytes ≡ form (messages.ConfigurationSet parameter false
        (numbers.Four value))) }
{
    let message = CoreMessage::ConfigurationSet {
        parameter,
        default: false,
        value: Number::Four(value),
    };
    write(alloc, &message)
}

/// Numbers of one byte each.
fn one_byte_each(alloc: Global, values: &[u8]) -> Result<NumberList, NoMemory>
    requires { length values.now ≤ 255 }
    ensures { IfOk result (λ list.
        list ≡ record { size = sizes.One; items = values.now }) }
{
    let mut list = NumberList::new(alloc, Size::One);
    for value in values {
        list.push(u32::from(*value))?;
    }
    Ok(list)
}

fn bulk_command(alloc: Global, offset: u8, values: &[u8]) -> Result<Bytes, NoMemory>
    requires { length values.now ≤ 255 }
    ensures { IfOk result (λ bytes.
        bytes ≡ form (messages.ConfigurationBulkSet offset false
        (record { size = sizes.One; items = values.now }))) }
{
    let message = CoreMessage::ConfigurationBulkSet {
        offset: u16::from(offset),
        default: false,
        values: one_byte_each(alloc, values)?,
    };
    write(alloc, &message)
}

fn one_member(alloc: Global, member: NodeId) -> Result<NodeList, NoMemory>
    ensures { IfOk result (λ list. list ≡ member ∷ []) }
{
    let mut members = NodeList::new(alloc);
    members.push(member)?;
    Ok(members)
}

fn associate_command(alloc: Global, group: u8, member: NodeId) -> Result<Bytes, NoMemory>
    ensures { IfOk result (λ bytes.
        bytes ≡ form (messages.AssociationSet group (member ∷ []))) }
{
    let members = one_member(alloc, member)?;
    write(alloc, &CoreMessage::AssociationSet { group, members })
}

fn dissociate_command(alloc: Global, group: u8, member: NodeId) -> Result<Bytes, NoMemory>
    ensures { IfOk result (λ bytes.
        bytes ≡ form (messages.AssociationRemove group (member ∷ []))) }
{
    let members = one_member(alloc, member)?;
    write(alloc, &CoreMessage::AssociationRemove { group, members })
}

fn interval_command(alloc: Global, seconds: u32) -> Result<Bytes, NoMemory>
    requires { is_bad_interval seconds ≡ false }
    ensures { IfOk result (λ bytes.
        bytes ≡ form (messages.WakeUpIntervalSet seconds 1)) }
{
    let seconds = Seconds::of(seconds).unwrap();
    let target = read_node(CONTROLLER).unwrap();
    write(alloc, &CoreMessage::WakeUpIntervalSet { seconds, target })
}

/// The only message of an order, or the first of a batch.
fn first_command(alloc: Global, actuator: Actuator, what: &What) -> Result<Bytes, NoMemory>
    requires good { is_bad actuator what.now ≡ false }
    requires short { BulkHasAtMost 255 what.now }
    ensures { IfOk result (λ bytes.
        bytes ≡ first_command_of actuator what.now) }
{
    match what {
        What::Value(word) => value_command(alloc, actuator, *word),
        What::Mode(mode) | What::Comfort { mode, .. } => mode_command(alloc, *mode),
        What::Setpoint { kind, tenths } => setpoint_command(alloc, *kind, *tenths),
        What::Config { param, value } => config_command(alloc, *param, *value),
        What::Bulk { offset, values } => bulk_command(alloc, *offset, values.as_slice()),
        What::Associate { group, member } => associate_command(alloc, *group, *member),
        What::Dissociate { group, member } => dissociate_command(alloc, *group, *member),
        What::Interval(seconds) => interval_command(alloc, *seconds),
    }
}

/// The messages of an order whose values are in their ranges and whose bulk values are at most 255.
pub(crate) fn commands(
    alloc: Global,
    actuator: Actuator,
    what: &What,
) -> Result<List<Bytes>, NoMemory>
    requires good { is_bad actuator what.now ≡ false }
    requires short { BulkHasAtMost 255 what.now }
    ensures { IfOk result (λ commands.
        commands.items ≡ commands_of actuator what.now) }
{
    let mut commands = List::new(alloc);
    commands.push(first_command(alloc, actuator, what)?)?;
    if let What::Comfort { kind, tenths, .. } = what {
        commands.push(setpoint_command(alloc, *kind, *tenths)?)?;
    }
    Ok(commands)
}
