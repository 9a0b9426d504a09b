//! Whether a host takes an order.

ghost use Rattle.std.specs.Prelude.{◌≡◌, ℕ, ◌≤◌, ◌<◌, false, Option, Some, None, List, [], ◌∷◌, IfOk, IfErr, Ok};
ghost use Rattle.host_orders.specs.Messages.{classes_in, classes_needed, channel_class};
ghost use Rattle.host_orders.specs.Wrapping.{carriage_of};
ghost use Rattle.host_orders.specs.Refusals.{
  Refuses,
  IsFit,
  first_refusal,
  unsupported,
  is_bad,
  is_bad_word,
  is_bad_mode,
  is_bad_setpoint,
  is_bad_bulk,
  is_too_long,
  too_long,
};

use crate::actuator::{Actuator, lists};
use crate::carriage::Carriage;
use crate::refused::Refused;
use crate::wrapping::{MAX_PAYLOAD, SECURITY, TRANSPORT, outer_for, supervised_len, wrapped_len};
use zw_base::{Bytes, Order, What, Word};

/// Supervision.
const SUPERVISION: u8 = 0x6C;
/// Multi Command.
const MULTI_COMMAND: u8 = 0x8F;
/// Multi Channel.
pub(crate) const MULTI_CHANNEL: u8 = 0x60;
/// Thermostat Mode.
const THERMOSTAT_MODE: u8 = 0x40;
/// Thermostat Setpoint.
const THERMOSTAT_SETPOINT: u8 = 0x43;
/// Configuration.
const CONFIGURATION: u8 = 0x70;
/// Association.
const ASSOCIATION: u8 = 0x85;
/// Wake Up.
const WAKE_UP: u8 = 0x84;

/// The greatest mode of a thermostat.
const MAX_MODE: u8 = 31;
/// The type of a setpoint for heating.
const HEATING: u8 = 1;
/// The type of a setpoint for cooling.
const COOLING: u8 = 2;
/// The highest setpoint, in tenths of a degree.
const MAX_TENTHS: u16 = 999;
/// The number of configuration parameters of a node.
const PARAMETERS: usize = 256;
/// The longest wake-up interval, in seconds.
const MAX_SECONDS: u32 = 0xFF_FFFF;
/// The highest level, in per cent.
const MAX_LEVEL: u8 = 99;
/// The most bytes of a length byte.
const MAX_SUPERVISED: usize = 255;
/// The most bytes that are sealed.
const MAX_SEALED: usize = 26;
/// The most commands that wait for a node.
const MAX_WAITING: u8 = 16;

/// The node has to list this class.
pub(crate) fn need(classes: &[u8], class: u8) -> Result<(), Refused>
    ensures { Refuses result (unsupported classes.now (class ∷ [])) }
{
    if lists(classes, class) {
        Ok(())
    } else {
        Err(Refused::Unsupported(class))
    }
}

/// The node has to list the class of Multi Channel for an end point above 0.
pub(crate) fn need_channel(classes: &[u8], end: u8) -> Result<(), Refused>
    ensures { Refuses result (unsupported classes.now (channel_class end)) }
{
    if end > 0 {
        need(classes, MULTI_CHANNEL)
    } else {
        Ok(())
    }
}

/// The node has to list the classes of mode, setpoint and batch.
fn need_comfort(classes: &[u8]) -> Result<(), Refused>
    ensures { Refuses result
        (unsupported classes.now (0x40 ∷ 0x43 ∷ 0x8F ∷ [])) }
{
    need(classes, THERMOSTAT_MODE)?;
    need(classes, THERMOSTAT_SETPOINT)?;
    need(classes, MULTI_COMMAND)
}

/// The node has to list the classes of the messages.
fn need_messages(classes: &[u8], actuator: Actuator, what: &What) -> Result<(), Refused>
    ensures { Refuses result
        (unsupported classes.now (classes_in actuator what.now)) }
{
    match what {
        What::Value(_) => need(classes, actuator.class()),
        What::Mode(_) => need(classes, THERMOSTAT_MODE),
        What::Setpoint { .. } => need(classes, THERMOSTAT_SETPOINT),
        What::Config { .. } | What::Bulk { .. } => need(classes, CONFIGURATION),
        What::Associate { .. } | What::Dissociate { .. } => need(classes, ASSOCIATION),
        What::Interval(_) => need(classes, WAKE_UP),
        What::Comfort { .. } => need_comfort(classes),
    }
}

/// The node has to list all classes of the order.
fn need_all(classes: &[u8], actuator: Actuator, order: &Order) -> Result<(), Refused>
    ensures { Refuses result
        (unsupported classes.now
        (classes_needed actuator order.now.what order.now.end)) }
{
    need_messages(classes, actuator, &order.what)?;
    need_channel(classes, order.end.number())
}

/// Whether a word is no value for such a node.
pub(crate) fn is_bad_word(actuator: Actuator, word: Word) -> bool
    ensures { result ≡ is_bad_word actuator word }
{
    match (actuator, word) {
        (_, Word::On | Word::Off) => false,
        (Actuator::Multilevel, Word::Level(level)) => level > MAX_LEVEL,
        (_, Word::Level(_)) => true,
    }
}

fn is_bad_mode(mode: u8) -> bool
    ensures { result ≡ is_bad_mode mode }
{
    mode > MAX_MODE
}

fn is_bad_setpoint(kind: u8, tenths: u16) -> bool
    ensures { result ≡ is_bad_setpoint kind tenths }
{
    !(kind == HEATING || kind == COOLING) || tenths > MAX_TENTHS
}

fn is_bad_bulk(offset: u8, count: usize) -> bool
    ensures { result ≡ is_bad_bulk offset count }
{
    count == 0 || count > PARAMETERS - usize::from(offset)
}

/// Whether a value is out of its range.
fn is_bad(actuator: Actuator, what: &What) -> bool
    ensures { result ≡ is_bad actuator what.now }
{
    match what {
        What::Value(word) => is_bad_word(actuator, *word),
        What::Mode(mode) => is_bad_mode(*mode),
        What::Setpoint { kind, tenths } => is_bad_setpoint(*kind, *tenths),
        What::Bulk { offset, values } => is_bad_bulk(*offset, values.len()),
        What::Interval(seconds) => *seconds > MAX_SECONDS,
        What::Comfort { mode, kind, tenths } => {
            is_bad_mode(*mode) || is_bad_setpoint(*kind, *tenths)
        }
        What::Config { .. } | What::Associate { .. } | What::Dissociate { .. } => false,
    }
}

/// Whether a message of that many bytes in its wraps is too long for one message to a node with these classes.
fn is_too_long(classes: &[u8], len: usize) -> bool
    ensures { result ≡ is_too_long classes.now len }
{
    if lists(classes, SECURITY) {
        len > MAX_SEALED
    } else {
        !lists(classes, TRANSPORT) && len > MAX_PAYLOAD
    }
}

/// What is supervised has to fit its length byte, and the message its wraps.
fn fit(classes: &[u8], supervised: usize, wrapped: usize) -> Result<(), Refused>
    requires supervised { supervised ≤ 65535 }
    requires wrapped { wrapped ≤ 65535 }
    ensures { Refuses result (too_long classes.now supervised wrapped) }
{
    if supervised > MAX_SUPERVISED {
        return Err(Refused::TooLong(supervised as u16));
    }
    if is_too_long(classes, wrapped) {
        return Err(Refused::TooLong(wrapped as u16));
    }
    Ok(())
}

/// The classes of a node that is joined and was interviewed.
pub(crate) fn known(is_joined: bool, classes: &Option<Bytes>) -> Result<&[u8], Refused>
    ensures joined { IfErr result (λ refused.
        Rattle.host_orders.specs.Refusals.unknown_by is_joined classes.now ≡
        Some refused) }
    ensures classes { IfOk result (λ listed.
        (Rattle.host_orders.specs.Refusals.unknown_by is_joined
        classes.now ≡ None)
        × (classes.now ≡ Some listed.now)) }
{
    if !is_joined {
        return Err(Refused::NotJoined);
    }
    match classes {
        Some(classes) => Ok(classes.as_slice()),
        None => Err(Refused::NotInterviewed),
    }
}

/// Judges an order for a node by all that is known but its properties: the first rule that applies refuses it. Else it
/// says how the command will be carried. `waiting` commands wait for the node.
#[tactic(auto, unfolding(crate::specs::Refusals::first_refusal))]
pub fn judge(
    is_joined: bool,
    classes: &Option<Bytes>,
    waiting: u8,
    order: &Order,
) -> Result<Carriage, Refused>
    ensures refuses { Refuses result
        (first_refusal (record { joined = is_joined; classes = classes.now; waiting = waiting })
        order.now) }
    ensures carried { (listed : List ℕ) → classes.now ≡ Some listed →
        IfOk result (λ carriage. carriage ≡ carriage_of listed order.now) }
    ensures fit { IfOk result (λ carriage.
        IsFit carriage.actuator order.now) }
{
    let classes = known(is_joined, classes)?;
    judge_known(classes, waiting, order)
}

/// The same, for a node whose classes are known.
#[tactic(auto, unfolding(crate::specs::Refusals::known_refusal))]
fn judge_known(classes: &[u8], waiting: u8, order: &Order) -> Result<Carriage, Refused>
    ensures refuses { Refuses result
        (Rattle.host_orders.specs.Refusals.known_refusal classes.now
        waiting order.now) }
    ensures carried { IfOk result (λ carriage.
        carriage ≡ carriage_of classes.now order.now) }
    ensures fit { IfOk result (λ carriage.
        IsFit carriage.actuator order.now) }
{
    let actuator = Actuator::of(classes);
    need_all(classes, actuator, order)?;
    if is_bad(actuator, &order.what) {
        return Err(Refused::BadValue);
    }
    if !lists(classes, SUPERVISION) {
        return Err(Refused::Unsupervised);
    }
    let len = wrapped_len(order);
    fit(classes, supervised_len(order), len)?;
    if waiting >= MAX_WAITING {
        return Err(Refused::MailboxFull(MAX_WAITING));
    }
    Ok(Carriage {
        actuator,
        outer: outer_for(classes, len),
    })
}
