//! How the messages of an order are wrapped.

ghost use Rattle.std.specs.Prelude.{◌≡◌, ◌+◌, ◌%◌, ◌≤◌, ◌<◌, false, length, IfOk};
ghost use Rattle.host_orders.specs.declared.actuator.Actuator.{Actuator as TheActuator};
ghost use Rattle.host_orders.specs.Messages.{takes_time, BulkHasAtMost};
ghost use Rattle.host_orders.specs.Wrapping.{ends_of, plan_of, message_of, supervised_text, wrapped_len, outer_for};
ghost use Rattle.host_orders.specs.Refusals.{IsFit};

use crate::actuator::{Actuator, lists};
use crate::carriage::Carriage;
use crate::messages::{commands, is_batch};
use encap::{Ends, Outer, Plan, Supervised, wrap};
use std::alloc::Global;
use zw_base::{Bytes, EndPoint, NoMemory, Order, What};

/// Security 0.
pub(crate) const SECURITY: u8 = 0x98;
/// Transport Service.
pub(crate) const TRANSPORT: u8 = 0x55;
/// CRC-16 Encapsulation.
const CRC16: u8 = 0x56;

/// The most bytes of one frame on the air.
pub(crate) const MAX_PAYLOAD: usize = 46;
/// What CRC-16 adds: class, command and two bytes of the check.
const CRC16_LEN: usize = 4;
/// What Supervision Get adds: class, command, the session's byte and the length.
const SUPERVISION_LEN: usize = 4;
/// What Multi Channel adds: class, command and the two end points.
const CHANNEL_LEN: usize = 4;
/// The sessions that the wire tells apart.
const WIRE_SESSIONS: u64 = 64;

/// From end point 0 to an end point above 0.
pub(crate) fn ends_of(end: EndPoint) -> Option<Ends>
    ensures { result ≡ ends_of end }
{
    if end.number() > 0 {
        Some(Ends {
            source: EndPoint::root(),
            target: end,
        })
    } else {
        None
    }
}

/// Whether a change takes time, so that later reports are asked for.
fn takes_time(actuator: Actuator, what: &What) -> bool
    ensures { result ≡ takes_time actuator what.now }
{
    match (actuator, what) {
        (Actuator::Multilevel, What::Value(_)) => true,
        _ => false,
    }
}

/// The plan of a session's message.
fn plan(carriage: Carriage, order: &Order, session: u64) -> Plan
    ensures { result ≡ plan_of carriage order.now session }
{
    Plan {
        batch: is_batch(&order.what),
        session: Some(Supervised {
            updates: takes_time(carriage.actuator, &order.what),
            id: (session % WIRE_SESSIONS) as u8,
        }),
        channel: ends_of(order.end),
        outer: carriage.outer,
    }
}

/// The message of a session in its wraps, all but Security 0 and Transport Service, for an order that was taken to be
/// carried so.
pub fn write_message(
    alloc: Global,
    carriage: Carriage,
    order: &Order,
    session: u64,
) -> Result<Bytes, NoMemory>
    requires { IsFit carriage.actuator order.now }
    ensures { IfOk result (λ bytes.
        bytes ≡ message_of carriage order.now session) }
{
    let commands = commands(alloc, carriage.actuator, &order.what)?;
    match wrap(alloc, &plan(carriage, order, session), &commands) {
        Ok(bytes) => Ok(bytes),
        Err(_) => Err(NoMemory),
    }
}

/// How many bytes are supervised.
pub(crate) fn supervised_len(order: &Order) -> usize
    requires { BulkHasAtMost 256 order.now.what }
    ensures len { (actuator : TheActuator) →
        result ≡ length (supervised_text actuator order.now) }
    ensures most { result ≤ 262 }
{
    match &order.what {
        What::Value(_) | What::Mode(_) => 3,
        What::Associate { .. } | What::Dissociate { .. } => 4,
        What::Setpoint { .. } | What::Interval(_) => 6,
        What::Config { .. } => 8,
        What::Bulk { values, .. } => 6 + values.len(),
        What::Comfort { .. } => 14,
    }
}

/// How many bytes a session's message has before its outermost wrap.
pub(crate) fn wrapped_len(order: &Order) -> usize
    requires { BulkHasAtMost 256 order.now.what }
    ensures len { (actuator : TheActuator) →
        result ≡ wrapped_len actuator order.now }
    ensures most { result ≤ 270 }
{
    let supervised = supervised_len(order) + SUPERVISION_LEN;
    if order.end.number() > 0 {
        supervised + CHANNEL_LEN
    } else {
        supervised
    }
}

/// The outermost wrap of that many bytes for a node with these classes.
pub(crate) fn outer_for(classes: &[u8], len: usize) -> Outer
    requires { len ≤ 65535 }
    ensures { result ≡ outer_for classes.now len }
{
    if lists(classes, SECURITY) {
        Outer::Security
    } else if len > MAX_PAYLOAD {
        Outer::Transport
    } else if lists(classes, CRC16) && len + CRC16_LEN <= MAX_PAYLOAD {
        Outer::Crc16
    } else {
        Outer::None
    }
}
