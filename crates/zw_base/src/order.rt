//! The order: a node, an end point of it, and what is asked.

ghost use Rattle.std.specs.Prelude.{◌≡◌, IfOk};

use crate::{Bytes, EndPoint, NoMemory, NodeId};
use std::alloc::Global;

/// A value in words: all the way on or off, or a level.
#[derive(Clone, Copy, Debug, PartialEq, Eq)]
pub enum Word {
    On,
    Off,
    /// A level in per cent, as it was given; a host refuses what is above 99.
    Level(u8),
}

/// What is asked of an end point.
#[derive(Drop)]
pub enum What {
    /// Switch Binary, Switch Multilevel or Door Lock, by what the node lists.
    Value(Word),
    /// Thermostat Mode.
    Mode(u8),
    /// Thermostat Setpoint: its type, and the temperature in tenths of a degree.
    Setpoint { kind: u8, tenths: u16 },
    /// Configuration of one parameter, written with four bytes.
    Config { param: u8, value: u32 },
    /// Configuration of parameters in a row from `offset` on, one byte each.
    Bulk { offset: u8, values: Bytes },
    /// Association: the node becomes a member of the group.
    Associate { group: u8, member: NodeId },
    /// Association: the node is a member of the group no longer.
    Dissociate { group: u8, member: NodeId },
    /// Wake Up Interval in seconds.
    Interval(u32),
    /// Mode and setpoint in one message.
    Comfort { mode: u8, kind: u8, tenths: u16 },
}

/// An order to an end point of a node.
#[derive(Drop)]
pub struct Order {
    pub node: NodeId,
    pub end: EndPoint,
    pub what: What,
}

impl What {
    /// The same asked again.
    pub fn copy(&self, alloc: Global) -> Result<What, NoMemory>
        ensures { IfOk result (λ copy. copy ≡ self.now) }
    {
        Ok(match self {
            What::Value(word) => What::Value(*word),
            What::Mode(mode) => What::Mode(*mode),
            What::Setpoint { kind, tenths } => What::Setpoint {
                kind: *kind,
                tenths: *tenths,
            },
            What::Config { param, value } => What::Config {
                param: *param,
                value: *value,
            },
            What::Bulk { offset, values } => What::Bulk {
                offset: *offset,
                values: Bytes::from_slice(alloc, values.as_slice())?,
            },
            What::Associate { group, member } => What::Associate {
                group: *group,
                member: *member,
            },
            What::Dissociate { group, member } => What::Dissociate {
                group: *group,
                member: *member,
            },
            What::Interval(seconds) => What::Interval(*seconds),
            What::Comfort { mode, kind, tenths } => What::Comfort {
                mode: *mode,
                kind: *kind,
                tenths: *tenths,
            },
        })
    }
}

impl Order {
    /// The same order again.
    pub fn copy(&self, alloc: Global) -> Result<Order, NoMemory>
        ensures { IfOk result (λ copy. copy ≡ self.now) }
    {
        Ok(Order {
            node: self.node,
            end: self.end,
            what: self.what.copy(alloc)?,
        })
    }
}
