//! What a device keeps: properties of its end points, and the settings that give them values.

ghost use Rattle.std.specs.Prelude.{◌≡◌};
ghost use Rattle.std.specs.Ordering.{nat_cmp};
ghost use Rattle.std.specs.Cmp.Lexicographic.{slice_cmp};
ghost use Rattle.zw_base.specs.PropertyOrder.{rank_of};

use crate::{EndPoint, NodeId};

/// What is kept. The number of `Setpoint` is the type of the setpoint, that of `Config` the parameter, those of
/// `Member` the group and the member of an association.
#[derive(Clone, Copy, Debug, PartialEq, Eq, PartialOrd, Ord)]
pub enum Name {
    Switch,
    Level,
    Lock,
    Mode,
    Setpoint(u8),
    Config(u8),
    Member(u8, NodeId),
    Interval,
    Sensor,
    Battery,
}

/// A property of an end point.
#[derive(Clone, Copy, Debug, PartialEq, Eq, PartialOrd, Ord)]
pub struct Property {
    pub end: EndPoint,
    pub name: Name,
}

/// A value that is given to a property.
#[derive(Clone, Copy, Debug, PartialEq, Eq)]
pub struct Setting {
    pub property: Property,
    pub value: u32,
}

/// What made a change of a device.
#[derive(Clone, Copy, Debug, PartialEq, Eq)]
pub enum By {
    /// The command of that session, from 1 on.
    Session(u64),
    /// Somebody at the device.
    Local,
    /// A Set without Supervision.
    Plain,
}

/// Properties are in order of their end points, then of their names as declared, then of the numbers in a name.
pub fn properties_in_order(first: Property, second: Property)
    ensures { ⟦<Property as Ord>⟧.cmp first second ≡ slice_cmp nat_cmp (rank_of first) (rank_of second) }
{}
