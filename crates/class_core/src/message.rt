//! The messages of the actuator command classes.

use crate::{
    Decimal, Level, LockMode, Mode, NodeList, Number, NumberList, Seconds, SetpointKind, Switch,
};
use zw_base::NodeId;

/// A message that sets or reports what an actuator does, with its fields. Times of a lock are in minutes and
/// seconds as they stand in their bytes.
#[derive(Drop)]
pub enum CoreMessage {
    BasicSet {
        value: u8,
    },
    BasicGet,
    BasicReport {
        value: u8,
    },
    SwitchBinarySet {
        value: Switch,
    },
    SwitchBinaryGet,
    SwitchBinaryReport {
        value: Switch,
    },
    SwitchMultilevelSet {
        level: Level,
    },
    SwitchMultilevelGet,
    SwitchMultilevelReport {
        level: Level,
    },
    ThermostatModeSet {
        mode: Mode,
    },
    ThermostatModeGet,
    ThermostatModeReport {
        mode: Mode,
    },
    ThermostatSetpointSet {
        kind: SetpointKind,
        value: Decimal,
    },
    ThermostatSetpointGet {
        kind: SetpointKind,
    },
    ThermostatSetpointReport {
        kind: SetpointKind,
        value: Decimal,
    },
    DoorLockOperationSet {
        mode: LockMode,
    },
    DoorLockOperationGet,
    DoorLockOperationReport {
        mode: LockMode,
        levers: u8,
        condition: u8,
        minutes: u8,
        seconds: u8,
    },
    ConfigurationSet {
        parameter: u8,
        default: bool,
        value: Number,
    },
    ConfigurationGet {
        parameter: u8,
    },
    ConfigurationReport {
        parameter: u8,
        value: Number,
    },
    /// The parameters from `offset` on, in order.
    ConfigurationBulkSet {
        offset: u16,
        default: bool,
        values: NumberList,
    },
    AssociationSet {
        group: u8,
        members: NodeList,
    },
    AssociationRemove {
        group: u8,
        members: NodeList,
    },
    WakeUpIntervalSet {
        seconds: Seconds,
        target: NodeId,
    },
}
