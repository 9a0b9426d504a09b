//! The messages of both tables.

use crate::battery_level::BatteryLevel;
use crate::report_status::ReportStatus;
use crate::session::{SegmentOffset, SessionId, TransportId};
use class_core::{CoreMessage, Decimal, NodeId, NodeList, Seconds, Switch};

/// A message that asks or tells, with its fields, or one of an actuator.
#[derive(Drop)]
pub enum InfoMessage {
    /// A message of the actuator classes.
    Core(CoreMessage),
    SensorBinaryGet,
    SensorBinaryReport {
        value: Switch,
    },
    SensorMultilevelGet,
    SensorMultilevelReport {
        kind: u8,
        value: Decimal,
    },
    NotificationReport {
        kind: u8,
        level: u8,
    },
    ManufacturerSpecificGet,
    ManufacturerSpecificReport {
        manufacturer: u16,
        kind: u16,
        product: u16,
    },
    BatteryGet,
    BatteryReport {
        level: BatteryLevel,
    },
    WakeUpIntervalGet,
    WakeUpIntervalReport {
        seconds: Seconds,
        target: NodeId,
    },
    WakeUpNotification,
    WakeUpNoMoreInformation,
    AssociationGet {
        group: u8,
    },
    /// `following` counts the reports that continue the list.
    AssociationReport {
        group: u8,
        most: u8,
        following: u8,
        members: NodeList,
    },
    AssociationGroupingsGet,
    AssociationGroupingsReport {
        groups: u8,
    },
    VersionGet,
    VersionReport {
        library: u8,
        protocol: u8,
        protocol_sub: u8,
        application: u8,
        application_sub: u8,
    },
    VersionClassGet {
        class: u8,
    },
    VersionClassReport {
        class: u8,
        version: u8,
    },
    /// `more` says that a later report follows; `wake_request` asks to keep a node awake (version 2); `duration` is the
    /// byte of the time until the later report.
    SupervisionReport {
        more: bool,
        wake_request: bool,
        session: SessionId,
        status: ReportStatus,
        duration: u8,
    },
    NonceGet,
    NonceReport {
        nonce: [u8; 8],
    },
    /// Asks for the segment at an offset.
    TransportRequest {
        session: TransportId,
        offset: SegmentOffset,
    },
    TransportComplete {
        session: TransportId,
    },
    /// `pending` counts the segments that the sender is to wait for.
    TransportWait {
        pending: u8,
    },
}
