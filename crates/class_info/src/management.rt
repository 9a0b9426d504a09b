//! The management classes: Notification, Manufacturer Specific, Battery, Wake Up, Association and Version, each in
//! the command class of that name.

ghost use Rattle.std.specs.Prelude.{◌≡◌};
ghost use Rattle.class_core.specs.Reading.{Gives, in_class};
ghost use Rattle.class_info.specs.InfoReading.{notification_by, manufacturer_by, battery_by, wake_up_by, association_by, version_by};

use crate::message::InfoMessage;
use crate::own_fields::battery_level;
use class_core::ClassFault;
use class_core::fields::{byte, node, nodes, seconds, word};
use std::alloc::Global;

pub(crate) const NOTIFICATION: u8 = 0x71;

pub(crate) const NOTIFICATION_REPORT: u8 = 5;

pub(crate) const MANUFACTURER_SPECIFIC: u8 = 0x72;

pub(crate) const MANUFACTURER_GET: u8 = 4;

pub(crate) const MANUFACTURER_REPORT: u8 = 5;

pub(crate) const BATTERY: u8 = 0x80;

pub(crate) const BATTERY_GET: u8 = 2;

pub(crate) const BATTERY_REPORT: u8 = 3;

pub(crate) const WAKE_UP: u8 = 0x84;

pub(crate) const INTERVAL_GET: u8 = 5;

pub(crate) const INTERVAL_REPORT: u8 = 6;

pub(crate) const WAKE_UP_NOTIFICATION: u8 = 7;

pub(crate) const NO_MORE_INFORMATION: u8 = 8;

pub(crate) const ASSOCIATION: u8 = 0x85;

pub(crate) const ASSOCIATION_GET: u8 = 2;

pub(crate) const ASSOCIATION_REPORT: u8 = 3;

pub(crate) const GROUPINGS_GET: u8 = 5;

pub(crate) const GROUPINGS_REPORT: u8 = 6;

pub(crate) const VERSION: u8 = 0x86;

pub(crate) const VERSION_GET: u8 = 0x11;

pub(crate) const VERSION_REPORT: u8 = 0x12;

pub(crate) const VERSION_CLASS_GET: u8 = 0x13;

pub(crate) const VERSION_CLASS_REPORT: u8 = 0x14;

/// The message of Notification that the bytes spell.
#[tactic(auto, unfolding(class_core::specs::Reading::in_class, crate::specs::InfoReading::notification_at))]
pub(crate) fn read_notification(bytes: &[u8]) -> Result<InfoMessage, ClassFault>
    ensures { result ≡ in_class notification_by bytes.now }
{
    match byte(bytes, 1)? {
        NOTIFICATION_REPORT => Ok(InfoMessage::NotificationReport {
            kind: byte(bytes, 2)?,
            level: byte(bytes, 3)?,
        }),
        command => Err(ClassFault::UnknownCommand(NOTIFICATION, command)),
    }
}

/// The message of Manufacturer Specific that the bytes spell.
#[tactic(auto, unfolding(class_core::specs::Reading::in_class, crate::specs::InfoReading::manufacturer_at))]
pub(crate) fn read_manufacturer(bytes: &[u8]) -> Result<InfoMessage, ClassFault>
    ensures { result ≡ in_class manufacturer_by bytes.now }
{
    match byte(bytes, 1)? {
        MANUFACTURER_GET => Ok(InfoMessage::ManufacturerSpecificGet),
        MANUFACTURER_REPORT => Ok(InfoMessage::ManufacturerSpecificReport {
            manufacturer: word(bytes, 2)?,
            kind: word(bytes, 4)?,
            product: word(bytes, 6)?,
        }),
        command => Err(ClassFault::UnknownCommand(MANUFACTURER_SPECIFIC, command)),
    }
}

/// The message of Battery that the bytes spell.
#[tactic(auto, unfolding(class_core::specs::Reading::in_class))]
pub(crate) fn read_battery(bytes: &[u8]) -> Result<InfoMessage, ClassFault>
    ensures { result ≡ in_class battery_by bytes.now }
{
    match byte(bytes, 1)? {
        BATTERY_GET => Ok(InfoMessage::BatteryGet),
        BATTERY_REPORT => Ok(InfoMessage::BatteryReport {
            level: battery_level(bytes, 2)?,
        }),
        command => Err(ClassFault::UnknownCommand(BATTERY, command)),
    }
}

/// The message of Wake Up that the bytes spell, where it asks or tells.
#[tactic(auto, unfolding(class_core::specs::Reading::in_class, crate::specs::InfoReading::interval_report_at))]
pub(crate) fn read_wake_up(bytes: &[u8]) -> Result<InfoMessage, ClassFault>
    ensures { result ≡ in_class wake_up_by bytes.now }
{
    match byte(bytes, 1)? {
        INTERVAL_GET => Ok(InfoMessage::WakeUpIntervalGet),
        INTERVAL_REPORT => Ok(InfoMessage::WakeUpIntervalReport {
            seconds: seconds(bytes, 2)?,
            target: node(bytes, 5)?,
        }),
        WAKE_UP_NOTIFICATION => Ok(InfoMessage::WakeUpNotification),
        NO_MORE_INFORMATION => Ok(InfoMessage::WakeUpNoMoreInformation),
        command => Err(ClassFault::UnknownCommand(WAKE_UP, command)),
    }
}

/// The message of Association that the bytes spell, where it asks or tells.
#[tactic(auto, unfolding(class_core::specs::Reading::in_class, crate::specs::InfoReading::association_report_at))]
pub(crate) fn read_association(alloc: Global, bytes: &[u8]) -> Result<InfoMessage, ClassFault>
    ensures { Gives result (in_class association_by bytes.now) }
{
    match byte(bytes, 1)? {
        ASSOCIATION_GET => Ok(InfoMessage::AssociationGet {
            group: byte(bytes, 2)?,
        }),
        ASSOCIATION_REPORT => Ok(InfoMessage::AssociationReport {
            group: byte(bytes, 2)?,
            most: byte(bytes, 3)?,
            following: byte(bytes, 4)?,
            members: nodes(alloc, bytes, 5)?,
        }),
        GROUPINGS_GET => Ok(InfoMessage::AssociationGroupingsGet),
        GROUPINGS_REPORT => Ok(InfoMessage::AssociationGroupingsReport {
            groups: byte(bytes, 2)?,
        }),
        command => Err(ClassFault::UnknownCommand(ASSOCIATION, command)),
    }
}

/// The message of Version that the bytes spell.
#[tactic(auto, unfolding(class_core::specs::Reading::in_class, crate::specs::InfoReading::version_report_at, crate::specs::InfoReading::version_class_at))]
pub(crate) fn read_version(bytes: &[u8]) -> Result<InfoMessage, ClassFault>
    ensures { result ≡ in_class version_by bytes.now }
{
    match byte(bytes, 1)? {
        VERSION_GET => Ok(InfoMessage::VersionGet),
        VERSION_REPORT => Ok(InfoMessage::VersionReport {
            library: byte(bytes, 2)?,
            protocol: byte(bytes, 3)?,
            protocol_sub: byte(bytes, 4)?,
            application: byte(bytes, 5)?,
            application_sub: byte(bytes, 6)?,
        }),
        VERSION_CLASS_GET => Ok(InfoMessage::VersionClassGet {
            class: byte(bytes, 2)?,
        }),
        VERSION_CLASS_REPORT => Ok(InfoMessage::VersionClassReport {
            class: byte(bytes, 2)?,
            version: byte(bytes, 3)?,
        }),
        command => Err(ClassFault::UnknownCommand(VERSION, command)),
    }
}
