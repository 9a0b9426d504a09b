//! From messages to bytes.

ghost use Rattle.std.specs.Prelude.{◌≡◌, ◌<◌, [], ◌∷◌, ◌++◌, take, drop, length, OnOk, IfOk};
ghost use Rattle.class_core.specs.Cell.{byte_of, written};
ghost use Rattle.class_core.specs.Fields.{flag, part};
ghost use Rattle.class_info.specs.Values.{wholes};
ghost use Rattle.class_info.specs.InfoSpelling.{form, IsInRange, Spells};

use crate::management::{
    ASSOCIATION, ASSOCIATION_GET, ASSOCIATION_REPORT, BATTERY, BATTERY_GET, BATTERY_REPORT,
    GROUPINGS_GET, GROUPINGS_REPORT, INTERVAL_GET, INTERVAL_REPORT, MANUFACTURER_GET,
    MANUFACTURER_REPORT, MANUFACTURER_SPECIFIC, NO_MORE_INFORMATION, NOTIFICATION,
    NOTIFICATION_REPORT, VERSION, VERSION_CLASS_GET, VERSION_CLASS_REPORT, VERSION_GET,
    VERSION_REPORT, WAKE_UP, WAKE_UP_NOTIFICATION,
};
use crate::message::InfoMessage;
use crate::sensor::{
    BINARY_GET, BINARY_REPORT, MULTILEVEL_GET, MULTILEVEL_REPORT, SENSOR_BINARY, SENSOR_MULTILEVEL,
};
use crate::session::SessionId;
use crate::transport::{
    NONCE_GET, NONCE_REPORT, SECURITY, SEGMENT_COMPLETE, SEGMENT_REQUEST, SEGMENT_WAIT,
    SUPERVISION, SUPERVISION_REPORT, TRANSPORT,
};
use class_core::forms::{node_number, put_decimal, put_nodes, put_seconds, put_word};
use class_core::{Bytes, NoMemory};
use std::alloc::Global;

/// The class and the command of a message.
fn head(message: &InfoMessage) -> [u8; 2]
    ensures { result ≡ take 2 (form message.now) }
{
    match message {
        InfoMessage::Core(message) => class_core::head(message),
        InfoMessage::SensorBinaryGet => [SENSOR_BINARY, BINARY_GET],
        InfoMessage::SensorBinaryReport { .. } => [SENSOR_BINARY, BINARY_REPORT],
        InfoMessage::SensorMultilevelGet => [SENSOR_MULTILEVEL, MULTILEVEL_GET],
        InfoMessage::SensorMultilevelReport { .. } => [SENSOR_MULTILEVEL, MULTILEVEL_REPORT],
        InfoMessage::NotificationReport { .. } => [NOTIFICATION, NOTIFICATION_REPORT],
        InfoMessage::ManufacturerSpecificGet => [MANUFACTURER_SPECIFIC, MANUFACTURER_GET],
        InfoMessage::ManufacturerSpecificReport { .. } => [
            MANUFACTURER_SPECIFIC,
            MANUFACTURER_REPORT,
        ],
        InfoMessage::BatteryGet => [BATTERY, BATTERY_GET],
        InfoMessage::BatteryReport { .. } => [BATTERY, BATTERY_REPORT],
        InfoMessage::WakeUpIntervalGet => [WAKE_UP, INTERVAL_GET],
        InfoMessage::WakeUpIntervalReport { .. } => [WAKE_UP, INTERVAL_REPORT],
        InfoMessage::WakeUpNotification => [WAKE_UP, WAKE_UP_NOTIFICATION],
        InfoMessage::WakeUpNoMoreInformation => [WAKE_UP, NO_MORE_INFORMATION],
        InfoMessage::AssociationGet { .. } => [ASSOCIATION, ASSOCIATION_GET],
        InfoMessage::AssociationReport { .. } => [ASSOCIATION, ASSOCIATION_REPORT],
        InfoMessage::AssociationGroupingsGet => [ASSOCIATION, GROUPINGS_GET],
        InfoMessage::AssociationGroupingsReport { .. } => [ASSOCIATION, GROUPINGS_REPORT],
        InfoMessage::VersionGet => [VERSION, VERSION_GET],
        InfoMessage::VersionReport { .. } => [VERSION, VERSION_REPORT],
        InfoMessage::VersionClassGet { .. } => [VERSION, VERSION_CLASS_GET],
        InfoMessage::VersionClassReport { .. } => [VERSION, VERSION_CLASS_REPORT],
        InfoMessage::SupervisionReport { .. } => [SUPERVISION, SUPERVISION_REPORT],
        InfoMessage::NonceGet => [SECURITY, NONCE_GET],
        InfoMessage::NonceReport { .. } => [SECURITY, NONCE_REPORT],
        InfoMessage::TransportRequest { .. } => [TRANSPORT, SEGMENT_REQUEST],
        InfoMessage::TransportComplete { .. } => [TRANSPORT, SEGMENT_COMPLETE],
        InfoMessage::TransportWait { .. } => [TRANSPORT, SEGMENT_WAIT],
    }
}

/// A byte with flags in bits 7 and 6 and a session in bits 5 to 0.
fn flags_and_session(more: bool, wake_request: bool, session: SessionId) -> u8
    ensures value { result ≡ byte_of (part 7 1 (flag more) ∷ part 6 1 (flag wake_request) ∷ part 0 6 session ∷ []) }
    ensures range { session < 64 }
{
    let number = session.number();
    let more = if more { 128 } else { 0 };
    let wake_request = if wake_request { 64 } else { 0 };
    more + wake_request + number
}

/// Adds the bytes of a nonce.
fn put_nonce(out: &mut Bytes, nonce: &[u8; 8]) -> Result<(), NoMemory>
    ensures ok { OnOk result (out.new ≡ out.old ++ written (wholes nonce.now)) }
    ensures range { length nonce.now ≡ 8 }
{
    out.extend(nonce)
}

/// Adds the fields after the command.
fn put_fields(out: &mut Bytes, message: &InfoMessage) -> Result<(), NoMemory>
    ensures ok { OnOk result (out.new ≡ out.old ++ drop 2 (form message.now)) }
    ensures range { OnOk result (IsInRange message.now) }
{
    match message {
        InfoMessage::Core(message) => class_core::put_fields(out, message),
        InfoMessage::SensorBinaryReport { value } => out.push(value.byte()),
        InfoMessage::SensorMultilevelReport { kind, value } => {
            out.push(*kind)?;
            put_decimal(out, *value)
        }
        InfoMessage::NotificationReport { kind, level } => out.extend(&[*kind, *level]),
        InfoMessage::ManufacturerSpecificReport {
            manufacturer,
            kind,
            product,
        } => {
            put_word(out, *manufacturer)?;
            put_word(out, *kind)?;
            put_word(out, *product)
        }
        InfoMessage::BatteryReport { level } => out.push(level.byte()),
        InfoMessage::WakeUpIntervalReport { seconds, target } => {
            put_seconds(out, *seconds)?;
            out.push(node_number(*target))
        }
        InfoMessage::AssociationGet { group } => out.push(*group),
        InfoMessage::AssociationReport {
            group,
            most,
            following,
            members,
        } => {
            out.extend(&[*group, *most, *following])?;
            put_nodes(out, members)
        }
        InfoMessage::AssociationGroupingsReport { groups } => out.push(*groups),
        InfoMessage::VersionReport {
            library,
            protocol,
            protocol_sub,
            application,
            application_sub,
        } => {
            out.extend(&[
                *library,
                *protocol,
                *protocol_sub,
                *application,
                *application_sub,
            ])
        }
        InfoMessage::VersionClassGet { class } => out.push(*class),
        InfoMessage::VersionClassReport { class, version } => out.extend(&[*class, *version]),
        InfoMessage::SupervisionReport {
            more,
            wake_request,
            session,
            status,
            duration,
        } => {
            out.extend(&[
                flags_and_session(*more, *wake_request, *session),
                status.byte(),
                *duration,
            ])
        }
        InfoMessage::NonceReport { nonce } => put_nonce(out, nonce),
        InfoMessage::TransportRequest { session, offset } => {
            let offset = offset.number();
            out.extend(&[
                session.number() * 16 + (offset / 256) as u8,
                (offset % 256) as u8,
            ])
        }
        InfoMessage::TransportComplete { session } => out.push(session.number() * 16),
        InfoMessage::TransportWait { pending } => out.push(*pending),
        _ => Ok(()),
    }
}

/// The written form of a message.
pub fn write(alloc: Global, message: &InfoMessage) -> Result<Bytes, NoMemory>
    ensures form { IfOk result (λ bytes. bytes ≡ form message.now) }
    // The written form is read as the message.
    ensures spelled { IfOk result (λ bytes. Spells message.now bytes) }
{
    let mut out = Bytes::from_slice(alloc, &head(message))?;
    put_fields(&mut out, message)?;
    Ok(out)
}
