//! The classes that carry others: Supervision, Security 0 and Transport Service, each in the command class of that
//! name. Their wraps and segments are no messages of this crate.

ghost use Rattle.std.specs.Prelude.{◌≡◌};
ghost use Rattle.class_core.specs.Reading.{in_class};
ghost use Rattle.class_info.specs.InfoReading.{supervision_by, security_by, transport_by, transport_request_at};

use crate::message::InfoMessage;
use crate::own_fields::{bit_six, nonce, report_status, session_id, transport_id};
use crate::session::SegmentOffset;
use class_core::ClassFault;
use class_core::fields::{byte, high_bit};

pub(crate) const SUPERVISION: u8 = 0x6C;

pub(crate) const SUPERVISION_REPORT: u8 = 2;

pub(crate) const SECURITY: u8 = 0x98;

pub(crate) const NONCE_GET: u8 = 0x40;

pub(crate) const NONCE_REPORT: u8 = 0x80;

pub(crate) const TRANSPORT: u8 = 0x55;

pub(crate) const SEGMENT_REQUEST: u8 = 0xC8;

pub(crate) const SEGMENT_COMPLETE: u8 = 0xE8;

pub(crate) const SEGMENT_WAIT: u8 = 0xF0;

/// The message of Supervision that the bytes spell.
#[tactic(auto, unfolding(class_core::specs::Reading::in_class, crate::specs::InfoReading::supervision_report_at))]
pub(crate) fn read_supervision(bytes: &[u8]) -> Result<InfoMessage, ClassFault>
    ensures { result ≡ in_class supervision_by bytes.now }
{
    match byte(bytes, 1)? {
        SUPERVISION_REPORT => Ok(InfoMessage::SupervisionReport {
            more: high_bit(bytes, 2)?,
            wake_request: bit_six(bytes, 2)?,
            session: session_id(bytes, 2)?,
            status: report_status(bytes, 3)?,
            duration: byte(bytes, 4)?,
        }),
        command => Err(ClassFault::UnknownCommand(SUPERVISION, command)),
    }
}

/// The message of Security 0 that the bytes spell.
#[tactic(auto, unfolding(class_core::specs::Reading::in_class))]
pub(crate) fn read_security(bytes: &[u8]) -> Result<InfoMessage, ClassFault>
    ensures { result ≡ in_class security_by bytes.now }
{
    match byte(bytes, 1)? {
        NONCE_GET => Ok(InfoMessage::NonceGet),
        NONCE_REPORT => Ok(InfoMessage::NonceReport {
            nonce: nonce(bytes, 2)?,
        }),
        command => Err(ClassFault::UnknownCommand(SECURITY, command)),
    }
}

/// The request of a segment.
#[tactic(auto, unfolding(class_core::specs::Reading::bits_at, crate::specs::InfoReading::transport_request_at))]
fn read_request(bytes: &[u8]) -> Result<InfoMessage, ClassFault>
    ensures { result ≡ transport_request_at bytes.now }
{
    let session = transport_id(bytes, 2)?;
    let high = byte(bytes, 2)?;
    let low = byte(bytes, 3)?;
    Ok(InfoMessage::TransportRequest {
        session,
        offset: SegmentOffset::from_bytes(high, low),
    })
}

/// The message of Transport Service that the bytes spell.
#[tactic(auto, unfolding(class_core::specs::Reading::in_class))]
pub(crate) fn read_transport(bytes: &[u8]) -> Result<InfoMessage, ClassFault>
    ensures { result ≡ in_class transport_by bytes.now }
{
    match byte(bytes, 1)? {
        SEGMENT_REQUEST => read_request(bytes),
        SEGMENT_COMPLETE => Ok(InfoMessage::TransportComplete {
            session: transport_id(bytes, 2)?,
        }),
        SEGMENT_WAIT => Ok(InfoMessage::TransportWait {
            pending: byte(bytes, 2)?,
        }),
        command => Err(ClassFault::UnknownCommand(TRANSPORT, command)),
    }
}
