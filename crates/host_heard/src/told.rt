//! What one message of a node tells the host.

ghost use Rattle.std.specs.Prelude.{◌≡◌, IfOk};
ghost use Rattle.host_heard.specs.Telling.{told_by};

use crate::values;
use class_info::{InfoMessage, ReportStatus};
use std::alloc::Global;
use zw_base::{EndPoint, NoMemory, Sequence, Setting};

/// What one message tells.
#[derive(Drop)]
pub enum Told {
    /// A Supervision Report: the session's id (0 to 63), its status, and whether the node asks to be kept awake.
    Report {
        id: u8,
        status: ReportStatus,
        wake_request: bool,
    },
    /// The node asks for a nonce (Security 0).
    NonceGet,
    /// The node gives a nonce (Security 0).
    NonceReport([u8; 8]),
    /// The node is awake (Wake Up).
    Notification,
    /// The segment at that offset is wanted again; the id is that of the datagram, 0 to 15 (Transport Service).
    SegmentRequest {
        id: u8,
        offset: u16,
    },
    /// The values of properties that it reports, in their order; none where it tells the host nothing.
    Values(Sequence<Setting>),
}

/// What a message from that end point tells.
pub fn told_of(alloc: Global, end: EndPoint, message: &InfoMessage) -> Result<Told, NoMemory>
    ensures { IfOk result (λ told. told ≡ told_by end message.now) }
{
    match message {
        InfoMessage::SupervisionReport {
            session,
            status,
            wake_request,
            ..
        } => Ok(Told::Report {
            id: session.number(),
            status: *status,
            wake_request: *wake_request,
        }),
        InfoMessage::NonceGet => Ok(Told::NonceGet),
        InfoMessage::NonceReport { nonce } => Ok(Told::NonceReport(*nonce)),
        InfoMessage::WakeUpNotification => Ok(Told::Notification),
        InfoMessage::TransportRequest { session, offset } => Ok(Told::SegmentRequest {
            id: session.number(),
            offset: offset.number(),
        }),
        _ => Ok(Told::Values(values::reported(alloc, end, message)?)),
    }
}
