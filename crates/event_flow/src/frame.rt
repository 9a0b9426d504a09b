//! Frames between devices and the host.

ghost use Rattle.std.specs.Prelude.{◌≡◌};
ghost use Rattle.event_flow.specs.State.{payload_of, receiver_of, sender_of};

use crate::EventEntry;
use supervision::{SUCCESS, session_id};
use zw_base::{NodeId, Payload, controller};

/// The classes and commands of a frame (Supervision Command Class; Notification Command Class).
const SUPERVISION: u8 = 0x6C;

const SUPERVISION_GET: u8 = 0x01;

const SUPERVISION_REPORT: u8 = 0x02;

const NOTIFICATION: u8 = 0x71;

const NOTIFICATION_REPORT: u8 = 0x05;

/// The bytes of a Notification Report.
const REPORT_LENGTH: u8 = 4;

/// The duration of a final report.
const NO_DURATION: u8 = 0;

/// What happened at a device: a type and a level, as in a Notification Report of version 1.
#[derive(Clone, Copy, Debug)]
pub struct Notice {
    pub kind: u8,
    pub level: u8,
}

/// What a frame has in it.
#[derive(Clone, Copy, Debug)]
pub enum Content {
    /// From the device: a Supervision Get round the Notification Report of this event.
    Event(Notice),
    /// From the host: the Supervision Report of the session.
    Receipt,
}

/// A frame that was sent, between this device and the host: its session, of which it carries six bits, how many sessions of
/// the device had begun when it was sent, and what is in it.
#[derive(Clone, Copy, Debug)]
pub struct Frame {
    pub node: NodeId,
    pub session: u64,
    pub begun: u64,
    pub content: Content,
}

/// What a line brings about: at most one entry, and then at most one frame.
#[derive(Drop)]
pub struct Effect {
    pub enters: Option<EventEntry>,
    pub sends: Option<Frame>,
}

/// Who sent the frame.
pub fn sender(frame: &Frame) -> NodeId
    ensures { result ≡ sender_of frame.now }
{
    match frame.content {
        Content::Event(_) => frame.node,
        Content::Receipt => controller(),
    }
}

/// Whom the frame is for.
pub fn receiver(frame: &Frame) -> NodeId
    ensures { result ≡ receiver_of frame.now }
{
    match frame.content {
        Content::Event(_) => controller(),
        Content::Receipt => frame.node,
    }
}

/// The payload of the frame.
pub fn payload(frame: &Frame) -> Payload
    ensures { result ≡ payload_of frame.now }
{
    let id = session_id(frame.session);
    match frame.content {
        Content::Event(notice) => Payload::of(&[
            SUPERVISION,
            SUPERVISION_GET,
            id,
            REPORT_LENGTH,
            NOTIFICATION,
            NOTIFICATION_REPORT,
            notice.kind,
            notice.level,
        ])
        .unwrap(),
        Content::Receipt => Payload::of(&[
            SUPERVISION,
            SUPERVISION_REPORT,
            id,
            SUCCESS,
            NO_DURATION,
        ]).unwrap(),
    }
}

/// The entry of a frame with this number.
pub fn entry_of(number: u64, frame: &Frame) -> EventEntry
    ensures { result ≡ EventEntry.Frame number (sender_of frame.now) (receiver_of frame.now) (payload_of frame.now) }
{
    EventEntry::Frame {
        frame: number,
        sender: sender(frame),
        receiver: receiver(frame),
        payload: payload(frame),
    }
}
