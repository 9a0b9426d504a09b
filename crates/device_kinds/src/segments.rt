//! Which session a segment is of, and what answers segments (Z-Wave Transport Service).

ghost use Rattle.std.specs.Prelude.{◌≡◌, ◌<◌, nat_lt, ◌&&◌, ◌==◌};
ghost use Rattle.class_info.specs.InfoSpelling.{form};
ghost use Rattle.transport_segments.specs.Segment.{IsSegment};
ghost use Rattle.transport_segments.specs.Taking.{ends_its_datagram};
ghost use Rattle.device_kinds.specs.Segments.{segment_session as session_of_segments};
ghost use Rattle.device_kinds.specs.Worded.{IsPayload};

use crate::TRANSPORT_SERVICE;
use class_info::InfoMessage;
use transport_segments::ends_datagram;
use zw_base::Payload;

/// Segment Request.
const REQUEST: u8 = 0xC8;

/// Segment Complete.
const COMPLETE: u8 = 0xE8;

/// How many sessions of segments the wire tells apart.
const TRANSPORT_IDS: u64 = 16;

/// The session of segments on the wire.
pub fn segment_session(session: u64) -> u8
    ensures value { result ≡ session_of_segments session }
    ensures range { result < 16 }
{
    (session % TRANSPORT_IDS) as u8
}

/// Whether a segment of that id ends the datagram of a session.
pub fn is_last_of(session: u64, id: u8, segment: &[u8]) -> bool
    requires { IsSegment segment.now }
    ensures { result ≡ (nat_lt 0 session && (id == session_of_segments session) && ends_its_datagram segment.now) }
{
    session > 0 && id == segment_session(session) && ends_datagram(segment) == Some(true)
}

/// That a datagram is whole.
pub fn complete(id: u8) -> Payload
    requires { id < 16 }
    ensures value { result ≡ form (InfoMessage.TransportComplete id) }
    ensures size { IsPayload result }
{
    Payload::fitting(&[TRANSPORT_SERVICE, COMPLETE, id * 16])
}

/// That a segment is missing.
pub fn request(id: u8, offset: u16) -> Payload
    requires id { id < 16 }
    requires offset { offset < 2048 }
    ensures value { result ≡ form (InfoMessage.TransportRequest id offset) }
    ensures size { IsPayload result }
{
    Payload::fitting(&[
        TRANSPORT_SERVICE,
        REQUEST,
        id * 16 + (offset / 256) as u8,
        (offset % 256) as u8,
    ])
}
