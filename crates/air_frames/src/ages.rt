//! How old a frame may be that is repeated.

ghost use Rattle.std.specs.Prelude.{◌≡◌};
ghost use Rattle.std.specs.Result.{result_err};

use crate::{Frame, Peer};

/// A frame is forgotten once more than so many later ones were sent.
pub const MAX_LATER_FRAMES: u64 = 4096;

/// A frame is stale once so many later sessions of its node have begun.
pub const MAX_LATER_SESSIONS: u64 = 62;

/// The same for a frame of Transport Service, whose sessions have ids modulo 16.
pub const MAX_LATER_SESSIONS_OF_SEGMENTS: u64 = 14;

/// A frame of Security 0 is stale once so many new nonces were shown between its ends.
pub const MAX_NEW_NONCES: u64 = 120;

/// The command class Transport Service.
const TRANSPORT_SERVICE: u8 = 0x55;

/// The command class Security 0.
const SECURITY: u8 = 0x98;

/// Why a frame is not repeated.
#[derive(Clone, Copy, Debug, PartialEq, Eq)]
pub enum Refusal {
    /// No frame of that number was sent.
    NeverSent,
    /// More than 4,096 later frames were sent.
    Forgotten,
    /// That many later sessions of its node have begun, or new nonces were shown between its ends: too many.
    Stale(u64),
}

ghost use Rattle.air_frames.specs.Ages.{stale_of, is_class};

/// Whether a payload is of a command class.
fn is_of_class(payload: &[u8], class: u8) -> bool
    ensures { result ≡ is_class payload.now class }
{
    payload.first() == Some(&class)
}

/// Whether a frame is too old, by what was counted for its node since.
pub(crate) fn check_age(frame: &Frame, peer: &Peer) -> Result<(), Refusal>
    ensures { result_err result ≡ stale_of frame.now peer.now }
{
    let later = peer.begun().saturating_sub(frame.begun());
    let segment = is_of_class(frame.payload(), TRANSPORT_SERVICE);
    if later >= MAX_LATER_SESSIONS || (segment && later >= MAX_LATER_SESSIONS_OF_SEGMENTS) {
        return Err(Refusal::Stale(later));
    }
    let nonces = peer.shown().saturating_sub(frame.shown());
    if is_of_class(frame.payload(), SECURITY) && nonces >= MAX_NEW_NONCES {
        return Err(Refusal::Stale(nonces));
    }
    Ok(())
}
