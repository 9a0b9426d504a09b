//! How requests end.

use crate::Purpose;
use chip_functions::{Response, TransmitStatus, Update};

/// How a request ended.
#[derive(Drop)]
pub enum How {
    /// A SendData, at the callback with its id.
    AtCallback(TransmitStatus),
    /// At its response: a request that has no callback.
    AtResponse(Response),
    /// A RequestNodeInfo, at an ApplicationUpdate. `capability` is the byte that the response to the first request of
    /// the interview said, where that ended at its response.
    AtUpdate {
        update: Update,
        capability: Option<u8>,
    },
    /// A SendData or a RequestNodeInfo, at a response that says that it was not taken.
    Refused,
    /// No response came in 15 ticks, or nothing in the 65 ticks after it.
    Silent,
    /// Its frame was not acknowledged in any of its copies.
    LinkFailed,
    /// The frame of an abort was acknowledged.
    AbortSent,
}

impl How {
    ghost use Rattle.std.specs.Prelude.{◌≡◌};
    ghost use Rattle.host_requests.specs.Next.{capability_at};

    /// The capability byte of the response that it ended at, where that has one.
    pub(crate) fn capability(&self) -> Option<u8>
        ensures { result ≡ capability_at self.now }
    {
        match self {
            How::AtResponse(Response::GetNodeProtocolInfo { capability, .. }) => Some(*capability),
            _ => None,
        }
    }
}

/// A request that ended.
#[derive(Drop)]
pub struct End {
    pub purpose: Purpose,
    pub how: How,
}
