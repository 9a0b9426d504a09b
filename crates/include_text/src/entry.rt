//! The entries of a transcript of `include`.

use crate::IncludeLine;
use zw_base::{Bytes, NodeId, Payload};
use zw_words::Side;

/// Why a line is refused.
#[derive(Clone, Copy, Debug, PartialEq, Eq)]
pub enum IncludeRefusal {
    /// An exchange is under way.
    Busy,
    /// The node counts as secure.
    Secure,
    /// No frame of that number was sent.
    NeverSent,
    /// The frame's node was reset after the frame was sent.
    Forgotten,
    /// So many new nonces were shown between the frame's ends: too many.
    Stale(u64),
}

/// An entry of a transcript of `include`. Ticks are of 100 ms, and frames are numbered from 1.
#[derive(Drop)]
pub enum IncludeEntry {
    /// The line that is done.
    Said {
        line: IncludeLine,
    },
    /// The time, before the first entry of a tick that has one.
    Time {
        tick: u64,
    },
    /// A unit that host or chip writes.
    Written {
        side: Side,
        unit: Bytes,
    },
    /// A frame goes on the air.
    Air {
        frame: u64,
        from: NodeId,
        to: NodeId,
        payload: Payload,
    },
    Heard {
        frame: u64,
    },
    Lost {
        frame: u64,
    },
    /// The lock of a node takes a key.
    Key {
        node: NodeId,
    },
    /// The host counts the node as secure.
    Secure {
        node: NodeId,
    },
    /// The exchange with the node failed.
    Failed {
        node: NodeId,
    },
    Refused {
        refusal: IncludeRefusal,
    },
    /// What both ends hold of a node that was added.
    Node {
        node: NodeId,
        secure: bool,
        key: bool,
    },
}
