//! The entries of a transcript of events.

use zw_base::{NodeId, Payload};

/// Why a line is refused, with the number that is printed after the name.
#[derive(Clone, Copy, Debug)]
pub enum EventRefusal {
    /// So many events of the node are not known to be taken.
    Full { unknown: u64 },
    /// No session of the node is open.
    Idle,
    /// No such frame was sent.
    NeverSent,
    /// So many sessions of the node have begun since the frame was sent.
    Stale { later: u64 },
}

/// What is entered into the transcript.
#[derive(Drop)]
pub enum EventEntry {
    /// The line had no effect.
    Refused {
        refusal: EventRefusal,
    },
    /// The event waits at its device, and has this number there, from 1 on.
    Queued {
        node: NodeId,
        number: u64,
    },
    /// A frame was sent; frames are numbered from 1 on.
    Frame {
        frame: u64,
        sender: NodeId,
        receiver: NodeId,
        payload: Payload,
    },
    /// The host took an event of the node.
    Taken {
        node: NodeId,
        kind: u8,
        level: u8,
    },
    /// The device knows that its event of this number was taken.
    Known {
        node: NodeId,
        number: u64,
    },
    /// A frame with this session id was ignored by whom it was for.
    Old {
        node: NodeId,
        id: u8,
    },
    /// The line of a node in the table: how many events were queued, taken and known.
    TableNode {
        node: NodeId,
        queued: u64,
        taken: u64,
        known: u64,
    },
}
