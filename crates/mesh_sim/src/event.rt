//! What the air tells of a delivery, and why it does not repeat a frame.

ghost use Rattle.std.specs.Prelude.{◌≡◌};

use air_frames::Refusal;
use route_table::Route;
use zw_base::{NoMemory, NodeId, Payload};

/// The transmit status of a frame that was acknowledged (Serial API, SendData callback: TRANSMIT_COMPLETE_OK).
pub const TRANSMIT_OK: u8 = 0;

/// The transmit status of a frame that was not (Serial API, SendData callback: TRANSMIT_COMPLETE_NO_ACK).
pub const TRANSMIT_NO_ACK: u8 = 1;

/// What happened on the air. Frames are named by their numbers, from 1.
#[derive(Drop)]
pub enum AirEvent {
    /// The frame was heard, by a device or by node 1.
    Heard(u64),
    /// The frame arrived nowhere.
    Lost(u64),
    /// Nobody heard the frame.
    Unheard(u64),
    /// A device put a frame on the air. The repeater next to its sender is first on the route.
    Sent {
        frame: u64,
        from: NodeId,
        to: NodeId,
        route: Route,
        payload: Payload,
    },
    /// The device of that node made a change: the one at that place of its journal, counted from 0.
    Changed {
        node: NodeId,
        at: u64,
    },
    /// The frame came to node 1, with that payload of that node.
    ToChip {
        frame: u64,
        from: NodeId,
        payload: Payload,
    },
    /// What node 1 learns of its frame: the transmit status, and the first hop of its route that is no link.
    Done {
        frame: u64,
        status: u8,
        dead: Option<(NodeId, NodeId)>,
    },
}

/// Why a frame is not repeated.
#[derive(Clone, Copy, Debug, PartialEq, Eq)]
pub enum RepeatFault {
    /// No frame of that number was sent.
    NeverSent,
    /// More than 4,096 later frames were sent.
    Forgotten,
    /// So many later sessions of its node have begun, or new nonces were shown between its ends: too many.
    Stale(u64),
    NoMemory,
}

impl From<NoMemory> for RepeatFault {
    ghost use Rattle.mesh_sim.specs.Faults.{no_memory};

    ghost from_gives = { λ _ fault. fault ≡ no_memory };

    fn from(_error: NoMemory) -> RepeatFault {
        RepeatFault::NoMemory
    }
}

impl From<Refusal> for RepeatFault {
    ghost use Rattle.mesh_sim.specs.Faults.{fault_of};

    ghost from_gives = { λ refusal fault. fault ≡ fault_of refusal };

    fn from(refusal: Refusal) -> RepeatFault {
        match refusal {
            Refusal::NeverSent => RepeatFault::NeverSent,
            Refusal::Forgotten => RepeatFault::Forgotten,
            Refusal::Stale(count) => RepeatFault::Stale(count),
        }
    }
}
