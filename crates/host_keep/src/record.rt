//! The records of a host.

use crate::final_status::FinalStatus;
use zw_base::{Bytes, NodeId, Order};

/// What a host keeps of one event. Commands are numbered from 1, and so are the sessions of each node.
#[derive(Drop)]
pub enum Record {
    /// The order was taken as the command of that number.
    Accepted {
        command: u32,
        order: Order,
    },
    /// The node joined.
    Joined {
        node: NodeId,
    },
    /// The node was interviewed: whether it hears at all times, and which classes it lists.
    Classes {
        node: NodeId,
        listens: bool,
        classes: Bytes,
    },
    /// That session of the node was begun, for that command.
    Begun {
        node: NodeId,
        session: u64,
        command: u32,
    },
    /// That session of the node ended so.
    Final {
        node: NodeId,
        session: u64,
        status: FinalStatus,
    },
    /// The command was cancelled while it waited.
    Cancelled {
        command: u32,
    },
    /// The node was given a nonce, the `given`-th, which is live.
    Given {
        node: NodeId,
        given: u64,
        nonce: [u8; 8],
    },
    /// The live nonce of the node was spent.
    Spent {
        node: NodeId,
    },
    /// So many nonces of the node were seen.
    Seen {
        node: NodeId,
        seen: u64,
    },
}
