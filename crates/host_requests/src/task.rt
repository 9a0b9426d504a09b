//! What requests are for.

ghost use Rattle.std.specs.Prelude.{◌≡◌};

use chip_functions::{
    GET_CAPABILITIES, GET_INIT_DATA, GET_NODE_PROTOCOL_INFO, GET_ROUTING_INFO, GET_VERSION,
    IS_FAILED_NODE, MEMORY_GET_ID, REQUEST_NODE_INFO, SEND_DATA, SEND_DATA_ABORT,
};
use zw_base::{NodeId, Payload};

/// A request that waits its turn, beside the messages of sessions.
#[derive(Drop)]
pub enum Task {
    /// A message without Supervision, of at least one byte.
    Plain { node: NodeId, payload: Payload },
    /// A nonce that a node asked for (Security 0: Nonce Report).
    Offer { node: NodeId, nonce: [u8; 8] },
    /// A segment that a node asked for again, of at least one byte.
    Segment { node: NodeId, payload: Payload },
    /// A node may sleep again (Wake Up: No More Information).
    NoMore { node: NodeId },
    /// The first request of an interview: whether a node listens.
    First { node: NodeId },
    /// The second request of an interview: the command classes of a node.
    Second { node: NodeId },
    /// Which nodes are joined.
    Members,
    /// Which nodes a node can reach by itself.
    Neighbours { node: NodeId },
    /// Whether the chip takes a node for failed.
    IsFailed { node: NodeId },
    /// The text of the chip's version.
    Version,
    /// The home id, and the chip's own node.
    MemoryId,
    /// The chip's maker, and the functions that it has.
    Capabilities,
}

/// What a request is for.
#[derive(Drop)]
pub enum Purpose {
    /// A task that waited its turn.
    Housekeeping(Task),
    /// A part of an attempt of a session's message: the message, a segment, a sealed text or a Nonce Get, of at least
    /// one byte. `more` says that it is a segment and not the last one.
    Attempt {
        node: NodeId,
        more: bool,
        payload: Payload,
    },
    /// The chip is to give up a SendData that did not come to its end.
    Abort,
}

impl Task {
    ghost use Rattle.chip_functions.specs.Request.{request_function};
    ghost use Rattle.host_requests.specs.Frames.{task_request};

    /// The function of its request.
    pub fn function(&self) -> u8
        ensures { result ≡ request_function (task_request self.now 0) }
    {
        match self {
            Task::Plain { .. } | Task::Offer { .. } | Task::Segment { .. } | Task::NoMore { .. } =>
                SEND_DATA,
            Task::First { .. } => GET_NODE_PROTOCOL_INFO,
            Task::Second { .. } => REQUEST_NODE_INFO,
            Task::Members => GET_INIT_DATA,
            Task::Neighbours { .. } => GET_ROUTING_INFO,
            Task::IsFailed { .. } => IS_FAILED_NODE,
            Task::Version => GET_VERSION,
            Task::MemoryId => MEMORY_GET_ID,
            Task::Capabilities => GET_CAPABILITIES,
        }
    }
}

impl Purpose {
    ghost use Rattle.host_requests.specs.Frames.{function_of};

    /// The function of its request.
    pub fn function(&self) -> u8
        ensures { result ≡ function_of self.now }
    {
        match self {
            Purpose::Housekeeping(task) => task.function(),
            Purpose::Attempt { .. } => SEND_DATA,
            Purpose::Abort => SEND_DATA_ABORT,
        }
    }
}
