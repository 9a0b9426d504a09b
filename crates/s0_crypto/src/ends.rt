//! The two ends of a sealed message.

use zw_base::NodeId;

/// Who sends a sealed message, and who receives it.
#[derive(Clone, Copy, Debug, PartialEq, Eq)]
pub struct SealEnds {
    pub sender: NodeId,
    pub receiver: NodeId,
}
