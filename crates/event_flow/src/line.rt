//! The lines of `events`.

use zw_base::NodeId;

/// A line of `events` (this project's own).
#[derive(Clone, Copy, Debug)]
pub enum EventLine {
    /// `event N T L`: an event of this type and level, each 0 to 255, at a device, which is 2 to 232.
    Event { node: NodeId, kind: u8, level: u8 },
    /// `again N`: the device, 2 to 232, sends the frame of its open session once more.
    Again(NodeId),
    /// `deliver I`: that frame arrives; I is 1 to 999,999,999.
    Deliver(u64),
}
