//! What the chip puts out, and what it keeps of a SendData.

use route_table::Route;
use serial_frame::Unit;
use zw_base::{Bytes, NodeId};

/// What the chip puts out at an event.
#[derive(Debug, Drop)]
pub enum ChipOut {
    /// A unit to write to the host.
    Write(Unit),
    /// A payload of 1 to 46 bytes for the air, over the route of the table. Its call of `done` is to come.
    OnAir {
        to: NodeId,
        route: Route,
        payload: Bytes,
    },
    /// The table has no route for a SendData that was taken. Its call of `done` is to come.
    NoRoute,
    /// The information of that node is asked for. The call of `info` is to come.
    AskInfo(NodeId),
    /// A frame for the host was dropped, since as many wait as may.
    Full,
}

/// A SendData that was taken and has no callback yet.
#[derive(Clone, Copy, Debug, PartialEq, Eq)]
pub struct Sending {
    pub node: NodeId,
    /// The number by which the host knows the callback, 1 to 255.
    pub callback_id: u8,
}
