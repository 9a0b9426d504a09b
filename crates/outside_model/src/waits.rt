//! What the chip waits for.

use zw_base::NodeId;

/// What the chip asked for and is given at the next tick.
#[derive(Clone, Copy, Debug, PartialEq, Eq)]
pub enum Due {
    /// The information of a node.
    Info(NodeId),
    /// The result of a SendData without a route.
    NoRoute,
}

/// A result of a SendData that the chip waits for.
#[derive(Clone, Copy, Debug, PartialEq, Eq)]
pub enum Call {
    /// That of a frame on the air.
    OfFrame,
    /// That of a SendData without a route.
    NoRoute,
}
