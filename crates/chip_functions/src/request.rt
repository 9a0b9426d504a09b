//! What the host asks of the chip.

use crate::AddMode;
use zw_base::{Bytes, NodeId};

/// The options that the host sends every SendData with (this project's own choice): acknowledge, auto route, explore.
pub const TRANSMIT_OPTIONS: u8 = 0x25;

/// A request of the host, by its function.
#[derive(Drop)]
pub enum Request {
    GetInitData,
    GetCapabilities,
    /// Puts a payload of at least one byte on the air. The callback id is 1 to 255.
    SendData {
        node: NodeId,
        payload: Bytes,
        options: u8,
        callback_id: u8,
    },
    GetVersion,
    SendDataAbort,
    MemoryGetId,
    GetNodeProtocolInfo {
        node: NodeId,
    },
    /// Begins or ends the adding of nodes. The callback id is 1 to 255.
    AddNode {
        mode: AddMode,
        callback_id: u8,
    },
    RequestNodeInfo {
        node: NodeId,
    },
    IsFailedNode {
        node: NodeId,
    },
    /// The neighbours of a node. The three bytes after it are any bytes, and are written 0 by the host.
    GetRoutingInfo {
        node: NodeId,
        remove_bad: u8,
        remove_non_repeaters: u8,
        function_id: u8,
    },
}
