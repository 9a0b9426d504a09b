//! What the chip answers to a request at once.

use crate::NodeMask;
use zw_base::NodeId;

/// The answer to a SendData or a RequestNodeInfo that is refused. Every other one says that it was taken.
pub const REFUSED: u8 = 0x00;

/// A response of the chip, by its function.
#[derive(Drop)]
pub enum Response {
    GetInitData {
        version: u8,
        capabilities: u8,
        nodes: NodeMask,
        chip_type: u8,
        chip_version: u8,
    },
    /// Function f is there where bit (f - 1) modulo 8 of byte (f - 1) / 8 of `functions` is set.
    GetCapabilities {
        version: u8,
        revision: u8,
        manufacturer: u16,
        product_type: u16,
        product: u16,
        functions: [u8; 32],
    },
    /// `REFUSED`, or any other byte where the request was taken.
    SendData {
        answer: u8,
    },
    GetVersion {
        text: [u8; 12],
        library_type: u8,
    },
    MemoryGetId {
        home_id: u32,
        node: NodeId,
    },
    /// Bit 7 of `capability` says that the node listens.
    GetNodeProtocolInfo {
        capability: u8,
        security: u8,
        reserved: u8,
        basic: u8,
        generic: u8,
        specific: u8,
    },
    /// `REFUSED`, or any other byte where the request was taken.
    RequestNodeInfo {
        answer: u8,
    },
    IsFailedNode {
        failed: bool,
    },
    GetRoutingInfo {
        nodes: NodeMask,
    },
}
