//! The exchange under way.

use s0_session::Sender;
use zw_base::NodeId;

/// The ticks of 100 ms in which an exchange has to end.
pub const EXCHANGE_TICKS: u8 = 100;

/// An exchange with a node.
#[derive(Drop)]
pub struct Exchange {
    pub node: NodeId,
    /// The ticks that are left to it, from 1 to 100.
    pub left: u8,
    /// Whether a nonce was asked for the key.
    pub asked: bool,
    /// What seals the key.
    pub sender: Sender,
}
