//! What the chip tells the host unasked, or after a request has ended.

use crate::{AddStatus, AddedNode};
use zw_base::{Bytes, NodeId};

/// The status of an ApplicationUpdate with the node's information.
pub const UPDATE_RECEIVED: u8 = 0x84;
/// The status of an ApplicationUpdate that says that no information came.
pub const UPDATE_FAILED: u8 = 0x81;

/// The bytes of a node's three device classes.
pub(crate) const DEVICE_CLASSES: u8 = 3;

/// What became of a SendData (Serial API: transmit status).
#[derive(Clone, Copy, PartialEq, Eq)]
pub enum TransmitStatus {
    /// 0x00: the frame was acknowledged.
    CompleteOk,
    /// 0x01
    NoAck,
    /// 0x02
    Fail,
    /// 0x03
    NotIdle,
    /// 0x04
    NoRoute,
}

impl TransmitStatus {
    ghost use Rattle.std.specs.Prelude.{◌≡◌};
    ghost use Rattle.chip_functions.specs.Notice.{status_code, status_of};

    /// The transmit status of a byte, where there is one.
    pub fn of(byte: u8) -> Option<TransmitStatus>
        ensures { result ≡ status_of byte }
    {
        match byte {
            0 => Some(TransmitStatus::CompleteOk),
            1 => Some(TransmitStatus::NoAck),
            2 => Some(TransmitStatus::Fail),
            3 => Some(TransmitStatus::NotIdle),
            4 => Some(TransmitStatus::NoRoute),
            _ => None,
        }
    }

    /// The byte of the transmit status, 0 to 4.
    pub fn code(self) -> u8
        ensures { result ≡ status_code self }
    {
        match self {
            TransmitStatus::CompleteOk => 0,
            TransmitStatus::NoAck => 1,
            TransmitStatus::Fail => 2,
            TransmitStatus::NotIdle => 3,
            TransmitStatus::NoRoute => 4,
        }
    }
}

/// What an ApplicationUpdate says of the node that was asked for its information.
#[derive(Drop)]
pub enum Update {
    /// Status 0x84: the node's device classes and the list of its command classes, at most 252 of them.
    Received {
        node: NodeId,
        basic: u8,
        generic: u8,
        specific: u8,
        classes: Bytes,
    },
    /// Status 0x81: no information came.
    RequestFailed,
}

/// A notice of the chip, by its function: a request frame from the chip.
#[derive(Drop)]
pub enum Notice {
    /// A frame of a node, with a payload of at least one byte.
    ApplicationCommandHandler {
        rx_status: u8,
        source: NodeId,
        payload: Bytes,
    },
    /// The callback of the SendData with that id.
    SendData {
        callback_id: u8,
        status: TransmitStatus,
    },
    /// How far the adding has come that the request with that id began.
    AddNode {
        callback_id: u8,
        status: AddStatus,
        added: AddedNode,
    },
    ApplicationUpdate {
        update: Update,
    },
}
