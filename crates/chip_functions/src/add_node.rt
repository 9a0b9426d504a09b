//! How a node is added to the network (Serial API: Add Node To Network).

use zw_base::{Bytes, NodeId};

/// What the host asks for.
#[derive(Clone, Copy, PartialEq, Eq)]
pub enum AddMode {
    /// 0x01: add any node.
    Any,
    /// 0x05: add no more.
    Stop,
}

impl AddMode {
    ghost use Rattle.std.specs.Prelude.{◌≡◌};
    ghost use Rattle.chip_functions.specs.AddNode.{mode_code, mode_of};

    /// The mode of a byte, where there is one.
    pub fn of(byte: u8) -> Option<AddMode>
        ensures { result ≡ mode_of byte }
    {
        match byte {
            1 => Some(AddMode::Any),
            5 => Some(AddMode::Stop),
            _ => None,
        }
    }

    /// The byte of the mode.
    pub fn code(self) -> u8
        ensures { result ≡ mode_code self }
    {
        match self {
            AddMode::Any => 1,
            AddMode::Stop => 5,
        }
    }
}

/// How far the adding has come.
#[derive(Clone, Copy, PartialEq, Eq)]
pub enum AddStatus {
    /// 0x01: the chip is ready to add.
    LearnReady,
    /// 0x02: a node asks to be added.
    NodeFound,
    /// 0x03: a device was added.
    AddingSlave,
    /// 0x04: a controller was added.
    AddingController,
    /// 0x05: the radio's part is done.
    ProtocolDone,
    /// 0x06: all is done.
    Done,
    /// 0x07: it failed.
    Failed,
}

impl AddStatus {
    ghost use Rattle.std.specs.Prelude.{◌≡◌};
    ghost use Rattle.chip_functions.specs.AddNode.{status_code, status_of};

    /// The status of a byte, where there is one.
    pub fn of(byte: u8) -> Option<AddStatus>
        ensures { result ≡ status_of byte }
    {
        match byte {
            1 => Some(AddStatus::LearnReady),
            2 => Some(AddStatus::NodeFound),
            3 => Some(AddStatus::AddingSlave),
            4 => Some(AddStatus::AddingController),
            5 => Some(AddStatus::ProtocolDone),
            6 => Some(AddStatus::Done),
            7 => Some(AddStatus::Failed),
            _ => None,
        }
    }

    /// The byte of the status, 1 to 7.
    pub fn code(self) -> u8
        ensures { result ≡ status_code self }
    {
        match self {
            AddStatus::LearnReady => 1,
            AddStatus::NodeFound => 2,
            AddStatus::AddingSlave => 3,
            AddStatus::AddingController => 4,
            AddStatus::ProtocolDone => 5,
            AddStatus::Done => 6,
            AddStatus::Failed => 7,
        }
    }
}

/// What a notice says of the node that is added.
#[derive(Drop)]
pub enum AddedNode {
    /// No node yet.
    Unnamed,
    /// A node, with nothing more of it.
    Named {
        node: NodeId,
    },
    /// A node with its device classes and the list of its command classes, at most 252 of them.
    Described {
        node: NodeId,
        basic: u8,
        generic: u8,
        specific: u8,
        classes: Bytes,
    },
}
