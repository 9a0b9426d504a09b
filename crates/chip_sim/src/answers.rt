//! What the chip tells of itself and its network.

ghost use Rattle.std.specs.Prelude.{◌≡◌};
ghost use Rattle.route_table.specs.Network.{linked};
ghost use Rattle.chip_sim.specs.Nodes.{nodes_where};

use chip_functions::NodeMask;
use route_table::RouteTable;
use zw_base::{MAX_NODE, NodeId, node_after};

/// The version of the Serial API that the chip tells, and its own type and version.
pub(crate) const INIT_VERSION: u8 = 5;

pub(crate) const CHIP_TYPE: u8 = 7;

/// The version of the application.
pub(crate) const APPLICATION_VERSION: u8 = 1;

/// The functions that the chip has: 02, 04, 07, 13, 15, 16, 20, 41, 49, 60, 62 and 80 (bit f - 1 for function f).
pub const FUNCTIONS: [u8; 32] = [
    0x4a, 0x00, 0x34, 0x80, 0x00, 0x00, 0x00, 0x00, 0x01, 0x01, 0x00, 0x80, 0x02, 0x00, 0x00, 0x80,
    0x00, 0x00, 0x00, 0x00, 0x00, 0x00, 0x00, 0x00, 0x00, 0x00, 0x00, 0x00, 0x00, 0x00, 0x00, 0x00,
];

/// The text `Z-Wave 0.00`, ended by a zero byte.
pub const VERSION_TEXT: [u8; 12] = [
    0x5a, 0x2d, 0x57, 0x61, 0x76, 0x65, 0x20, 0x30, 0x2e, 0x30, 0x30, 0x00,
];

/// The type of the library: a static controller.
pub(crate) const LIBRARY_TYPE: u8 = 1;

/// The home id of the simulated network.
pub(crate) const HOME_ID: u32 = 1;

/// The chip's own node.
pub(crate) const HOME: u8 = 1;

/// The capability byte of a node that listens.
pub(crate) const LISTENS: u8 = 0x80;

/// The generic device class of GetNodeProtocolInfo's basic byte: a slave that routes.
pub(crate) const BASIC_CLASS: u8 = 4;

/// The answer to a SendData or RequestNodeInfo that is taken.
pub(crate) const TAKEN: u8 = 1;

#[tactic(auto, using(crate::proofs::Masks::next_in, crate::proofs::Masks::next_out, crate::proofs::Masks::all_nodes))]
/// The nodes that hear a node in the table.
pub(crate) fn neighbours(table: &RouteTable, node: NodeId) -> NodeMask
    ensures { result ≡ nodes_where (λ m. linked table.now node m) }
{
    let mut mask = NodeMask::new();
    for place in 0..MAX_NODE {
        let other = node_after(place);
        if table.linked(node, other) {
            mask.insert(other);
        }
    }
    mask
}
