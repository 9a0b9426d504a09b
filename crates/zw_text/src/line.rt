//! The lines of a scenario, and those that the host alone is driven by.

use zw_base::{Bytes, EndPoint, NodeId, Order, Word};
use zw_words::Side;

/// A line of a scenario (this project's own). Ticks are of 100 ms.
#[derive(Drop)]
pub enum Line {
    /// `set`, `mode`, `setpoint`, `comfort`, `config`, `bulk`, `assoc`, `unassoc` or `interval`: an order, whose node
    /// is 2 to 232, and whose end point is 0 but for `set N.E V`.
    Command { order: Order },
    /// `tick K`: so many ticks pass, 1 to 100,000.
    Tick { count: u32 },
    /// `cut K`: serial bytes move in pieces of so many bytes, up to 4,096; 0 is no cutting.
    Cut { size: u32 },
    /// `stall K`: no serial byte moves until so many ticks passed, 1 to 1,000.
    Stall { ticks: u32 },
    /// `drop S`: a later unit of that side is lost.
    Drop { side: Side },
    /// `garble S P X`: a byte of a later frame of that side is combined by exclusive or with `xor`, 1 to 255. Places
    /// count from the frame's type on.
    Garble { side: Side, place: u8, xor: u8 },
    /// `collide`: the chip answers a later frame by CAN.
    Collide,
    /// `send N V`: a Set without Supervision.
    Send { node: NodeId, word: Word },
    /// `get N` or `get N.E`.
    Get { node: NodeId, end: EndPoint },
    /// `join N`.
    Join { node: NodeId },
    /// `interview N`.
    Interview { node: NodeId },
    /// `lose K`: so many more frames on the air are lost, 1 to 1,000.
    Lose { count: u32 },
    /// `loseack K`: so many more acknowledgements on the air are lost, 1 to 1,000.
    LoseAck { count: u32 },
    /// `repeat I`: a frame that was on the air is heard again; I is 1 to 999,999,999.
    Repeat { frame: u64 },
    /// `wake N`.
    Wake { node: NodeId },
    /// `cancel I`: a command that waits is taken back; I is 1 to 999,999,999.
    Cancel { command: u32 },
    /// `link A B`: two nodes hear each other.
    Link { first: NodeId, second: NodeId },
    /// `unlink A B`: two nodes do not hear each other any more.
    Unlink { first: NodeId, second: NodeId },
    /// `discover`.
    Discover,
    /// `neighbours N`.
    Neighbours { node: NodeId },
    /// `failed N`.
    Failed { node: NodeId },
    /// `probe`.
    Probe,
    /// `local N V`: somebody sets the device by hand, to 0 to 255.
    Local { node: NodeId, value: u8 },
    /// `show N`.
    Show { node: NodeId },
    /// `store N`.
    Store { node: NodeId },
    /// `restart`: the host stops, and a new one starts from its records.
    Restart,
}

/// A line of `replay`, which drives the host alone (this project's own).
#[derive(Drop)]
pub enum ReplayLine {
    /// A line that speaks to the host, or `tick`.
    Plain { line: Line },
    /// `chip H`: bytes from the chip, 1 to 508.
    Chip { bytes: Bytes },
}
