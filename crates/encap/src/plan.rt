//! What a message is wrapped in.

use zw_base::{Bytes, EndPoint, List};

/// The outermost wrap.
#[derive(Clone, Copy, Debug, PartialEq, Eq)]
pub enum Outer {
    None,
    /// CRC-16 Encapsulation.
    Crc16,
    /// Security 0, which is added to what `wrap` gives.
    Security,
    /// Transport Service, whose segments are cut from what `wrap` gives.
    Transport,
}

/// A Supervision Get.
#[derive(Clone, Copy, Debug, PartialEq, Eq)]
pub struct Supervised {
    /// Whether reports of later updates are asked for.
    pub updates: bool,
    /// The session, 0 to 63.
    pub id: u8,
}

/// The end points of a Multi Channel Command Encapsulation.
#[derive(Clone, Copy, Debug, PartialEq, Eq)]
pub struct Ends {
    pub source: EndPoint,
    pub target: EndPoint,
}

/// What a message is wrapped in, from the inside out.
#[derive(Clone, Copy, Debug, PartialEq, Eq)]
pub struct Plan {
    /// Whether the commands stand in a Multi Command Encapsulation.
    pub batch: bool,
    pub session: Option<Supervised>,
    pub channel: Option<Ends>,
    pub outer: Outer,
}

/// A message taken out of its wraps.
#[derive(Debug, Drop)]
pub struct Opened {
    pub plan: Plan,
    pub commands: List<Bytes>,
}
