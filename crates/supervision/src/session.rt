//! The six bits of a session's number that the wire carries, and the statuses of a report.

ghost use Rattle.std.specs.Prelude.{◌≡◌, ◌<◌};
ghost use Rattle.supervision.specs.Session.{wire_id};

/// The device does not support the command.
pub const NO_SUPPORT: u8 = 0x00;

/// The command was taken, and its final status comes later.
pub const WORKING: u8 = 0x01;

/// The command could not be carried out.
pub const FAIL: u8 = 0x02;

/// The command was carried out.
pub const SUCCESS: u8 = 0xFF;

/// How many ids the wire has.
pub const WIRE_IDS: u64 = 64;

/// The id of a session on the wire.
pub fn session_id(session: u64) -> u8
    ensures value { result ≡ wire_id session }
    ensures six_bits { result < 64 }
{
    (session % WIRE_IDS) as u8
}
