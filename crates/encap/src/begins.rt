//! Which encapsulation bytes begin with.

ghost use Rattle.std.specs.Prelude.{◌<◌, ◌↔◌, IsTrue};
ghost use Rattle.encap.specs.Begins.{Begins, IsTransport, IsWrap, IsOuter, IsMisplaced};

/// The class and the command of an encapsulation.
#[derive(Clone, Copy)]
pub struct Head {
    pub class: u8,
    pub command: u8,
}

pub const MULTI_COMMAND: Head = Head {
    class: 0x8F,
    command: 0x01,
};

pub const SUPERVISION_GET: Head = Head {
    class: 0x6C,
    command: 0x01,
};

pub const MULTI_CHANNEL: Head = Head {
    class: 0x60,
    command: 0x0D,
};

pub const CRC16: Head = Head {
    class: 0x56,
    command: 0x01,
};

const SECURITY_MESSAGE: Head = Head {
    class: 0x98,
    command: 0x81,
};

/// The class of Transport Service.
const TRANSPORT: u8 = 0x55;

/// Whether the bytes begin with this class and command.
pub fn begins(bytes: &[u8], head: Head) -> bool
    ensures { IsTrue result ↔ Begins bytes.now head.class head.command }
{
    bytes.len() >= 2 && bytes[0] == head.class && bytes[1] == head.command
}

/// Whether they begin with a First or Subsequent Segment of Transport Service.
fn is_transport(bytes: &[u8]) -> bool
    ensures { IsTrue result ↔ IsTransport bytes.now }
{
    if bytes.len() < 2 || bytes[0] != TRANSPORT {
        return false;
    }
    match bytes[1] {
        0xC0..=0xC7 | 0xE0..=0xE7 => true,
        _ => false,
    }
}

/// Whether they begin with a wrap that a plan names.
fn is_wrap(bytes: &[u8]) -> bool
    ensures { IsTrue result ↔ IsWrap bytes.now }
{
    begins(bytes, MULTI_COMMAND)
        || begins(bytes, SUPERVISION_GET)
        || begins(bytes, MULTI_CHANNEL)
        || begins(bytes, CRC16)
}

/// Whether they begin with a wrap that other crates open.
fn is_outer(bytes: &[u8]) -> bool
    ensures { IsTrue result ↔ IsOuter bytes.now }
{
    begins(bytes, SECURITY_MESSAGE) || is_transport(bytes)
}

/// Whether an encapsulation stands where a command should; the outer ones only `within` a wrap.
pub fn is_misplaced(bytes: &[u8], within: bool) -> bool
    ensures { IsTrue result ↔ IsMisplaced within bytes.now }
{
    is_wrap(bytes) || within && is_outer(bytes)
}
