//! The fields of class messages, each read at its offset from the class byte. The first field at fault from the
//! left is the fault of a message, so a row reads its fields in their order.

ghost use Rattle.std.specs.Prelude.{◌≡◌, ◌+◌, ◌≤◌, ◌<◌, ◌*◌, length, MatchOption, true, false};
ghost use Rattle.class_core.specs.Ranges.{is_level, is_node, bytes_in};
ghost use Rattle.class_core.specs.Reading.{
  byte_at,
  switch_at,
  lock_at,
  limited_at,
  bits_at,
  size_at,
  size_byte_at,
  flag_at,
  word_at,
  three_at,
  number_at,
  number_in,
  scaled_at,
};

use crate::decimal::Decimal;
use crate::fault::ClassFault;
use crate::level::Level;
pub use crate::node_list::nodes;
use crate::number::{Number, Size};
pub use crate::number_list::numbers;
use crate::small::{Mode, Seconds, SetpointKind};
use crate::switch::{LockMode, OFF, ON, Switch};
use zw_base::{NodeId, read_node};

/// The byte at an offset.
#[tactic(auto, unfolding(crate::specs::Reading::byte_at))]
pub fn byte(bytes: &[u8], at: u8) -> Result<u8, ClassFault>
    ensures { result ≡ byte_at at bytes.now }
{
    match bytes.get(usize::from(at)) {
        Some(byte) => Ok(*byte),
        None => Err(ClassFault::Short(u16::from(at) + 1)),
    }
}

/// The switch at an offset.
#[tactic(auto, unfolding(crate::specs::Reading::switch_at))]
pub fn switch(bytes: &[u8], at: u8) -> Result<Switch, ClassFault>
    ensures { result ≡ switch_at at bytes.now }
{
    match byte(bytes, at)? {
        OFF => Ok(Switch::Off),
        ON => Ok(Switch::On),
        _ => Err(ClassFault::BadValue(u16::from(at))),
    }
}

/// The mode of a lock at an offset.
#[tactic(auto, unfolding(crate::specs::Reading::lock_at))]
pub fn lock_mode(bytes: &[u8], at: u8) -> Result<LockMode, ClassFault>
    ensures { result ≡ lock_at at bytes.now }
{
    match byte(bytes, at)? {
        OFF => Ok(LockMode::Unsecured),
        ON => Ok(LockMode::Secured),
        _ => Err(ClassFault::BadValue(u16::from(at))),
    }
}

/// The level at an offset.
#[tactic(auto, unfolding(crate::specs::Reading::limited_at))]
pub fn level(bytes: &[u8], at: u8) -> Result<Level, ClassFault>
    ensures { result ≡ limited_at is_level at bytes.now }
{
    match Level::of(byte(bytes, at)?) {
        Some(level) => Ok(level),
        None => Err(ClassFault::BadValue(u16::from(at))),
    }
}

/// The node with that number, where there is one.
pub(crate) fn node_of(number: u8) -> Option<NodeId>
    ensures { MatchOption result (is_node number ≡ false) (λ node. (node ≡ number) × (is_node number ≡ true)) }
{
    read_node(number)
}

/// The node at an offset.
#[tactic(auto, unfolding(crate::specs::Reading::limited_at))]
pub fn node(bytes: &[u8], at: u8) -> Result<NodeId, ClassFault>
    ensures { result ≡ limited_at is_node at bytes.now }
{
    match node_of(byte(bytes, at)?) {
        Some(node) => Ok(node),
        None => Err(ClassFault::BadValue(u16::from(at))),
    }
}

/// The mode of a thermostat in the low five bits of the byte at an offset.
#[tactic(auto, unfolding(crate::specs::Reading::bits_at))]
pub fn mode(bytes: &[u8], at: u8) -> Result<Mode, ClassFault>
    ensures { result ≡ bits_at 0 5 at bytes.now }
{
    Ok(Mode::from_low_bits(byte(bytes, at)?))
}

/// The kind of a setpoint in the low four bits of the byte at an offset.
#[tactic(auto, unfolding(crate::specs::Reading::bits_at))]
pub fn setpoint_kind(bytes: &[u8], at: u8) -> Result<SetpointKind, ClassFault>
    ensures { result ≡ bits_at 0 4 at bytes.now }
{
    Ok(SetpointKind::from_low_bits(byte(bytes, at)?))
}

/// The highest bit of the byte at an offset.
#[tactic(auto, unfolding(crate::specs::Reading::bits_at, crate::specs::Reading::flag_at))]
pub fn high_bit(bytes: &[u8], at: u8) -> Result<bool, ClassFault>
    ensures { result ≡ flag_at 7 at bytes.now }
{
    Ok(byte(bytes, at)? >> 7 == 1)
}

/// The size that a number stands for, where there is one.
fn size_of_bytes(at: u8, number: u8) -> Result<Size, ClassFault>
    ensures { result ≡ Rattle.class_core.specs.Reading.size_of_bytes at number }
{
    match number {
        1 => Ok(Size::One),
        2 => Ok(Size::Two),
        4 => Ok(Size::Four),
        _ => Err(ClassFault::BadValue(u16::from(at))),
    }
}

/// The size in the low three bits of the byte at an offset.
#[tactic(auto, unfolding(crate::specs::Reading::bits_at, crate::specs::Reading::size_at))]
pub fn size(bytes: &[u8], at: u8) -> Result<Size, ClassFault>
    ensures { result ≡ size_at at bytes.now }
{
    size_of_bytes(at, byte(bytes, at)? & 0x07)
}

/// The size that the whole byte at an offset stands for.
#[tactic(auto, unfolding(crate::specs::Reading::size_byte_at))]
pub fn size_byte(bytes: &[u8], at: u8) -> Result<Size, ClassFault>
    ensures { result ≡ size_byte_at at bytes.now }
{
    size_of_bytes(at, byte(bytes, at)?)
}

/// The number of two bytes at an offset.
#[tactic(auto, unfolding(crate::specs::Reading::word_at))]
pub fn word(bytes: &[u8], at: u8) -> Result<u16, ClassFault>
    ensures { result ≡ word_at at bytes.now }
{
    let end = u16::from(at) + 2;
    if bytes.len() < usize::from(end) {
        return Err(ClassFault::Short(end));
    }
    Ok(word_in(bytes, usize::from(at)))
}

fn word_in(bytes: &[u8], at: usize) -> u16
    requires { at + 2 ≤ length bytes.now }
    ensures { result ≡ Rattle.class_core.specs.Reading.word_in at bytes.now }
{
    u16::from(bytes[at]) * 256 + u16::from(bytes[at + 1])
}

/// The seconds in the three bytes at an offset.
#[tactic(auto, unfolding(crate::specs::Reading::three_at))]
pub fn seconds(bytes: &[u8], at: u8) -> Result<Seconds, ClassFault>
    ensures { result ≡ three_at at bytes.now }
{
    let end = u16::from(at) + 3;
    if bytes.len() < usize::from(end) {
        return Err(ClassFault::Short(end));
    }
    let at = usize::from(at);
    Ok(Seconds::from_bytes([bytes[at], bytes[at + 1], bytes[at + 2]]))
}

/// The number of that size at an offset.
pub(crate) fn number_in(bytes: &[u8], at: usize, size: Size) -> Number
    requires { at + bytes_in size ≤ length bytes.now }
    ensures { result ≡ Rattle.class_core.specs.Ranges.sized size (Rattle.class_core.specs.Reading.number_in size at bytes.now) }
{
    match size {
        Size::One => Number::One(bytes[at]),
        Size::Two => Number::Two(word_in(bytes, at)),
        Size::Four => {
            let high = u32::from(word_in(bytes, at));
            Number::Four(high * 65536 + u32::from(word_in(bytes, at + 2)))
        }
    }
}

/// The number of that size at an offset.
#[tactic(auto, unfolding(crate::specs::Reading::number_at))]
pub fn number(bytes: &[u8], at: u8, size: Size) -> Result<Number, ClassFault>
    ensures { result ≡ number_at size at bytes.now }
{
    let end = u16::from(at) + u16::from(size.bytes());
    if bytes.len() < usize::from(end) {
        return Err(ClassFault::Short(end));
    }
    Ok(number_in(bytes, usize::from(at), size))
}

/// A byte with precision, scale and size at an offset, then the number.
#[tactic(auto, unfolding(crate::specs::Reading::bits_at, crate::specs::Reading::scaled_at))]
pub fn decimal(bytes: &[u8], at: u8) -> Result<Decimal, ClassFault>
    requires { at < 255 }
    ensures { result ≡ scaled_at at bytes.now }
{
    let divided = byte(bytes, at)?;
    let size = size(bytes, at)?;
    let number = number(bytes, at + 1, size)?;
    Ok(Decimal::new(divided >> 5, divided >> 3 & 0x03, number))
}
