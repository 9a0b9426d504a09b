//! The parts of a text, and what each of them stands for.
//!
//! Each reader here answers something for any word: where the word is not in its form, that is some value which is printed
//! as another word.

ghost use Rattle.std.specs.Prelude.{◌≡◌, [], IfOk, map, slice_get};
ghost use Rattle.std.specs.Option.{option_map};
ghost use Rattle.zw_parse.specs.Reading.{
  at,
  parts,
  eight_back,
  four_back,
  two_back,
  byte_back,
  end_back,
  node_back,
  hex_back,
  payload_back,
  side_back,
  ended_back,
  done_back,
  fault_back,
  failed_back,
  by_back,
  option_back,
  name_back,
  property_back,
  first_byte,
  class_back,
};

use hex::FromHexError;
use std::alloc::{AllocError, Global};
use zw_base::{
    By, Bytes, EndPoint, Name, NoMemory, NodeId, Payload, Property, read_end, read_node,
};
use zw_text::{Done, Ended, LineFault, Side};
use zw_words::{node_of, number_between, number_of};

/// The greatest end point.
const MAX_END: u32 = 127;

/// The greatest byte, and the greatest number of two bytes.
const MAX_BYTE: u32 = 255;

const MAX_TWO: u32 = 65_535;

/// The part of that place, counted from 0, between such bytes.
fn nth_part(text: &[u8], byte: u8, place: usize) -> Option<&[u8]>
    ensures { option_map (λ x. x.now) result ≡ slice_get (parts byte text.now) place }
{
    text.split(|b| *b == byte).nth(place)
}

/// The same; no bytes where there is no such part.
pub fn part(text: &[u8], byte: u8, place: usize) -> &[u8]
    ensures { result.now ≡ at place (parts byte text.now) }
{
    match nth_part(text, byte, place) {
        Some(word) => word,
        None => &[],
    }
}

/// All words of a text with one space between two.
pub fn all_words(alloc: Global, text: &[u8]) -> Result<Vec<&[u8]>, AllocError>
    ensures { IfOk result (λ words. map (λ x. x.now) words.items ≡ parts 32 text.now) }
{
    text.split(|b| *b == b' ').collect(alloc)
}

#[tactic(auto, unfolding(crate::specs::Reading::eight_back))]
pub fn eight(word: &[u8]) -> u64
    ensures { result ≡ eight_back word.now }
{
    number_of(word).unwrap_or(0)
}

#[tactic(auto, unfolding(crate::specs::Reading::four_back))]
pub fn four(word: &[u8]) -> u32
    ensures { result ≡ four_back word.now }
{
    number_between(word, 0, u32::MAX).unwrap_or(0)
}

#[tactic(auto, unfolding(crate::specs::Reading::two_back))]
pub fn two(word: &[u8]) -> u16
    ensures { result ≡ two_back word.now }
{
    match number_between(word, 0, MAX_TWO) {
        Some(number) => number as u16,
        None => 0,
    }
}

#[tactic(auto, unfolding(crate::specs::Reading::byte_back))]
pub fn byte(word: &[u8]) -> u8
    ensures { result ≡ byte_back word.now }
{
    match number_between(word, 0, MAX_BYTE) {
        Some(number) => number as u8,
        None => 0,
    }
}

#[tactic(auto, unfolding(crate::specs::Reading::end_back))]
fn end_point(word: &[u8]) -> EndPoint
    ensures { result ≡ end_back word.now }
{
    let Some(number) = number_between(word, 0, MAX_END) else {
        return EndPoint::root();
    };
    match read_end(number as u8) {
        Some(end) => end,
        None => EndPoint::root(),
    }
}

/// The least node.
fn first_node() -> NodeId
    ensures { result ≡ 1 }
{
    let Some(node) = read_node(1) else {
        unreachable!()
    };
    node
}

#[tactic(auto, unfolding(crate::specs::Reading::node_back))]
pub fn node(word: &[u8]) -> NodeId
    ensures { result ≡ node_back word.now }
{
    match node_of(word, 1) {
        Some(node) => node,
        None => first_node(),
    }
}

#[tactic(auto, unfolding(crate::specs::Reading::hex_back))]
pub fn bytes(alloc: Global, word: &[u8]) -> Result<Bytes, NoMemory>
    ensures { IfOk result (λ bytes. bytes ≡ hex_back word.now) }
{
    match hex::decode(alloc, word) {
        Ok(bytes) => {
            let bytes = Bytes::from_slice(alloc, bytes.as_slice())?;
            Ok(bytes)
        }
        Err(FromHexError::OutOfMemory) => Err(NoMemory),
        Err(_) => Ok(Bytes::new(alloc)),
    }
}

#[tactic(auto, unfolding(crate::specs::Reading::payload_back))]
pub fn payload(alloc: Global, word: &[u8]) -> Result<Payload, NoMemory>
    ensures { IfOk result (λ payload. payload ≡ payload_back word.now) }
{
    let bytes = bytes(alloc, word)?;
    match Payload::of(bytes.as_slice()) {
        Some(payload) => Ok(payload),
        None => Ok(no_payload()),
    }
}

fn no_payload() -> Payload
    ensures { result ≡ [] }
{
    let Some(payload) = Payload::of(&[]) else {
        unreachable!()
    };
    payload
}

#[tactic(auto, unfolding(crate::specs::Reading::class_back))]
pub fn class(alloc: Global, word: &[u8]) -> Result<u8, NoMemory>
    ensures { IfOk result (λ class. class ≡ class_back word.now) }
{
    let bytes = bytes(alloc, word)?;
    Ok(first(bytes.as_slice()))
}

pub fn first(word: &[u8]) -> u8
    ensures { result ≡ first_byte word.now }
{
    match word {
        [byte, ..] => *byte,
        [] => 0,
    }
}

#[tactic(auto, unfolding(crate::specs::Reading::side_back))]
pub fn side(word: &[u8]) -> Side
    ensures { result ≡ side_back word.now }
{
    if word == b"h".as_slice() {
        Side::Host
    } else {
        Side::Chip
    }
}

#[tactic(auto, unfolding(crate::specs::Reading::ended_back))]
pub fn ended(word: &[u8]) -> Ended
    ensures { result ≡ ended_back word.now }
{
    if word == b"success".as_slice() {
        Ended::Success
    } else if word == b"fail".as_slice() {
        Ended::Fail
    } else if word == b"nosupport".as_slice() {
        Ended::NoSupport
    } else if word == b"unanswered".as_slice() {
        Ended::Unanswered
    } else {
        Ended::Cancelled
    }
}

#[tactic(auto, unfolding(crate::specs::Reading::done_back))]
pub fn done(word: &[u8]) -> Done
    ensures { result ≡ done_back word.now }
{
    if word == b"ok".as_slice() {
        Done::Delivered
    } else if word == b"noack".as_slice() {
        Done::NoAck
    } else if word == b"fail".as_slice() {
        Done::Fail
    } else if word == b"notidle".as_slice() {
        Done::NotIdle
    } else if word == b"noroute".as_slice() {
        Done::NoRoute
    } else if word == b"refused".as_slice() {
        Done::Refused
    } else if word == b"silent".as_slice() {
        Done::Silent
    } else {
        Done::LinkFailed
    }
}

#[tactic(auto, unfolding(crate::specs::Reading::fault_back))]
pub fn fault(word: &[u8]) -> LineFault
    ensures { result ≡ fault_back word.now }
{
    if word == b"Unknown".as_slice() {
        LineFault::Unknown
    } else if word == b"Missing".as_slice() {
        LineFault::Missing
    } else if word == b"Number".as_slice() {
        LineFault::Number
    } else if word == b"Extra".as_slice() {
        LineFault::Extra
    } else {
        LineFault::TooLong
    }
}

#[tactic(auto, unfolding(crate::specs::Reading::failed_back))]
pub fn failed(word: &[u8]) -> bool
    ensures { result ≡ failed_back word.now }
{
    word == b"yes".as_slice()
}

#[tactic(auto, unfolding(crate::specs::Reading::by_back))]
pub fn by(word: &[u8]) -> By
    ensures { result ≡ by_back word.now }
{
    if first(word) <= b'9' {
        return By::Session(eight(word));
    }
    if word == b"local".as_slice() {
        By::Local
    } else {
        By::Plain
    }
}

/// A number, or `-`.
#[tactic(auto, unfolding(crate::specs::Reading::option_back))]
pub fn option(word: &[u8]) -> Option<u32>
    ensures { result ≡ option_back word.now }
{
    if first(word) < b'0' {
        None
    } else {
        Some(four(word))
    }
}

#[tactic(auto, unfolding(crate::specs::Reading::property_back))]
pub fn property(word: &[u8]) -> Property
    ensures { result ≡ property_back word.now }
{
    let end = end_point(part(word, b'/', 0));
    let name = name(part(word, b'/', 1));
    Property { end, name }
}

#[tactic(auto, unfolding(crate::specs::Reading::name_back))]
fn name(word: &[u8]) -> Name
    ensures { result ≡ name_back word.now }
{
    let number = part(word, b':', 1);
    let name = part(word, b':', 0);
    if name == b"switch".as_slice() {
        Name::Switch
    } else if name == b"level".as_slice() {
        Name::Level
    } else if name == b"lock".as_slice() {
        Name::Lock
    } else if name == b"mode".as_slice() {
        Name::Mode
    } else if name == b"interval".as_slice() {
        Name::Interval
    } else if name == b"sensor".as_slice() {
        Name::Sensor
    } else if name == b"battery".as_slice() {
        Name::Battery
    } else if name == b"setpoint".as_slice() {
        Name::Setpoint(byte(number))
    } else if name == b"config".as_slice() {
        Name::Config(byte(number))
    } else {
        Name::Member(byte(number), node(part(word, b':', 2)))
    }
}
