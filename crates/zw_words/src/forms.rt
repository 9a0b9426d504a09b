//! What one word stands for.

ghost use Rattle.std.specs.Prelude.{◌≡◌, ◌+◌, ◌-◌, ◌*◌, ◌<◌, ◌≤◌, ◌^◌, length, position, ◌==◌, ◌&&◌, SomeIff, IfSome, IfOk, OnErr, IsSome};
ghost use Rattle.std.specs.Char.{is_ascii_hexdigit};
ghost use Rattle.std.specs.List.{list_all};
ghost use Rattle.zw_words.specs.Forms.{begins_number, between_in, digits_in, end_after, hex_in, hex_length, node_in, number_in, side_in, target_in, value_in};

use crate::Side;
use std::alloc::Global;
use zw_base::{Bytes, EndPoint, NoMemory, NodeId, Word, read_end, read_node};

/// The greatest node.
const MAX_NODE: u32 = 232;

/// The greatest end point.
const MAX_END: u32 = 127;

/// The greatest level, in per cent.
const MAX_LEVEL: u32 = 99;

/// What stands between a node and an end point.
const POINT: u8 = b'.';

/// A node and an end point of it.
#[derive(Clone, Copy, Debug, PartialEq, Eq)]
pub struct Target {
    pub node: NodeId,
    pub end: EndPoint,
}

/// The number that the word is in decimal: 0, or digits of which the first is not 0, below 2 to the 64.
#[tactic(auto, unfolding(crate::specs::Forms::number_in))]
pub fn number_of(word: &[u8]) -> Option<u64>
    ensures { result ≡ number_in word.now }
{
    if begins_as_number(word) {
        digits_of(word)
    } else {
        None
    }
}

fn begins_as_number(word: &[u8]) -> bool
    ensures { result ≡ begins_number word.now }
{
    if word.is_empty() {
        return false;
    }
    word.len() == 1 || word[0] != b'0'
}

/// The number that the digits make.
fn digits_of(word: &[u8]) -> Option<u64>
    ensures { result ≡ digits_in 0 word.now }
{
    let mut number = 0;
    for digit in word {
        if !digit.is_ascii_digit() {
            return None;
        }
        number = with_digit(number, *digit)?;
    }
    Some(number)
}

/// The number with one more digit.
fn with_digit(number: u64, digit: u8) -> Option<u64>
    requires { 48 ≤ digit }
    ensures { SomeIff result (number * 10 + (digit - 48) < 2 ^ 64) (number * 10 + (digit - 48)) }
{
    number.checked_mul(10)?.checked_add(u64::from(digit - b'0'))
}

/// The number that the word is, where it is from `least` to `most`.
#[tactic(auto, unfolding(crate::specs::Forms::between_in))]
pub fn number_between(word: &[u8], least: u32, most: u32) -> Option<u32>
    ensures value { result ≡ between_in least most word.now }
    ensures range { IfSome result (λ n. (least ≤ n) × (n ≤ most)) }
{
    let number = number_of(word)?;
    if number < u64::from(least) || number > u64::from(most) {
        return None;
    }
    Some(number as u32)
}

/// The node that the word is, from `least` on.
#[tactic(auto, unfolding(crate::specs::Forms::between_in))]
pub fn node_of(word: &[u8], least: u32) -> Option<NodeId>
    requires { 1 ≤ least }
    ensures { result ≡ node_in least word.now }
{
    let number = number_between(word, least, MAX_NODE)?;
    read_node(number as u8)
}

/// A node from `least` on, or such a node, a point and an end point from 1 on.
#[tactic(auto, unfolding(crate::specs::Forms::target_in))]
pub fn target_of(word: &[u8], least: u32) -> Option<Target>
    requires { 1 ≤ least }
    ensures { result ≡ target_in least word.now }
{
    match point_in(word) {
        Some(at) => target_of_parts(&word[..at], &word[at + 1..], least),
        None => {
            let node = node_of(word, least)?;
            Some(Target {
                node,
                end: EndPoint::root(),
            })
        }
    }
}

/// Where the first point of the word stands.
fn point_in(word: &[u8]) -> Option<usize>
    ensures at { result ≡ position (λ b. b == 46) word.now }
    ensures within { IfSome result (λ at. at < length word.now) }
{
    word.iter().position(|byte| *byte == POINT)
}

/// A node from `least` on, and an end point from 1 on.
fn target_of_parts(node: &[u8], end: &[u8], least: u32) -> Option<Target>
    requires { 1 ≤ least }
    ensures { result ≡ end_after (node_in least node.now) (between_in 1 127 end.now) }
{
    let node = node_of(node, least)?;
    let end = number_between(end, 1, MAX_END)?;
    let end = read_end(end as u8)?;
    Some(Target { node, end })
}

/// `on`, `off`, or a level from 0 to 99.
#[tactic(auto, unfolding(crate::specs::Forms::value_in))]
pub fn value_of(word: &[u8]) -> Option<Word>
    ensures { result ≡ value_in word.now }
{
    if word == b"on".as_slice() {
        return Some(Word::On);
    }
    if word == b"off".as_slice() {
        return Some(Word::Off);
    }
    let level = number_between(word, 0, MAX_LEVEL)?;
    Some(Word::Level(level as u8))
}

/// `h` or `c`.
#[tactic(auto, unfolding(crate::specs::Forms::side_in))]
pub fn side_of(word: &[u8]) -> Option<Side>
    ensures { result ≡ side_in word.now }
{
    if word == b"h".as_slice() {
        return Some(Side::Host);
    }
    if word == b"c".as_slice() {
        return Some(Side::Chip);
    }
    None
}

fn has_hex_length(word: &[u8], least: usize, most: usize) -> bool
    ensures { result ≡ hex_length least most word.now }
{
    let count = word.len() / 2;
    word.len() % 2 == 0 && count >= least && count <= most
}

fn has_hex_digits(word: &[u8]) -> bool
    ensures { result ≡ list_all is_ascii_hexdigit word.now }
{
    word.iter().all(|digit| digit.is_ascii_hexdigit())
}

/// Whether the word is bytes in hex, of either case: from `least` to `most` of them.
pub fn is_hex(word: &[u8], least: usize, most: usize) -> bool
    ensures { result ≡ (hex_length least most word.now && list_all is_ascii_hexdigit word.now) }
{
    has_hex_length(word, least, most) && has_hex_digits(word)
}

/// The bytes that the word is in hex, where it is: from `least` to `most` of them.
#[tactic(auto, unfolding(crate::specs::Forms::hex_in))]
pub fn hex_of(
    alloc: Global,
    word: &[u8],
    least: usize,
    most: usize,
) -> Result<Option<Bytes>, NoMemory>
    ensures ok { IfOk result (λ bytes. bytes ≡ hex_in least most word.now) }
    // There was no memory only where the word is such bytes.
    ensures err { OnErr result (IsSome (hex_in least most word.now)) }
{
    if !is_hex(word, least, most) {
        return Ok(None);
    }
    match hex::decode(alloc, word) {
        Ok(bytes) => Ok(Some(Bytes::from_slice(alloc, bytes.as_slice())?)),
        Err(_) => Err(NoMemory),
    }
}
