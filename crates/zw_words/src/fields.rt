//! Words that are read in turn: each answers what the next word stands for, and the text after it.

ghost use Rattle.std.specs.Prelude.{◌≡◌, ◌<◌, ◌≤◌, [], ◌∷◌, Ok, Err, IfOk, IfErr};
ghost use Rattle.zw_words.specs.Words.{words};
ghost use Rattle.zw_words.specs.Forms.{between_in, hex_in, node_in, side_in, target_in, value_in};
ghost use Rattle.zw_words.specs.Fields.{Gives, ends, last, next};

use crate::forms::{Target, hex_of, is_hex, node_of, number_between, side_of, target_of, value_of};
use crate::words::cut_word;
use crate::{LineFault, ReadLineFault, Side};
use std::alloc::Global;
use zw_base::{Bytes, NodeId, Word};

/// The next word of the text, which has to be there, and what follows it.
fn next_word(text: &[u8]) -> Result<(&[u8], &[u8]), LineFault>
    ensures ok { IfOk result (λ cut. words text.now ≡ cut.0.now ∷ words cut.1.now) }
    ensures err { IfErr result (λ fault. (fault ≡ LineFault.Missing) × (words text.now ≡ [])) }
{
    match cut_word(text) {
        Some(cut) => Ok(cut),
        None => Err(LineFault::Missing),
    }
}

/// There is no further word.
#[tactic(auto, unfolding(crate::specs::Fields::ends))]
pub fn no_more(text: &[u8]) -> Result<(), LineFault>
    ensures { result ≡ ends (words text.now) }
{
    match cut_word(text) {
        Some(_) => Err(LineFault::Extra),
        None => Ok(()),
    }
}

/// The next word as a number from `least` to `most`, and what follows it.
#[tactic(auto, unfolding(crate::specs::Fields::next))]
pub fn take_number(text: &mut &[u8], least: u32, most: u32) -> Result<u32, LineFault>
    ensures ok { IfOk result (λ value. next (between_in least most) (words text.old.now) ≡ Ok (record { value = value; rest = words text.new.now })) }
    ensures err { IfErr result (λ fault. next (between_in least most) (words text.old.now) ≡ Err fault) }
    ensures range { IfOk result (λ value. (least ≤ value) × (value ≤ most)) }
{
    let (word, rest) = next_word(text)?;
    *text = rest;
    match number_between(word, least, most) {
        Some(number) => Ok(number),
        None => Err(LineFault::Number),
    }
}

/// The last word as a number from `least` to `most`.
#[tactic(auto, unfolding(crate::specs::Fields::last))]
pub fn last_number(mut text: &[u8], least: u32, most: u32) -> Result<u32, LineFault>
    ensures value { result ≡ last (between_in least most) (words text.now) }
    ensures range { IfOk result (λ value. (least ≤ value) × (value ≤ most)) }
{
    let number = take_number(&mut text, least, most)?;
    no_more(text)?;
    Ok(number)
}

/// The next word as a node from `least` on, and what follows it.
#[tactic(auto, unfolding(crate::specs::Fields::next))]
pub fn take_node(text: &mut &[u8], least: u32) -> Result<NodeId, LineFault>
    requires { 1 ≤ least }
    ensures ok { IfOk result (λ value. next (node_in least) (words text.old.now) ≡ Ok (record { value = value; rest = words text.new.now })) }
    ensures err { IfErr result (λ fault. next (node_in least) (words text.old.now) ≡ Err fault) }
{
    let (word, rest) = next_word(text)?;
    *text = rest;
    match node_of(word, least) {
        Some(node) => Ok(node),
        None => Err(LineFault::Number),
    }
}

/// The last word as a node from `least` on.
#[tactic(auto, unfolding(crate::specs::Fields::last))]
pub fn last_node(mut text: &[u8], least: u32) -> Result<NodeId, LineFault>
    requires { 1 ≤ least }
    ensures { result ≡ last (node_in least) (words text.now) }
{
    let node = take_node(&mut text, least)?;
    no_more(text)?;
    Ok(node)
}

/// The next word as a node from `least` on, with or without an end point from 1 on, and what follows it.
#[tactic(auto, unfolding(crate::specs::Fields::next))]
pub fn take_target(text: &mut &[u8], least: u32) -> Result<Target, LineFault>
    requires { 1 ≤ least }
    ensures ok { IfOk result (λ value. next (target_in least) (words text.old.now) ≡ Ok (record { value = value; rest = words text.new.now })) }
    ensures err { IfErr result (λ fault. next (target_in least) (words text.old.now) ≡ Err fault) }
{
    let (word, rest) = next_word(text)?;
    *text = rest;
    match target_of(word, least) {
        Some(target) => Ok(target),
        None => Err(LineFault::Number),
    }
}

/// The last word as a node from `least` on, with or without an end point from 1 on.
#[tactic(auto, unfolding(crate::specs::Fields::last))]
pub fn last_target(mut text: &[u8], least: u32) -> Result<Target, LineFault>
    requires { 1 ≤ least }
    ensures { result ≡ last (target_in least) (words text.now) }
{
    let target = take_target(&mut text, least)?;
    no_more(text)?;
    Ok(target)
}

/// The next word as `on`, `off` or a level from 0 to 99, and what follows it.
#[tactic(auto, unfolding(crate::specs::Fields::next))]
pub fn take_value(text: &mut &[u8]) -> Result<Word, LineFault>
    ensures ok { IfOk result (λ value. next value_in (words text.old.now) ≡ Ok (record { value = value; rest = words text.new.now })) }
    ensures err { IfErr result (λ fault. next value_in (words text.old.now) ≡ Err fault) }
{
    let (word, rest) = next_word(text)?;
    *text = rest;
    match value_of(word) {
        Some(value) => Ok(value),
        None => Err(LineFault::Number),
    }
}

/// The last word as `on`, `off` or a level from 0 to 99.
#[tactic(auto, unfolding(crate::specs::Fields::last))]
pub fn last_value(mut text: &[u8]) -> Result<Word, LineFault>
    ensures { result ≡ last value_in (words text.now) }
{
    let value = take_value(&mut text)?;
    no_more(text)?;
    Ok(value)
}

/// The next word as `h` or `c`, and what follows it.
#[tactic(auto, unfolding(crate::specs::Fields::next))]
pub fn take_side(text: &mut &[u8]) -> Result<Side, LineFault>
    ensures ok { IfOk result (λ value. next side_in (words text.old.now) ≡ Ok (record { value = value; rest = words text.new.now })) }
    ensures err { IfErr result (λ fault. next side_in (words text.old.now) ≡ Err fault) }
{
    let (word, rest) = next_word(text)?;
    *text = rest;
    match side_of(word) {
        Some(side) => Ok(side),
        None => Err(LineFault::Number),
    }
}

/// The last word as `h` or `c`.
#[tactic(auto, unfolding(crate::specs::Fields::last))]
pub fn last_side(mut text: &[u8]) -> Result<Side, LineFault>
    ensures { result ≡ last side_in (words text.now) }
{
    let side = take_side(&mut text)?;
    no_more(text)?;
    Ok(side)
}

/// The last word as bytes in hex of either case, from `least` to `most` of them.
#[tactic(auto, unfolding(crate::specs::Fields::last, crate::specs::Fields::next))]
pub fn last_hex(
    alloc: Global,
    text: &[u8],
    least: usize,
    most: usize,
) -> Result<Bytes, ReadLineFault>
    ensures { Gives result (last (hex_in least most) (words text.now)) }
{
    let (word, rest) = next_word(text)?;
    if !is_hex(word, least, most) {
        return Err(ReadLineFault::Bad(LineFault::Number));
    }
    if let Err(fault) = no_more(rest) {
        return Err(ReadLineFault::Bad(fault));
    }
    match hex_of(alloc, word, least, most)? {
        Some(bytes) => Ok(bytes),
        None => Err(ReadLineFault::Bad(LineFault::Number)),
    }
}
