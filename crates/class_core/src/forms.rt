//! The written forms of the fields of class messages.

ghost use Rattle.std.specs.Prelude.{◌≡◌, ◌<◌, [], ◌∷◌, ◌++◌, OnOk, IsTrue};
ghost use Rattle.class_core.specs.Ranges.{bytes_in, limit, size_of, value_of, is_node, IsScaled, AreNodes};
ghost use Rattle.class_core.specs.Cell.{written, byte_of};
ghost use Rattle.class_core.specs.Fields.{word as word_cells, three, number as number_cells, numbers, scaled, nodes, flag, part};

use crate::decimal::Decimal;
use crate::node_list::NodeList;
use crate::number::{Number, Size};
use crate::number_list::NumberList;
use crate::small::Seconds;
use zw_base::{Bytes, NoMemory, NodeId};

/// The byte of a node.
pub fn node_number(node: NodeId) -> u8
    ensures value { result ≡ node }
    ensures range { IsTrue (is_node node) }
{
    node.number()
}

/// Adds a number of two bytes.
pub fn put_word(out: &mut Bytes, number: u16) -> Result<(), NoMemory>
    ensures ok { OnOk result (out.new ≡ out.old ++ written (word_cells number)) }
{
    out.extend(&[(number / 256) as u8, (number % 256) as u8])
}

/// Adds seconds in three bytes.
pub fn put_seconds(out: &mut Bytes, seconds: Seconds) -> Result<(), NoMemory>
    ensures ok { OnOk result (out.new ≡ out.old ++ written (three seconds)) }
{
    let number = seconds.number();
    out.extend(&[
        (number / 65536) as u8,
        (number / 256 % 256) as u8,
        (number % 256) as u8,
    ])
}

/// Adds a number of its size.
pub fn put_number(out: &mut Bytes, number: Number) -> Result<(), NoMemory>
    ensures ok { OnOk result (out.new ≡ out.old ++ written (number_cells (size_of number) (value_of number))) }
{
    match number {
        Number::One(n) => out.push(n),
        Number::Two(n) => put_word(out, n),
        Number::Four(n) => out.extend(&[
            (n / 16777216) as u8,
            (n / 65536 % 256) as u8,
            (n / 256 % 256) as u8,
            (n % 256) as u8,
        ]),
    }
}

/// Adds a byte with precision, scale and size, then the number.
pub fn put_decimal(out: &mut Bytes, value: Decimal) -> Result<(), NoMemory>
    ensures ok { OnOk result (out.new ≡ out.old ++ written (scaled value)) }
    ensures range { IsScaled value }
{
    let number = value.number();
    out.push(value.precision() * 32 + value.scale() * 8 + number.size().bytes())?;
    put_number(out, number)
}

/// Adds a byte with a flag in bit 7 and a size in bits 2 to 0.
pub fn default_and_size(default: bool, size: Size) -> u8
    ensures { result ≡ byte_of (part 7 1 (flag default) ∷ part 0 3 (bytes_in size) ∷ []) }
{
    if default {
        128 + size.bytes()
    } else {
        size.bytes()
    }
}

/// Adds nodes.
pub fn put_nodes(out: &mut Bytes, list: &NodeList) -> Result<(), NoMemory>
    ensures ok { OnOk result (out.new ≡ out.old ++ written (nodes list.now)) }
    ensures range { AreNodes list.now }
{
    for node in list.as_slice() {
        out.push(node.number())?;
    }
    Ok(())
}

/// The most bytes of a number.
const MOST_BYTES: usize = 4;

/// Adds numbers of one size.
pub fn put_numbers(out: &mut Bytes, list: &NumberList) -> Result<(), NoMemory>
    ensures ok { OnOk result (out.new ≡ out.old ++ written (numbers list.now.size list.now.items)) }
{
    out.reserve(list.len().saturating_mul(MOST_BYTES))?;
    for number in list.as_slice() {
        put_sized(out, list.size(), *number)?;
    }
    Ok(())
}

/// Adds a number of that size.
fn put_sized(out: &mut Bytes, size: Size, number: u32) -> Result<(), NoMemory>
    requires { number < limit size }
    ensures ok { OnOk result (out.new ≡ out.old ++ written (number_cells size number)) }
{
    put_number(out, size.number(number))
}
