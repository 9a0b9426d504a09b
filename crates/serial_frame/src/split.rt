//! A piece split into all its items.

ghost use Rattle.std.specs.Prelude.{◌≡◌, [], ◌∷◌, ◌++◌, ◌≤◌, IfOk, OnErr, length};
ghost use Rattle.serial_frame.specs.Stream.{Adds};
ghost use Rattle.serial_frame.specs.Search.{Ends};

use crate::Item;
use crate::search::{Found, find_first};
use std::alloc::Global;
use zw_base::{List, NoMemory};

/// Adds an item and those that these bytes read as. The answer is the unfinished end with its running sum.
pub(crate) fn split<'a>(
    alloc: Global,
    item: Item,
    bytes: &'a [u8],
    out: &mut List<Item>,
) -> Result<(u8, &'a [u8]), NoMemory>
    ensures ok { IfOk result (λ end. Adds (out.old.items ++ item ∷ []) out.new.items (λ added. Ends bytes.now added end.0 end.1.now)) }
    ensures err { OnErr result (out.new.items ≡ out.old.items) }
{
    let mut items = Vec::new(alloc);
    items.push(item)?;
    let end = split_all(alloc, bytes, &mut items)?;
    out.reserve(items.len())?;
    put_all(items, out);
    Ok(end)
}

/// Adds the items that these bytes read as.
fn split_all<'a>(
    alloc: Global,
    bytes: &'a [u8],
    items: &mut Vec<Item>,
) -> Result<(u8, &'a [u8]), NoMemory>
    ensures { IfOk result (λ end. Adds items.old.items items.new.items (λ added. Ends bytes.now added end.0 end.1.now)) }
{
    let mut left = bytes;
    loop {
        match find_first(alloc, left)? {
            Found::Whole { item, rest } => {
                items.push(item)?;
                left = rest;
            }
            Found::Part { sum } => return Ok((sum, left)),
        }
    }
}

/// Moves items to the end of a list that has room for them.
fn put_all(items: Vec<Item>, out: &mut List<Item>)
    requires { length items.items ≤ out.old.room }
    ensures { out.new.items ≡ out.old.items ++ items.items }
{
    for item in items {
        out.put(item);
    }
}
