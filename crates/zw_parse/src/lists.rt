//! Entries with a list, and those with a text that was taken from outside.

ghost use Rattle.std.specs.Prelude.{◌≡◌, IfOk, drop, map, nat_lt};
ghost use Rattle.zw_parse.specs.Reading.{
  air_back,
  at,
  back,
  neighbours_back,
  sessions_back,
  text_of,
  but_last,
  first_byte,
  last_of,
  nodes_back,
  numbers_back,
  parts,
};

use crate::parts::{all_words, eight, first, four, node, part, payload};
use crate::rows::{unit_row, word};
use std::alloc::Global;
use zw_base::{Bytes, NoMemory, NodeId, Sequence};
use zw_text::Entry;

/// Where the text begins, after `>` and after `json`.
const SAID: usize = 2;

const JSON: usize = 5;

/// The entry that the text is taken for.
#[tactic(auto, unfolding(crate::specs::Reading::text_of))]
pub fn row(alloc: Global, text: &[u8]) -> Result<Entry, NoMemory>
    ensures { IfOk result (λ entry. entry ≡ text_of text.now (parts 32 text.now)) }
{
    let name = word(text, 0);
    if name == b">".as_slice() {
        let words = Bytes::from_slice(alloc, following(text, SAID))?;
        Ok(Entry::Said { words })
    } else if name == b"json".as_slice() {
        let text = Bytes::from_slice(alloc, following(text, JSON))?;
        Ok(Entry::Json { text })
    } else {
        list_row(alloc, text)
    }
}

/// Rows with a list.
#[tactic(auto, unfolding(crate::specs::Reading::back))]
fn list_row(alloc: Global, text: &[u8]) -> Result<Entry, NoMemory>
    ensures { IfOk result (λ entry. entry ≡ back (parts 32 text.now)) }
{
    let name = word(text, 0);
    if name == b"air".as_slice() {
        air_row(alloc, text)
    } else if name == b"neighbours".as_slice() {
        neighbours_row(alloc, text)
    } else if name == b"node".as_slice() {
        sessions_row(alloc, text)
    } else {
        unit_row(alloc, text)
    }
}

/// `neighbours N LIST`
fn neighbours_row(alloc: Global, text: &[u8]) -> Result<Entry, NoMemory>
    ensures { IfOk result (λ entry. entry ≡ neighbours_back (parts 32 text.now)) }
{
    let words = all_words(alloc, text)?;
    let list = nodes(alloc, following(words.as_slice(), 2))?;
    let node = node(word(text, 1));
    Ok(Entry::Neighbours { node, list })
}

/// `node N sessions LIST`
fn sessions_row(alloc: Global, text: &[u8]) -> Result<Entry, NoMemory>
    ensures { IfOk result (λ entry. entry ≡ sessions_back (parts 32 text.now)) }
{
    let words = all_words(alloc, text)?;
    let sessions = numbers(alloc, following(words.as_slice(), 3))?;
    let node = node(word(text, 1));
    Ok(Entry::TableNode { node, sessions })
}

/// The items from that place on.
fn following<T>(items: &[T], place: usize) -> &[T]
    ensures { result.now ≡ drop place items.now }
{
    if place > items.len() {
        return &[];
    }
    &items[place..]
}

/// `air I A>B via R HEX`
#[tactic(auto, unfolding(crate::specs::Reading::air_back))]
fn air_row(alloc: Global, text: &[u8]) -> Result<Entry, NoMemory>
    ensures { IfOk result (λ entry. entry ≡ air_back (parts 32 text.now)) }
{
    let words = all_words(alloc, text)?;
    let words = following(words.as_slice(), 4);
    let repeaters = nodes(alloc, prefix(words))?;
    let payload = payload(alloc, last(words))?;
    let ends = word(text, 2);
    Ok(Entry::Air {
        frame: eight(word(text, 1)),
        sender: node(part(ends, b'>', 0)),
        receiver: node(part(ends, b'>', 1)),
        repeaters,
        payload,
    })
}

/// All words but the last.
fn prefix<'a, 'b>(words: &'a [&'b [u8]]) -> &'a [&'b [u8]]
    ensures { map (λ x. x.now) result.now ≡ but_last (map (λ x. x.now) words.now) }
{
    match words {
        [prefix @ .., _last] => prefix,
        [] => &[],
    }
}

/// The last word; none where there is none.
fn last<'b>(words: &[&'b [u8]]) -> &'b [u8]
    ensures { result.now ≡ last_of (map (λ x. x.now) words.now) }
{
    match words {
        [.., last] => last,
        [] => &[],
    }
}

/// Whether the words stand for no number.
fn is_none(words: &[&[u8]]) -> bool
    ensures { result ≡ nat_lt (first_byte (at 0 (map (λ x. x.now) words.now))) 48 }
{
    match words {
        [word, ..] => first(word) < b'0',
        [] => true,
    }
}

#[tactic(auto, unfolding(crate::specs::Reading::nodes_back))]
fn nodes(alloc: Global, words: &[&[u8]]) -> Result<Sequence<NodeId>, NoMemory>
    ensures { IfOk result (λ nodes. nodes ≡ nodes_back (map (λ x. x.now) words.now)) }
{
    let mut nodes = Sequence::new(alloc);
    if is_none(words) {
        return Ok(nodes);
    }
    for word in words {
        nodes.push(node(word))?;
    }
    Ok(nodes)
}

#[tactic(auto, unfolding(crate::specs::Reading::numbers_back))]
fn numbers(alloc: Global, words: &[&[u8]]) -> Result<Sequence<u32>, NoMemory>
    ensures { IfOk result (λ numbers. numbers ≡ numbers_back (map (λ x. x.now) words.now)) }
{
    let mut numbers = Sequence::new(alloc);
    if is_none(words) {
        return Ok(numbers);
    }
    for word in words {
        numbers.push(four(word))?;
    }
    Ok(numbers)
}
