//! What happens to a device, and what is seen of it then.

use device_sim::Device;
use std::alloc::Global;
use std::test::Fail;
use zw_base::{NodeId, Replies, read_node};

/// The network key of all devices.
pub(crate) const KEY: [u8; 16] = [0, 1, 2, 3, 4, 5, 6, 7, 8, 9, 10, 11, 12, 13, 14, 15];

/// The bytes that are drawn, at each call.
pub(crate) const DRAWN: [u8; 8] = [0xD0, 0xD1, 0xD2, 0xD3, 0xD4, 0xD5, 0xD6, 0xD7];

pub(crate) fn node(number: u8) -> Result<NodeId, Fail> {
    Ok(read_node(number).ok_or("no such node")?)
}

/// The bytes that a word is the hex of.
fn bytes(alloc: Global, word: &str) -> Result<Vec<u8>, Fail> {
    Ok(hex::decode(alloc, word).ok().ok_or("no bytes")?)
}

fn number(word: &str) -> Result<u8, Fail> {
    Ok(word.parse::<u8>().ok().ok_or("no number")?)
}

/// So many ticks pass. What the last one sends is kept.
fn ticks<D: Device>(device: &mut D, count: u8, out: &mut Replies) -> Result<(), Fail> {
    for _ in 0..count {
        out.clear();
        device.tick(out)?;
    }
    Ok(())
}

/// Makes it happen, and keeps what is sent.
fn happens<D: Device>(
    alloc: Global,
    device: &mut D,
    what: &str,
    word: &str,
    out: &mut Replies,
) -> Result<(), Fail> {
    out.clear();
    match what {
        "hear" => device.hear(&bytes(alloc, word)?, DRAWN, out)?,
        "ticks" => ticks(device, number(word)?, out)?,
        "set" => device.local(number(word)?, out)?,
        _ => device.wake(out)?,
    }
    Ok(())
}

/// Whether these payloads were sent, and no others.
fn were_sent(alloc: Global, out: &Replies, words: &str) -> Result<bool, Fail> {
    let mut count = 0u8;
    for word in words.split(' ') {
        if word == "-" {
            return Ok(out.len() == 0);
        }
        if out.get(count) != Some(bytes(alloc, word)?.as_slice()) {
            return Ok(false);
        }
        count = count.saturating_add(1);
    }
    Ok(out.len() == count)
}

/// Makes what a line says happen, and answers whether what follows is as it says.
fn holds<D: Device>(
    alloc: Global,
    device: &mut D,
    line: &str,
    out: &mut Replies,
) -> Result<bool, Fail> {
    let (what, rest) = line.split_once(' ').ok_or("no event")?;
    let (word, rest) = rest.split_once(' ').ok_or("no word")?;
    let (changes, sent) = rest.split_once(' ').ok_or("no count")?;
    happens(alloc, device, what, word, out)?;
    Ok(device.changes() == u64::from(number(changes)?) && were_sent(alloc, out, sent)?)
}

/// The first line of these of which what follows is not as it says.
pub(crate) fn plays<'a, D: Device>(
    alloc: Global,
    device: &mut D,
    steps: &'a str,
) -> Result<Option<&'a str>, Fail> {
    let mut out = Replies::new(alloc)?;
    for line in steps.lines() {
        if !holds(alloc, device, line, &mut out)? {
            return Ok(Some(line));
        }
    }
    Ok(None)
}
