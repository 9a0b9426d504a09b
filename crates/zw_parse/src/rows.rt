//! Each kind of entry, by its first word.

ghost use Rattle.std.specs.Prelude.{◌≡◌, IfOk};
ghost use Rattle.zw_parse.specs.Reading.{
  at,
  parts,
  command_back,
  fate_back,
  node_row_back,
  node_word_back,
  refusal_back,
  refused_back,
  setting_back,
  side_row_back,
  unit_back,
  value_back,
  valued_back,
};

use crate::parts::{
    by, byte, bytes, class, done, eight, ended, failed, fault, four, node, option, part, property,
    side, two,
};
use std::alloc::Global;
use zw_base::{NoMemory, Setting};
use zw_text::{Entry, Refusal, Side};

/// The word of that place, counted from 0.
pub fn word(text: &[u8], place: usize) -> &[u8]
    ensures { result.now ≡ at place (parts 32 text.now) }
{
    part(text, b' ', place)
}

/// Rows of bytes.
#[tactic(auto, unfolding(crate::specs::Reading::unit_back))]
pub fn unit_row(alloc: Global, text: &[u8]) -> Result<Entry, NoMemory>
    ensures { IfOk result (λ entry. entry ≡ unit_back (parts 32 text.now)) }
{
    let name = word(text, 0);
    if name == b"h".as_slice() {
        let unit = bytes(alloc, word(text, 1))?;
        Ok(Entry::Written {
            side: Side::Host,
            unit,
        })
    } else if name == b"c".as_slice() {
        let unit = bytes(alloc, word(text, 1))?;
        Ok(Entry::Written {
            side: Side::Chip,
            unit,
        })
    } else if name == b"garbled".as_slice() {
        let side = side(word(text, 1));
        let unit = bytes(alloc, word(text, 2))?;
        Ok(Entry::Garbled { side, unit })
    } else if name == b"unread".as_slice() {
        let node = node(word(text, 1));
        let payload = bytes(alloc, word(text, 2))?;
        Ok(Entry::Unread { node, payload })
    } else if name == b"refused".as_slice() {
        refused_row(alloc, text)
    } else {
        Ok(node_word_row(text))
    }
}

#[tactic(auto, unfolding(crate::specs::Reading::refused_back))]
fn refused_row(alloc: Global, text: &[u8]) -> Result<Entry, NoMemory>
    ensures { IfOk result (λ entry. entry ≡ refused_back (parts 32 text.now)) }
{
    let name = word(text, 1);
    let value = word(text, 2);
    let refusal = if name == b"unsupported".as_slice() {
        Refusal::Unsupported {
            class: class(alloc, value)?,
        }
    } else {
        refusal(name, value)
    };
    Ok(Entry::Refused { refusal })
}

#[tactic(auto, unfolding(crate::specs::Reading::refusal_back))]
fn refusal(name: &[u8], value: &[u8]) -> Refusal
    ensures { result ≡ refusal_back name.now value.now }
{
    if name == b"notjoined".as_slice() {
        Refusal::NotJoined
    } else if name == b"notinterviewed".as_slice() {
        Refusal::NotInterviewed
    } else if name == b"badvalue".as_slice() {
        Refusal::BadValue
    } else if name == b"unsupervised".as_slice() {
        Refusal::Unsupervised
    } else if name == b"secured".as_slice() {
        Refusal::Secured
    } else if name == b"alreadyjoined".as_slice() {
        Refusal::AlreadyJoined
    } else if name == b"keeperfault".as_slice() {
        Refusal::KeeperFault
    } else if name == b"neversent".as_slice() {
        Refusal::NeverSent
    } else if name == b"forgotten".as_slice() {
        Refusal::Forgotten
    } else if name == b"nodevice".as_slice() {
        Refusal::NoDevice
    } else {
        valued_refusal(name, value)
    }
}

#[tactic(auto, unfolding(crate::specs::Reading::valued_back))]
fn valued_refusal(name: &[u8], value: &[u8]) -> Refusal
    ensures { result ≡ valued_back name.now value.now }
{
    if name == b"toolong".as_slice() {
        Refusal::TooLong { bytes: two(value) }
    } else if name == b"mailboxfull".as_slice() {
        Refusal::MailboxFull {
            waiting: byte(value),
        }
    } else if name == b"storefull".as_slice() {
        Refusal::StoreFull {
            properties: two(value),
        }
    } else if name == b"queuefull".as_slice() {
        Refusal::QueueFull {
            waiting: byte(value),
        }
    } else if name == b"notwaiting".as_slice() {
        Refusal::NotWaiting {
            command: four(value),
        }
    } else if name == b"stale".as_slice() {
        Refusal::Stale {
            later: eight(value),
        }
    } else {
        Refusal::BadRecord {
            place: eight(value),
        }
    }
}

/// Rows of a node and a word.
#[tactic(auto, unfolding(crate::specs::Reading::node_word_back))]
fn node_word_row(text: &[u8]) -> Entry
    ensures { result ≡ node_word_back (parts 32 text.now) }
{
    let name = word(text, 0);
    if name == b"forget".as_slice() {
        Entry::Forget {
            first: node(word(text, 1)),
            second: node(word(text, 2)),
        }
    } else if name == b"old".as_slice() {
        Entry::Old {
            node: node(word(text, 1)),
            id: byte(word(text, 2)),
        }
    } else if name == b"done".as_slice() {
        Entry::Done {
            node: node(word(text, 1)),
            done: done(word(text, 2)),
        }
    } else if name == b"failed".as_slice() {
        Entry::Failed {
            node: node(word(text, 1)),
            failed: failed(word(text, 2)),
        }
    } else {
        node_row(text)
    }
}

/// Rows of a node alone.
#[tactic(auto, unfolding(crate::specs::Reading::node_row_back))]
fn node_row(text: &[u8]) -> Entry
    ensures { result ≡ node_row_back (parts 32 text.now) }
{
    let name = word(text, 0);
    let node = node(word(text, 1));
    if name == b"awake".as_slice() {
        Entry::Awake { node }
    } else if name == b"asleep".as_slice() {
        Entry::Asleep { node }
    } else if name == b"interviewed".as_slice() {
        Entry::Interviewed { node }
    } else if name == b"interview".as_slice() {
        Entry::InterviewFailed { node }
    } else if name == b"queuefull".as_slice() {
        Entry::QueueFull { node }
    } else if name == b"held".as_slice() {
        Entry::Held { node }
    } else if name == b"unkept".as_slice() {
        Entry::Unkept { node }
    } else {
        value_row(text)
    }
}

#[tactic(auto, unfolding(crate::specs::Reading::setting_back))]
fn setting(first: &[u8], second: &[u8]) -> Setting
    ensures { result ≡ setting_back first.now second.now }
{
    let property = property(first);
    let value = four(second);
    Setting { property, value }
}

/// Rows of a value.
#[tactic(auto, unfolding(crate::specs::Reading::value_back))]
fn value_row(text: &[u8]) -> Entry
    ensures { result ≡ value_back (parts 32 text.now) }
{
    let name = word(text, 0);
    let node = node(word(text, 1));
    if name == b"store".as_slice() {
        let setting = setting(word(text, 2), word(text, 3));
        Entry::Store { node, setting }
    } else if name == b"report".as_slice() {
        let setting = setting(word(text, 2), word(text, 3));
        Entry::Report { node, setting }
    } else if name == b"device".as_slice() {
        let setting = setting(word(text, 2), word(text, 3));
        Entry::Device { node, setting }
    } else if name == b"unstored".as_slice() {
        let property = property(word(text, 2));
        Entry::Unstored { node, property }
    } else if name == b"dev".as_slice() {
        let by = by(word(text, 2));
        let setting = setting(word(text, 3), word(text, 4));
        Entry::Dev { node, by, setting }
    } else if name == b"value".as_slice() {
        Entry::TableValue {
            node,
            property: property(word(text, 2)),
            confirmed: option(word(text, 4)),
            heard: option(word(text, 6)),
        }
    } else {
        fate_row(text)
    }
}

/// Rows of a frame.
#[tactic(auto, unfolding(crate::specs::Reading::fate_back))]
fn fate_row(text: &[u8]) -> Entry
    ensures { result ≡ fate_back (parts 32 text.now) }
{
    let name = word(text, 0);
    let frame = eight(word(text, 1));
    if name == b"heard".as_slice() {
        Entry::Heard { frame }
    } else if name == b"lost".as_slice() {
        Entry::Lost { frame }
    } else if name == b"unheard".as_slice() {
        Entry::Unheard { frame }
    } else {
        side_row(text)
    }
}

/// Rows of a side, and of the chip.
#[tactic(auto, unfolding(crate::specs::Reading::side_row_back))]
fn side_row(text: &[u8]) -> Entry
    ensures { result ≡ side_row_back (parts 32 text.now) }
{
    let name = word(text, 0);
    let side = side(word(text, 1));
    if name == b"chipfull".as_slice() {
        Entry::ChipFull
    } else if name == b"dropped".as_slice() {
        Entry::Dropped { side }
    } else if name == b"overrun".as_slice() {
        Entry::Overrun { side }
    } else if name == b"cleared".as_slice() {
        let bytes = eight(word(text, 2));
        Entry::Cleared { side, bytes }
    } else {
        command_row(text)
    }
}

/// Rows of a command, of the time and of a line.
#[tactic(auto, unfolding(crate::specs::Reading::command_back))]
fn command_row(text: &[u8]) -> Entry
    ensures { result ≡ command_back (parts 32 text.now) }
{
    let name = word(text, 0);
    if name == b"accepted".as_slice() {
        Entry::Accepted {
            command: four(word(text, 1)),
            node: node(word(text, 3)),
        }
    } else if name == b"begin".as_slice() {
        Entry::Begin {
            node: node(word(text, 1)),
            session: eight(word(text, 2)),
            command: four(word(text, 3)),
        }
    } else if name == b"out".as_slice() {
        Entry::Out {
            command: four(word(text, 1)),
            ended: ended(word(text, 2)),
        }
    } else if name == b"t".as_slice() {
        let tick = eight(word(text, 1));
        Entry::Time { tick }
    } else if name == b"end".as_slice() {
        let ticks = eight(word(text, 1));
        Entry::TableEnd { ticks }
    } else {
        Entry::BadLine {
            line: four(word(text, 1)),
            fault: fault(word(text, 2)),
        }
    }
}
