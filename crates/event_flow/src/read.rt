//! Reading lines.

ghost use Rattle.std.specs.Prelude.{◌≡◌, Ok, Some, IfOk, MatchOption};
ghost use Rattle.zw_words.specs.Words.{words};
ghost use Rattle.zw_words.specs.Fields.{Gives};
ghost use Rattle.zw_text.specs.Line.{IsNoLine};
ghost use Rattle.event_flow.specs.Line.{EventText, again_by, deliver_by, event_at, event_by, event_from};
ghost use Rattle.event_flow.specs.declared.line.EventLine.{EventLine as AnyLine};

use crate::{EventLine, LineFault, ReadLineFault};
use std::alloc::Global;
use zw_words::{last_node, last_number, open_line, take_node, take_number};

/// The least node of a device.
const LEAST_DEVICE: u32 = 2;

/// The greatest byte.
const MOST_BYTE: u32 = 255;

/// The greatest number of a frame.
const MOST_FRAME: u32 = 999_999_999;

/// The line that the text is, without its line feed. None stands for a text without a word, and for a remark. It takes no
/// memory.
pub fn read_event(_alloc: Global, text: &[u8]) -> Result<Option<EventLine>, ReadLineFault>
    // What is read is the text's line, or the text stands for none.
    ensures found { IfOk result (λ found. MatchOption found (IsNoLine text.now) (λ line. EventText text.now line)) }
    // What is the text of a line is read as that line.
    ensures only { (line : AnyLine) → EventText text.now line → Gives result (Ok (Some line)) }
    // Which fault it is; there was no memory only where the text is that of a line.
    ensures exact { Gives result (event_at text.now) }
{
    read_text(text)
}

fn read_text(text: &[u8]) -> Result<Option<EventLine>, ReadLineFault>
    ensures { Gives result (event_at text.now) }
{
    let found = line_of_text(text)?;
    Ok(found)
}

fn line_of_text(text: &[u8]) -> Result<Option<EventLine>, LineFault>
    ensures { result ≡ event_at text.now }
{
    let Some((word, rest)) = open_line(text)? else {
        return Ok(None);
    };
    let line = read_words(word, rest)?;
    Ok(Some(line))
}

fn read_words(word: &[u8], rest: &[u8]) -> Result<EventLine, LineFault>
    ensures { result ≡ event_from word.now (words rest.now) }
{
    if word == b"event".as_slice() {
        read_event_words(rest)
    } else if word == b"again".as_slice() {
        read_again(rest)
    } else if word == b"deliver".as_slice() {
        read_deliver(rest)
    } else {
        Err(LineFault::Unknown)
    }
}

/// `N T L`.
#[tactic(auto, unfolding(crate::specs::Line::event_by))]
fn read_event_words(mut text: &[u8]) -> Result<EventLine, LineFault>
    ensures { result ≡ event_by (words text.now) }
{
    let node = take_node(&mut text, LEAST_DEVICE)?;
    let kind = take_number(&mut text, 0, MOST_BYTE)?;
    let level = last_number(text, 0, MOST_BYTE)?;
    Ok(EventLine::Event {
        node,
        kind: kind as u8,
        level: level as u8,
    })
}

/// `N`.
#[tactic(auto, unfolding(crate::specs::Line::again_by))]
fn read_again(text: &[u8]) -> Result<EventLine, LineFault>
    ensures { result ≡ again_by (words text.now) }
{
    let node = last_node(text, LEAST_DEVICE)?;
    Ok(EventLine::Again(node))
}

/// `I`.
#[tactic(auto, unfolding(crate::specs::Line::deliver_by))]
fn read_deliver(text: &[u8]) -> Result<EventLine, LineFault>
    ensures { result ≡ deliver_by (words text.now) }
{
    let frame = last_number(text, 1, MOST_FRAME)?;
    Ok(EventLine::Deliver(u64::from(frame)))
}
