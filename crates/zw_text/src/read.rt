//! Reading lines.

ghost use Rattle.std.specs.Prelude.{◌≡◌, ◌≢◌, Ok, Err, Some, IfOk, MatchOption};
ghost use Rattle.zw_words.specs.Words.{words};
ghost use Rattle.zw_words.specs.Fields.{Gives};
ghost use Rattle.zw_text.specs.Line.{IsNoLine, LineText, ReplayText, line_at, line_by, line_from, replay_at, replay_from};
ghost use Rattle.zw_text.specs.declared.line.Line.{Line as AnyLine};
ghost use Rattle.zw_text.specs.declared.line.ReplayLine.{ReplayLine as AnyReplayLine};

use crate::rows::{
    read_assoc, read_bulk, read_comfort, read_config, read_garble, read_interval, read_link,
    read_local, read_mode, read_send, read_set, read_setpoint, read_unassoc, read_unlink,
};
use crate::{Line, LineFault, LineWord, ReadLineFault, ReplayLine, is_replay_word, line_word};
use std::alloc::Global;
use zw_words::{last_hex, last_node, last_number, last_side, last_target, no_more, open_line};

/// The most ticks of one line.
const MOST_TICKS: u32 = 100_000;

/// The most bytes of a piece.
const MOST_PIECE: u32 = 4096;

/// The most ticks of a stall.
const MOST_STALL: u32 = 1000;

/// The most frames or acknowledgements that one line loses.
const MOST_LOST: u32 = 1000;

/// The greatest number of a frame or a command.
const MOST_NUMBER: u32 = 999_999_999;

/// The least node.
const LEAST_NODE: u32 = 1;

/// The most bytes of a `chip` line.
const MOST_CHIP: usize = 508;

/// The line that the text is, without its line feed. None stands for a text without a word, and for a remark.
pub fn read_line(alloc: Global, text: &[u8]) -> Result<Option<Line>, ReadLineFault>
    // What is read is the text's line, or the text stands for none.
    ensures found { IfOk result (λ found. MatchOption found (IsNoLine text.now) (λ line. LineText text.now line)) }
    // What is the text of a line is read as that line, unless there was no memory.
    ensures only { (line : AnyLine) → LineText text.now line → Gives result (Ok (Some line)) }
    // Which fault it is; there was no memory only where the text is that of a line.
    ensures exact { Gives result (line_at text.now) }
{
    line_of_text(alloc, text)
}

/// The line of `replay` that the text is, without its line feed.
pub fn read_replay(alloc: Global, text: &[u8]) -> Result<Option<ReplayLine>, ReadLineFault>
    // What is read is the text's line, or the text stands for none.
    ensures found { IfOk result (λ found. MatchOption found (IsNoLine text.now) (λ line. ReplayText text.now line)) }
    // What is the text of a line is read as that line, unless there was no memory.
    ensures only { (line : AnyReplayLine) → ReplayText text.now line → Gives result (Ok (Some line)) }
    // Which fault it is; there was no memory only where the text is that of a line.
    ensures exact { Gives result (replay_at text.now) }
{
    replay_of_text(alloc, text)
}

fn line_of_text(alloc: Global, text: &[u8]) -> Result<Option<Line>, ReadLineFault>
    ensures { Gives result (line_at text.now) }
{
    let Some((word, rest)) = open_line(text)? else {
        return Ok(None);
    };
    let line = read_words(alloc, word, rest)?;
    Ok(Some(line))
}

fn replay_of_text(alloc: Global, text: &[u8]) -> Result<Option<ReplayLine>, ReadLineFault>
    ensures { Gives result (replay_at text.now) }
{
    let Some((word, rest)) = open_line(text)? else {
        return Ok(None);
    };
    let line = read_replay_words(alloc, word, rest)?;
    Ok(Some(line))
}

fn read_words(alloc: Global, word: &[u8], rest: &[u8]) -> Result<Line, ReadLineFault>
    ensures { Gives result (line_from word.now (words rest.now)) }
{
    match line_word(word) {
        Some(word) => read_rest(alloc, word, rest),
        None => Err(ReadLineFault::Bad(LineFault::Unknown)),
    }
}

fn read_replay_words(alloc: Global, word: &[u8], rest: &[u8]) -> Result<ReplayLine, ReadLineFault>
    ensures { Gives result (replay_from word.now (words rest.now)) }
{
    if word == b"chip".as_slice() {
        let bytes = last_hex(alloc, rest, 1, MOST_CHIP)?;
        return Ok(ReplayLine::Chip { bytes });
    }
    match line_word(word) {
        Some(word) => {
            if !is_replay_word(word) {
                return Err(ReadLineFault::Bad(LineFault::Unknown));
            }
            let line = read_rest(alloc, word, rest)?;
            Ok(ReplayLine::Plain { line })
        }
        None => Err(ReadLineFault::Bad(LineFault::Unknown)),
    }
}

/// The line with this first word that has these words after it.
pub fn read_rest(alloc: Global, word: LineWord, rest: &[u8]) -> Result<Line, ReadLineFault>
    ensures { Gives result (line_by word (words rest.now)) }
{
    match word {
        LineWord::Bulk => read_bulk(alloc, rest),
        _ => Ok(read_plain(word, rest)?),
    }
}

/// The same for all lines but `bulk`, which alone takes memory.
#[tactic(auto, unfolding(crate::specs::Line::line_by))]
fn read_plain(word: LineWord, rest: &[u8]) -> Result<Line, LineFault>
    requires { word ≢ LineWord.Bulk }
    ensures { result ≡ line_by word (words rest.now) }
{
    match word {
        LineWord::Set => read_set(rest),
        LineWord::Mode => read_mode(rest),
        LineWord::Setpoint => read_setpoint(rest),
        LineWord::Comfort => read_comfort(rest),
        LineWord::Config => read_config(rest),
        LineWord::Bulk => unreachable!(),
        LineWord::Assoc => read_assoc(rest),
        LineWord::Unassoc => read_unassoc(rest),
        LineWord::Interval => read_interval(rest),
        LineWord::Garble => read_garble(rest),
        LineWord::Send => read_send(rest),
        LineWord::Link => read_link(rest),
        LineWord::Unlink => read_unlink(rest),
        LineWord::Local => read_local(rest),
        LineWord::Tick => Ok(Line::Tick {
            count: last_number(rest, 1, MOST_TICKS)?,
        }),
        LineWord::Cut => Ok(Line::Cut {
            size: last_number(rest, 0, MOST_PIECE)?,
        }),
        LineWord::Stall => Ok(Line::Stall {
            ticks: last_number(rest, 1, MOST_STALL)?,
        }),
        LineWord::Drop => Ok(Line::Drop {
            side: last_side(rest)?,
        }),
        LineWord::Collide => {
            no_more(rest)?;
            Ok(Line::Collide)
        }
        LineWord::Get => {
            let target = last_target(rest, LEAST_NODE)?;
            Ok(Line::Get {
                node: target.node,
                end: target.end,
            })
        }
        LineWord::Join => Ok(Line::Join {
            node: last_node(rest, LEAST_NODE)?,
        }),
        LineWord::Interview => Ok(Line::Interview {
            node: last_node(rest, LEAST_NODE)?,
        }),
        LineWord::Lose => Ok(Line::Lose {
            count: last_number(rest, 1, MOST_LOST)?,
        }),
        LineWord::LoseAck => Ok(Line::LoseAck {
            count: last_number(rest, 1, MOST_LOST)?,
        }),
        LineWord::Repeat => Ok(Line::Repeat {
            frame: u64::from(last_number(rest, 1, MOST_NUMBER)?),
        }),
        LineWord::Wake => Ok(Line::Wake {
            node: last_node(rest, LEAST_NODE)?,
        }),
        LineWord::Cancel => Ok(Line::Cancel {
            command: last_number(rest, 1, MOST_NUMBER)?,
        }),
        LineWord::Discover => {
            no_more(rest)?;
            Ok(Line::Discover)
        }
        LineWord::Neighbours => Ok(Line::Neighbours {
            node: last_node(rest, LEAST_NODE)?,
        }),
        LineWord::Failed => Ok(Line::Failed {
            node: last_node(rest, LEAST_NODE)?,
        }),
        LineWord::Probe => {
            no_more(rest)?;
            Ok(Line::Probe)
        }
        LineWord::Show => Ok(Line::Show {
            node: last_node(rest, LEAST_NODE)?,
        }),
        LineWord::Store => Ok(Line::Store {
            node: last_node(rest, LEAST_NODE)?,
        }),
        LineWord::Restart => {
            no_more(rest)?;
            Ok(Line::Restart)
        }
    }
}
