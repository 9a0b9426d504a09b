//! Reading the words after `host`, of which each is a line.

ghost use Rattle.std.specs.Prelude.{◌≡◌, ◌^◌, ◌<◌, length, IfOk, IfErr};
ghost use Rattle.zw_words.specs.Words.{words};
ghost use Rattle.zw_words.specs.Fields.{Gives};
ghost use Rattle.port_run.specs.Lines.{port_at, port_from, wanted_at, IsWanted, is_served, texts_of, AreRead, FailsBy};

use std::alloc::Global;
use zw_base::{List, NoMemory};
use zw_text::{Line, LineWord, line_word, read_rest};
use zw_words::{LineFault, ReadLineFault, last_number, open_line};

/// The most ticks of one wait.
const MOST_TICKS: u32 = 100_000;

/// A line of `host` (this project's own).
#[derive(Drop)]
pub enum PortLine {
    /// An order, `send`, `get`, `join`, `interview` or `probe`.
    Plain { line: Line },
    /// `wait K`: the port is read until so many ticks of 100 ms have passed, 1 to 100,000.
    Wait { ticks: u32 },
}

/// Why words are not lines.
#[derive(Clone, Copy, Debug, PartialEq, Eq)]
pub enum LinesFault {
    /// The word of that number, from 1, is no line.
    Bad { line: u32, fault: LineFault },
    NoMemory,
}

impl From<NoMemory> for LinesFault {
    ghost use Rattle.std.specs.Prelude.{◌≡◌};
    ghost use Rattle.port_run.specs.declared.line.LinesFault.TheVariants.{NoMemory as no_memory};

    ghost from_gives = { λ _ fault. fault ≡ no_memory };

    fn from(_error: NoMemory) -> LinesFault {
        LinesFault::NoMemory
    }
}

/// The line of `host` that the text is. None stands for a text without a word, and for a remark.
pub fn read_port(alloc: Global, text: &[u8]) -> Result<Option<PortLine>, ReadLineFault>
    // What the text is read as, or its first fault; there was no memory only where it is that of a line.
    ensures { Gives result (port_at text.now) }
{
    let Some((word, rest)) = open_line(text)? else {
        return Ok(None);
    };
    let line = read_words(alloc, word, rest)?;
    Ok(Some(line))
}

// The line with this first word that has these words after it.
fn read_words(alloc: Global, word: &[u8], rest: &[u8]) -> Result<PortLine, ReadLineFault>
    ensures { Gives result (port_from word.now (words rest.now)) }
{
    if word == b"wait".as_slice() {
        let ticks = last_number(rest, 1, MOST_TICKS)?;
        return Ok(PortLine::Wait { ticks });
    }
    match line_word(word) {
        Some(word) => {
            if !is_served(word) {
                return Err(ReadLineFault::Bad(LineFault::Unknown));
            }
            let line = read_rest(alloc, word, rest)?;
            Ok(PortLine::Plain { line })
        }
        None => Err(ReadLineFault::Bad(LineFault::Unknown)),
    }
}

// Whether lines that begin with the word are lines of `host` too: orders, and what is asked of the host.
fn is_served(word: LineWord) -> bool
    ensures { result ≡ is_served word }
{
    matches!(
        word,
        LineWord::Set
            | LineWord::Mode
            | LineWord::Setpoint
            | LineWord::Comfort
            | LineWord::Config
            | LineWord::Bulk
            | LineWord::Assoc
            | LineWord::Unassoc
            | LineWord::Interval
            | LineWord::Send
            | LineWord::Get
            | LineWord::Join
            | LineWord::Interview
            | LineWord::Probe
    )
}

/// The lines that the words are.
pub(crate) fn read_lines(alloc: Global, texts: &[String]) -> Result<List<PortLine>, LinesFault>
    ensures read { IfOk result (λ lines. AreRead (texts_of texts.now) lines.items) }
    ensures few { IfOk result (λ lines. length lines.items < 2 ^ 32) }
    ensures err { IfErr result (λ fault. FailsBy fault (texts_of texts.now)) }
{
    let mut lines = List::new(alloc);
    for (at, text) in texts.iter().enumerate() {
        let Ok(number) = u32::try_from(at + 1) else {
            return Err(LinesFault::NoMemory);
        };
        match read_wanted(alloc, text.as_bytes()) {
            Ok(line) => lines.push(line)?,
            Err(ReadLineFault::Bad(fault)) => {
                return Err(LinesFault::Bad {
                    line: number,
                    fault,
                });
            }
            Err(ReadLineFault::NoMemory) => return Err(LinesFault::NoMemory),
        }
    }
    Ok(lines)
}

// The line that the text is, which has to have a word.
fn read_wanted(alloc: Global, text: &[u8]) -> Result<PortLine, ReadLineFault>
    ensures { IsWanted result (wanted_at text.now) }
{
    match read_port(alloc, text) {
        Ok(Some(line)) => Ok(line),
        Ok(None) => Err(ReadLineFault::Bad(LineFault::Missing)),
        Err(ReadLineFault::Bad(fault)) => Err(ReadLineFault::Bad(fault)),
        Err(ReadLineFault::NoMemory) => Err(ReadLineFault::NoMemory),
    }
}
