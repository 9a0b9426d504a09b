//! Reading lines.

ghost use Rattle.std.specs.Prelude.{◌≡◌, Ok, Some, IfOk, MatchOption};
ghost use Rattle.zw_words.specs.Words.{words};
ghost use Rattle.zw_words.specs.Fields.{Gives};
ghost use Rattle.zw_text.specs.Line.{IsNoLine};
ghost use Rattle.include_text.specs.Line.{IncludeText, line_at, line_by, line_from};
ghost use Rattle.include_text.specs.declared.line.IncludeLine.{IncludeLine as AnyLine};

use crate::line::word_of;
use crate::{IncludeLine, IncludeWord, LineFault, ReadLineFault};
use std::alloc::Global;
use zw_words::{last_node, last_number, open_line};

/// The least node that is added.
const LEAST_NODE: u32 = 2;

/// The most frames that one line loses.
const MOST_LOST: u32 = 1000;

/// The greatest number of a frame.
const MOST_NUMBER: u32 = 999_999_999;

/// The most ticks of one line.
const MOST_TICKS: u32 = 100_000;

/// The line that the text is, without its line feed. None stands for a text without a word, and for a remark.
pub fn read_include(_alloc: Global, text: &[u8]) -> Result<Option<IncludeLine>, ReadLineFault>
    // What is read is the text's line, or the text stands for none.
    ensures found { IfOk result (λ found. MatchOption found (IsNoLine text.now) (λ line. IncludeText text.now line)) }
    // What is the text of a line is read as that line.
    ensures only { (line : AnyLine) → IncludeText text.now line → Gives result (Ok (Some line)) }
    // Which fault it is; there was no memory only where the text is that of a line.
    ensures exact { Gives result (line_at text.now) }
{
    line_of_text(text)
}

fn line_of_text(text: &[u8]) -> Result<Option<IncludeLine>, ReadLineFault>
    ensures { Gives result (line_at text.now) }
{
    let Some((word, rest)) = open_line(text)? else {
        return Ok(None);
    };
    let line = read_words(word, rest)?;
    Ok(Some(line))
}

fn read_words(word: &[u8], rest: &[u8]) -> Result<IncludeLine, LineFault>
    ensures { result ≡ line_from word.now (words rest.now) }
{
    match word_of(word) {
        Some(word) => read_rest(word, rest),
        None => Err(LineFault::Unknown),
    }
}

/// The line with this first word that has these words after it.
#[tactic(auto, unfolding(crate::specs::Line::line_by))]
fn read_rest(word: IncludeWord, rest: &[u8]) -> Result<IncludeLine, LineFault>
    ensures { result ≡ line_by word (words rest.now) }
{
    match word {
        IncludeWord::Add => Ok(IncludeLine::Add(last_node(rest, LEAST_NODE)?)),
        IncludeWord::Reset => Ok(IncludeLine::Reset(last_node(rest, LEAST_NODE)?)),
        IncludeWord::Lose => Ok(IncludeLine::Lose(last_number(rest, 1, MOST_LOST)?)),
        IncludeWord::Repeat => Ok(IncludeLine::Repeat(u64::from(last_number(
            rest,
            1,
            MOST_NUMBER,
        )?))),
        IncludeWord::Tick => Ok(IncludeLine::Tick(last_number(rest, 1, MOST_TICKS)?)),
    }
}
