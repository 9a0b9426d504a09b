//! A reader of lines.

ghost use Rattle.std.specs.Prelude.{◌≡◌, ◌+◌, ◌<◌, ◌≤◌, ◌++◌, ◌⊎◌, [], true, false, length, take, slice_index, slice_range, MatchOption, OnOk, IfErr, IsErrOf};
ghost use Rattle.std.specs.Io.KnownBytes.{IsAtEnd};
ghost use Rattle.zw_base.specs.Faults.{Rose};
ghost use Rattle.run_lines.specs.SourceLines.{nothing_read, no_line, IsOneLine, IsOpen, WantsMore, GoesFrom, Cuts, Finishes, Fills, FillFails};

use std::marker::Model;
use zw_base::{Failed, Source};

/// The most bytes of a line, without its line feed.
pub const MAX_LINE: usize = 1024;

/// The most bytes of an input.
pub const MAX_INPUT: usize = 16_777_216;

/// The most bytes that are read at a time.
pub const PIECE: usize = 4096;

/// What comes next of a source.
#[derive(Clone, Copy, Debug, PartialEq, Eq)]
pub enum Next {
    /// A line, which the reader keeps until the next call.
    Line,
    /// A line of more than 1,024 bytes.
    TooLong,
    /// The end of input: all lines were given.
    End,
    /// The source failed.
    ReadFault,
    /// The source gave more than 16,777,216 bytes. The piece in which it passed that number is in no line.
    InputTooLong,
}

/// Reads a source line by line. It keeps one piece and one unfinished line, and takes no memory.
#[derive(Drop)]
pub struct LineReader {
    piece: [u8; PIECE],
    from: usize,
    to: usize,
    text: [u8; MAX_LINE],
    line_len: usize,
    held_len: usize,
    taken: usize,
    ended: bool,
}

impl Model for LineReader {
    ghost use Rattle.std.specs.Prelude.{◌++◌, take, slice_range};
    ghost use Rattle.run_lines.specs.SourceLines.{Reading};
    ghost use Rattle.run_lines.specs.Inside.{IsReader};

    ghost Value = { Reading };

    ghost view = { λ r. record {
      line = take r.line_len r.text;
      pending = take r.held_len r.text ++ slice_range r.piece r.from r.to;
      taken = r.taken;
      ended = r.ended;
    } };

    ghost invariant = { IsReader };
}

impl LineReader {
    /// A reader that has read nothing.
    pub fn new() -> LineReader
        ensures { result ≡ nothing_read }
    {
        LineReader {
            piece: [0; PIECE],
            from: 0,
            to: 0,
            text: [0; MAX_LINE],
            line_len: 0,
            held_len: 0,
            taken: 0,
            ended: false,
        }
    }

    /// The line that the last call of `next` gave, without its line feed; empty where it gave none.
    pub fn line(&self) -> &[u8]
        ensures { result.now ≡ self.now.line }
    {
        &self.text[..self.line_len]
    }

    /// Goes on to the next line.
    pub fn next<S: Source>(&mut self, source: &mut S) -> Next
        ensures goes { GoesFrom result self.old (S.left source.old) self.new (S.left source.new) }
        ensures untouched { (source.new ≡ source.old) ⊎ WantsMore self.old [] }
        ensures never_falls { S.faults source.old ≤ S.faults source.new }
        ensures failed { result ≡ Next.ReadFault → Rose (S.faults source.old) (S.faults source.new) }
        ensures ended { self.old.ended ≡ false → self.new.ended ≡ true → IsAtEnd (S.left source.new) }
    {
        if self.taken > MAX_INPUT {
            return Next::InputTooLong;
        }
        loop {
            if let Some(found) = self.cut() {
                return found;
            }
            if self.ended {
                return self.finish();
            }
            if let Err(fault) = self.fill(source) {
                return fault;
            }
        }
    }

    /// Cuts the next line off what is pending, where its line feed is there or it is too long.
    fn cut(&mut self) -> Option<Next>
        ensures cut { MatchOption result ((self.new ≡ no_line self.old) × IsOpen self.old.pending) (λ next. Cuts next self.old self.new) }
    {
        self.line_len = 0;
        let most = MAX_LINE + 1 - self.held_len;
        let count = most.min(self.to - self.from);
        match feed_in(&self.piece[self.from..self.from + count]) {
            Some(at) => {
                append(&mut self.text, self.held_len, &self.piece, self.from, at);
                self.line_len = self.held_len + at;
                self.held_len = 0;
                self.from += at + 1;
                Some(Next::Line)
            }
            None if count == most => Some(Next::TooLong),
            None => None,
        }
    }

    /// Gives what is pending as the last line, where there is something.
    fn finish(&mut self) -> Next
        requires open { IsOpen self.old.pending }
        ensures { Finishes result self.old self.new }
    {
        let count = self.to - self.from;
        append(&mut self.text, self.held_len, &self.piece, self.from, count);
        self.line_len = self.held_len + count;
        self.held_len = 0;
        self.from = 0;
        self.to = 0;
        if self.line_len == 0 {
            Next::End
        } else {
            Next::Line
        }
    }

    /// Reads the next piece.
    fn fill<S: Source>(&mut self, source: &mut S) -> Result<(), Next>
        requires open { IsOpen self.old.pending }
        requires more { self.old.ended ≡ false }
        requires short { self.old.taken ≤ MAX_INPUT }
        ensures ok { OnOk result (Fills self.old (S.left source.old) self.new (S.left source.new) × (self.new.taken ≤ MAX_INPUT)) }
        ensures err { IfErr result (λ fault. FillFails fault self.old (S.left source.old) self.new (S.left source.new)) }
        ensures never_falls { S.faults source.old ≤ S.faults source.new }
        ensures failed { IsErrOf result Next.ReadFault → Rose (S.faults source.old) (S.faults source.new) }
        ensures ended { self.new.ended ≡ true → IsAtEnd (S.left source.new) }
    {
        let count = self.to - self.from;
        append(&mut self.text, self.held_len, &self.piece, self.from, count);
        self.line_len = 0;
        self.held_len += count;
        self.from = 0;
        self.to = 0;
        let count = match source.read(&mut self.piece) {
            Ok(count) => count,
            Err(Failed) => return Err(Next::ReadFault),
        };
        self.to = count;
        self.taken += count;
        self.ended = count == 0;
        if self.taken > MAX_INPUT {
            Err(Next::InputTooLong)
        } else {
            Ok(())
        }
    }
}

/// The place of the first line feed.
#[tactic(auto, using(crate::proofs::Feeds::feeds))]
fn feed_in(bytes: &[u8]) -> Option<usize>
    ensures { MatchOption result (IsOneLine bytes.now)
        (λ at. (at < length bytes.now) × (slice_index bytes.now at ≡ 10) × IsOneLine (take at bytes.now)) }
{
    for (at, byte) in bytes.iter().enumerate() {
        if *byte == b'\n' {
            return Some(at);
        }
    }
    None
}

/// Writes so many bytes of a piece, from that place on, after the first ones of a text.
fn append(text: &mut [u8; MAX_LINE], len: usize, piece: &[u8; PIECE], from: usize, count: usize)
    requires text { len + count ≤ MAX_LINE }
    requires piece { from + count ≤ PIECE }
    ensures { take (len + count) text.new ≡ take len text.old ++ slice_range piece.now from (from + count) }
{
    text[len..len + count].copy_from_slice(&piece[from..from + count]);
}
