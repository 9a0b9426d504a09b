//! Lines that are read, run and answered.

ghost use Rattle.std.specs.Prelude.{◌≡◌, ◌≤◌, ◌⊎◌, [], None, length, OnOk, IfErr, IsErrOf};
ghost use Rattle.std.specs.Io.KnownBytes.{Appends};
ghost use Rattle.zw_base.specs.Faults.{Rose};
ghost use Rattle.run_lines.specs.Machine.{borrowed};
ghost use Rattle.run_lines.specs.Run.{LinesRan};
ghost use Rattle.run_lines.specs.Text.{TextRan, TextFails, end_of, end_at};
ghost use Rattle.run_lines.specs.Writing.{text_of};

use crate::writing::write_pieces;
use crate::{Answer, LineReader, Machine, Next};
use std::alloc::Global;
use zw_base::{Sink, Source};
use zw_words::{LineFault, ReadLineFault};

/// Why no further line is run.
#[derive(Clone, Copy, Debug, PartialEq, Eq)]
pub enum LinesEnd {
    /// All lines were run.
    All,
    /// The line of that number, counted from 1, is invalid.
    Bad { line: u32, fault: LineFault },
    /// The source failed.
    ReadFailed,
    /// The source gave more than 16,777,216 bytes.
    TooMuch,
    /// The sink failed.
    WriteFailed,
    /// There was no memory, or no number for a further line.
    NoMemory,
}

/// Why the text of a line was not run, or not answered.
#[derive(Clone, Copy, Debug, PartialEq, Eq)]
pub enum TextFault {
    /// The text is no line.
    Bad(LineFault),
    /// The sink failed.
    Write,
    /// There was no memory.
    NoMemory,
}

/// Runs the lines of a source one after another, each as soon as it was read, and writes each answer before it goes on.
pub(crate) fn run_lines<A, B, M: Machine<A, B>, S: Source, K: Sink>(
    alloc: Global,
    source: &mut S,
    sink: &mut K,
    machine: &mut M,
    first: &mut A,
    second: &mut B,
) -> LinesEnd
    ensures ran { LinesRan result M.refuses M.runs M.stops (S.left source.old) (S.left source.new)
        (borrowed machine.old first.old second.old) (borrowed machine.new first.new second.new) (K.written sink.old) (K.written sink.new) }
    ensures source_never_falls { S.faults source.old ≤ S.faults source.new }
    ensures sink_never_falls { K.faults sink.old ≤ K.faults sink.new }
    ensures read_fault { result ≡ LinesEnd.ReadFailed → Rose (S.faults source.old) (S.faults source.new) }
    ensures write_fault { result ≡ LinesEnd.WriteFailed → Rose (K.faults sink.old) (K.faults sink.new) }
{
    let mut reader = LineReader::new();
    let mut pieces = Answer::new(alloc);
    for number in 1..u32::MAX {
        match reader.next(source) {
            Next::Line => pieces.clear(),
            next => return end_of(next, number),
        }
        match run_text(sink, machine, first, second, reader.line(), &mut pieces) {
            Ok(()) => {}
            Err(fault) => return end_at(fault, number),
        }
    }
    LinesEnd::NoMemory
}

/// Why no further line is run, where the reader gave none and the line of that number would have been next.
pub fn end_of(next: Next, number: u32) -> LinesEnd
    ensures { result ≡ end_of next number }
{
    match next {
        Next::TooLong => LinesEnd::Bad {
            line: number,
            fault: LineFault::TooLong,
        },
        Next::ReadFault => LinesEnd::ReadFailed,
        Next::InputTooLong => LinesEnd::TooMuch,
        Next::Line | Next::End => LinesEnd::All,
    }
}

/// Why no further line is run after that line.
pub fn end_at(fault: TextFault, number: u32) -> LinesEnd
    ensures { result ≡ end_at fault number }
{
    match fault {
        TextFault::Bad(fault) => LinesEnd::Bad {
            line: number,
            fault,
        },
        TextFault::Write => LinesEnd::WriteFailed,
        TextFault::NoMemory => LinesEnd::NoMemory,
    }
}

/// Runs the text of a line and writes the answer, each piece of it at once.
fn run_text<A, B, M: Machine<A, B>, K: Sink>(
    sink: &mut K,
    machine: &mut M,
    first: &mut A,
    second: &mut B,
    text: &[u8],
    pieces: &mut Answer,
) -> Result<(), TextFault>
    requires short { length text.now ≤ 1024 }
    requires empty { pieces.old.items ≡ [] }
    ensures is_line { OnOk result (M.refuses text.now ≡ None) }
    ensures ok { OnOk result (TextRan M.runs (borrowed machine.old first.old second.old) text.now
        (borrowed machine.new first.new second.new) (Appends (K.written sink.old) (K.written sink.new))) }
    ensures err { IfErr result (λ fault. TextFails fault M.runs M.stops (M.refuses text.now) (borrowed machine.old first.old second.old) text.now
        (borrowed machine.new first.new second.new) (K.written sink.old) (K.written sink.new)) }
    ensures never_falls { K.faults sink.old ≤ K.faults sink.new }
    ensures failed { IsErrOf result TextFault.Write → Rose (K.faults sink.old) (K.faults sink.new) }
    ensures told { IsErrOf result TextFault.NoMemory → Rose (K.faults sink.old) (K.faults sink.new)
        ⊎ Appends (K.written sink.old) (K.written sink.new) (text_of pieces.new.items) }
{
    match machine.run_line(first, second, text, pieces) {
        Ok(()) => match write_pieces(sink, pieces) {
            Ok(()) => Ok(()),
            Err(_) => Err(TextFault::Write),
        },
        Err(ReadLineFault::Bad(fault)) => Err(TextFault::Bad(fault)),
        Err(ReadLineFault::NoMemory) => {
            let _ = write_pieces(sink, pieces);
            Err(TextFault::NoMemory)
        }
    }
}
