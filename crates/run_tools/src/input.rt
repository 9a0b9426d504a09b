//! An input that is read whole.

ghost use Rattle.std.specs.Prelude.{◌≤◌, IfOk, IfErr, OnOk, IsErrOf};
ghost use Rattle.std.specs.Io.KnownBytes.{IsAtEnd, Consumes};
ghost use Rattle.zw_base.specs.Faults.{Rose};
ghost use Rattle.run_lines.specs.Run.{IsShort};
ghost use Rattle.run_tools.specs.Input.{StopsBy};

use run_lines::{MAX_INPUT, PIECE};
use std::alloc::Global;
use zw_base::{Bytes, Source};

/// Why an input was not read.
#[derive(Clone, Copy, Debug, PartialEq, Eq)]
pub enum InputFault {
    /// The source failed.
    Failed,
    /// It gave more than 16,777,216 bytes.
    TooLong,
    NoMemory,
}

/// Reads a source to its end.
pub fn read_input<S: Source>(alloc: Global, source: &mut S) -> Result<Bytes, InputFault>
    ensures all { IfOk result (λ input. Consumes (S.left source.old) (S.left source.new) input) }
    ensures ended { OnOk result (IsAtEnd (S.left source.new)) }
    ensures short { IfOk result (λ input. IsShort input) }
    ensures err { IfErr result (λ fault. StopsBy fault (S.left source.old) (S.left source.new)) }
    ensures never_falls { S.faults source.old ≤ S.faults source.new }
    ensures failed { IsErrOf result InputFault.Failed → Rose (S.faults source.old) (S.faults source.new) }
{
    let mut input = Bytes::new(alloc);
    while input.len() <= MAX_INPUT {
        let mut piece = [0; PIECE];
        let count = match source.read(&mut piece) {
            Ok(count) => count,
            Err(_) => return Err(InputFault::Failed),
        };
        if count == 0 {
            return Ok(input);
        }
        if input.extend(&piece[..count]).is_err() {
            return Err(InputFault::NoMemory);
        }
    }
    Err(InputFault::TooLong)
}
