//! How a run ends.

ghost use Rattle.std.specs.Prelude.{◌≡◌, ◌<◌, ◌^◌, length, MatchOption};
ghost use Rattle.port_run.specs.Ending.{is_done, AreDone, IsFirstUndone, unread_of, served_of, status_of, opening_status};

use crate::asking::Answer;
use crate::{LinesFault, Stop};
use host_core::{Host, OpenFault};
use run_lines::Status;
use zw_text::Outcome;
use zw_words::LineFault;

/// How a run of `host` ends.
#[derive(Clone, Copy, Debug, PartialEq, Eq)]
pub enum Served {
    /// All lines were run, none was refused, and the command of each order is a success.
    Ok,
    /// All lines were run, and the one of that number, from 1, is the first that was refused or whose command is no success.
    Undone(u32),
    /// The word of that number, from 1, is no line. No word was run.
    BadLine { line: u32, fault: LineFault },
    /// No host could start: the keeper failed, or no host could have kept the record of that place there. No word was run.
    Opening(OpenFault),
    /// The source failed.
    ReadFault,
    /// The sink failed.
    WriteFault,
    /// The source gave more than 16,777,216 bytes. The piece in which it passed that number was not taken.
    InputTooLong,
    /// There was no memory.
    NoMemory,
}

impl Served {
    /// The status with which the program ends.
    pub fn status(self) -> Status
        ensures { result ≡ status_of self }
    {
        match self {
            Served::Ok => Status::Ok,
            Served::Undone(number) => Status::Undone(number),
            Served::BadLine { line, fault } => Status::BadLine { line, fault },
            Served::Opening(fault) => opening_status(fault),
            Served::ReadFault => Status::ReadFault,
            Served::WriteFault => Status::WriteFault,
            Served::InputTooLong => Status::InputTooLong,
            Served::NoMemory => Status::NoMemory,
        }
    }
}

fn opening_status(fault: OpenFault) -> Status
    ensures { result ≡ opening_status fault }
{
    match fault {
        OpenFault::KeeperFault => Status::KeeperFault,
        OpenFault::BadRecord(at) => Status::BadRecord(at),
        OpenFault::NoMemory => Status::NoMemory,
    }
}

/// The end, where words are not lines.
pub(crate) fn unread_of(fault: LinesFault) -> Served
    ensures { result ≡ unread_of fault }
{
    match fault {
        LinesFault::Bad { line, fault } => Served::BadLine { line, fault },
        LinesFault::NoMemory => Served::NoMemory,
    }
}

/// The end, where no further step is done.
pub(crate) fn served_of(stop: Stop) -> Served
    ensures { result ≡ served_of stop }
{
    match stop {
        Stop::ReadFault => Served::ReadFault,
        Stop::WriteFault => Served::WriteFault,
        Stop::InputTooLong => Served::InputTooLong,
        Stop::NoMemory => Served::NoMemory,
    }
}

/// The number, from 1, of the first line that was refused or whose command is no success.
pub(crate) fn first_undone(host: &Host, answers: &[Answer]) -> Option<u32>
    requires { length answers.now < 2 ^ 32 }
    ensures { MatchOption result (AreDone host.now.state answers.now) (λ number. IsFirstUndone host.now.state answers.now number) }
{
    for (at, answer) in answers.iter().enumerate() {
        if !is_done(host, *answer) {
            return Some(at as u32 + 1);
        }
    }
    None
}

// Whether an answer is done for good.
fn is_done(host: &Host, answer: Answer) -> bool
    ensures { result ≡ is_done host.now.state answer }
{
    match answer {
        Answer::Taken => true,
        Answer::Command(number) => matches!(host.outcome(number), Some(Outcome::Success)),
        Answer::Refused => false,
    }
}
