//! How a command of the program ends.

ghost use Rattle.std.specs.Prelude.{◌≡◌};
ghost use Rattle.run_lines.specs.Status.{code_of};

use zw_words::LineFault;

/// How a command of the program ends.
#[derive(Clone, Copy, Debug, PartialEq, Eq)]
pub enum Status {
    /// The source was read to its end where it is read at all, the job was done, and all was written.
    Ok,
    /// The words are no command.
    Usage,
    /// The line of that number, counted from 1, is invalid.
    BadLine { line: u32, fault: LineFault },
    /// The source failed.
    ReadFault,
    /// The sink failed.
    WriteFault,
    /// There was no memory.
    NoMemory,
    /// The source gave more than 16,777,216 bytes.
    InputTooLong,
    /// The text is no hex, first at that place, counted from 0.
    BadHex(u64),
    /// All words were run, and the one of that number, from 1, was refused or its command is not successful.
    Undone(u32),
    /// The keeper failed as it was read.
    KeeperFault,
    /// No host could have kept the record of that number, from 0, there.
    BadRecord(u64),
    /// The line of that number breaks a rule of transcripts.
    No(u32),
}

impl Status {
    /// The exit status of the program.
    pub fn code(self) -> u8
        ensures { result ≡ code_of self }
    {
        match self {
            Status::Ok => 0,
            Status::Usage => 2,
            Status::BadLine { .. } => 3,
            Status::ReadFault => 4,
            Status::WriteFault => 5,
            Status::NoMemory => 6,
            Status::InputTooLong => 7,
            Status::BadHex(_) => 8,
            Status::Undone(_) => 9,
            Status::KeeperFault => 10,
            Status::BadRecord(_) => 11,
            Status::No(_) => 12,
        }
    }
}
