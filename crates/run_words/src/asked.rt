//! What the words ask for.

use std::alloc::AllocError;
use zw_words::Side;

/// What is printed where the words are no command.
pub const USAGE: &str =
    "usage: zwave_console sim [--quiet] | check [--from host|chip] | generate N | replay | events | include | host LINE.. | audit";

/// A command of the program.
#[derive(Clone, Copy, Debug, PartialEq, Eq)]
pub enum Asked {
    /// Run a scenario; a quiet one enters no units and no frames.
    Sim { quiet: bool },
    /// Say what bytes from that side are.
    Check { from: Side },
    /// Make a scenario of so many hundred commands, 1 to 50, and run it.
    Generate { hundreds: u8 },
    /// Run the host alone.
    Replay,
    /// Run the reports of devices.
    Events,
    /// Add a node.
    Include,
    /// Drive a port by the lines that the words after the first are, 1 to 256 of them.
    Host,
    /// Judge a transcript.
    Audit,
}

/// Why words ask for nothing.
#[derive(Clone, Copy, Debug, PartialEq, Eq)]
pub enum WordsFault {
    /// They are no command.
    Usage,
    NoMemory,
}

impl From<AllocError> for WordsFault {
    ghost use Rattle.std.specs.Prelude.{◌≡◌};
    ghost use Rattle.run_words.specs.declared.asked.WordsFault.TheVariants.{NoMemory as no_memory};

    ghost from_gives = { λ _ fault. fault ≡ no_memory };

    fn from(_error: AllocError) -> WordsFault {
        WordsFault::NoMemory
    }
}
