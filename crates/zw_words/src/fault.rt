//! Why a text is no line.

use thiserror::Error;
use zw_base::NoMemory;

/// What is wrong with a line (this project's own rule). The first of these that applies is the one that is named: the length, the
/// first word, the words from left to right, what stands after the last one.
#[derive(Clone, Copy, Debug, PartialEq, Eq, Error)]
pub enum LineFault {
    /// The first word is no line's word.
    #[error("unknown")]
    Unknown,
    /// A word is not there.
    #[error("missing")]
    Missing,
    /// A word is not in its form or range.
    #[error("number")]
    Number,
    /// There are words after the last one.
    #[error("extra")]
    Extra,
    /// The line has more than 1,024 bytes.
    #[error("toolong")]
    TooLong,
}

/// Why a line was not read.
#[derive(Clone, Copy, Debug, PartialEq, Eq)]
pub enum ReadLineFault {
    Bad(LineFault),
    NoMemory,
}

impl From<NoMemory> for ReadLineFault {
    ghost use Rattle.std.specs.Prelude.{◌≡◌};
    ghost use Rattle.zw_words.specs.declared.fault.ReadLineFault.TheVariants.{NoMemory as ReadNoMemory};

    ghost from_gives = { λ _ fault. fault ≡ ReadNoMemory };

    fn from(_error: NoMemory) -> ReadLineFault {
        ReadLineFault::NoMemory
    }
}

impl From<LineFault> for ReadLineFault {
    ghost use Rattle.std.specs.Prelude.{◌≡◌};
    ghost use Rattle.zw_words.specs.declared.fault.ReadLineFault.TheVariants.{Bad as ReadBad};

    ghost from_gives = { λ error fault. fault ≡ ReadBad error };

    fn from(error: LineFault) -> ReadLineFault {
        ReadLineFault::Bad(error)
    }
}
