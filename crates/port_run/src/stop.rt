//! Why a run does not come to its end.

use zw_base::NoMemory;

/// Why no further step is done.
#[derive(Clone, Copy, Debug, PartialEq, Eq)]
pub enum Stop {
    /// The source failed.
    ReadFault,
    /// The sink failed.
    WriteFault,
    /// The source gave more than 16,777,216 bytes.
    InputTooLong,
    /// There was no memory.
    NoMemory,
}

impl From<NoMemory> for Stop {
    ghost use Rattle.std.specs.Prelude.{◌≡◌};
    ghost use Rattle.port_run.specs.declared.stop.Stop.TheVariants.{NoMemory as no_memory};

    ghost from_gives = { λ _ stop. stop ≡ no_memory };

    fn from(_error: NoMemory) -> Stop {
        Stop::NoMemory
    }
}
