//! The keeper of the program: over memory, or over a file.

ghost use Rattle.std.specs.Prelude.{◌≡◌};
ghost use Rattle.run_records.specs.Records.{faults_of};

use file_keeper::{DiskFile, FileKeeper};
use host_keep::{KeepFault, Keeper, PlainKeeper};
use std::alloc::Global;
use zw_base::Bytes;

/// Where the records of a run are kept. One type for both, since all that is generic over a keeper is compiled for each.
#[derive(Drop)]
pub enum Records {
    /// In memory: they end with the program.
    Memory(PlainKeeper),
    /// In a file.
    File(FileKeeper<DiskFile>),
}

impl Records {
    /// How often a record could not be kept or read, up to the greatest u64.
    pub fn faults(&self) -> u64
        ensures { result ≡ faults_of self.now }
    {
        match self {
            Records::Memory(_) => 0,
            Records::File(keeper) => keeper.faults(),
        }
    }
}

impl Keeper for Records {
    ghost use Rattle.run_records.specs.Records.{number_of, shelf_of, reads_of, told_are_all};

    ghost number = { number_of };

    ghost shelf = { shelf_of };

    ghost reads = { reads_of };

    ghost tells_all = { λ keeper told e. told_are_all keeper told e };

    fn append(&mut self, bytes: &[u8]) -> Result<(), KeepFault> {
        match self {
            Records::Memory(keeper) => keeper.append(bytes),
            Records::File(keeper) => keeper.append(bytes),
        }
    }

    fn count(&self) -> u64 {
        match self {
            Records::Memory(keeper) => keeper.count(),
            Records::File(keeper) => keeper.count(),
        }
    }

    fn read(&mut self, alloc: Global, at: u64) -> Result<Bytes, KeepFault> {
        match self {
            Records::Memory(keeper) => keeper.read(alloc, at),
            Records::File(keeper) => keeper.read(alloc, at),
        }
    }
}
