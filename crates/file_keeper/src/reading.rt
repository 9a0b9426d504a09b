//! Reading the records of a store.

ghost use Rattle.std.specs.Prelude.{◌≡◌, ◌<◌, length, Err, IfOk, OnOk};
ghost use Rattle.zw_base.specs.Faults.{Rose};
ghost use Rattle.file_keeper.specs.Lines.{lines_of};
ghost use Rattle.file_keeper.specs.Holding.{IsOpenedAs, IsForeign};

use crate::lines::{could_be_record, split};
use crate::store::Store;
use host_keep::KeepFault;
use std::alloc::Global;
use zw_base::{Bytes, List, NoMemory};

/// Why a keeper was not opened. What its store holds is as before.
#[derive(Clone, Copy, Debug, PartialEq, Eq)]
pub enum OpenFault {
    /// The store failed.
    Failed,
    /// There was no memory.
    NoMemory,
    /// The store holds an end without a line feed that is not the beginning of a record.
    Foreign,
}

impl From<NoMemory> for OpenFault {
    ghost use Rattle.std.specs.Prelude.{◌≡◌};
    ghost use Rattle.file_keeper.specs.declared.reading.OpenFault.TheVariants.{NoMemory as no_memory};

    ghost from_gives = { λ _ e. e ≡ no_memory };

    fn from(_error: NoMemory) -> OpenFault {
        OpenFault::NoMemory
    }
}

/// The lines of a store, and how long they are.
#[derive(Drop)]
pub(crate) struct Found {
    pub(crate) lines: List<Bytes>,
    pub(crate) size: u64,
}

/// Reads the lines of a store, and has the store synced.
#[tactic(auto, using(crate::proofs::Drawers::size_of_lines))]
pub(crate) fn read_lines<S: Store>(alloc: Global, store: &mut S) -> Result<Found, OpenFault>
    ensures found { IfOk result (λ found. IsOpenedAs (S.held store.old) found.lines.items) }
    ensures size { IfOk result (λ found. found.size ≡ length (lines_of found.lines.items)) }
    ensures held { S.held store.new ≡ S.held store.old }
    ensures synced { OnOk result (S.synced store.new ≡ S.held store.new) }
    ensures foreign { result ≡ Err OpenFault.Foreign → IsForeign (S.held store.old) }
    ensures failed { result ≡ Err OpenFault.Failed → Rose (S.faults store.old) (S.faults store.new) }
{
    let bytes = match store.read_all(alloc) {
        Ok(bytes) => bytes,
        Err(KeepFault::Failed) => return Err(OpenFault::Failed),
        Err(KeepFault::NoMemory) => return Err(OpenFault::NoMemory),
    };
    let parts = split(alloc, bytes.as_slice())?;
    if !could_be_record(parts.torn.as_slice()) {
        return Err(OpenFault::Foreign);
    }
    if store.sync().is_err() {
        return Err(OpenFault::Failed);
    }
    let size = (bytes.len() - parts.torn.len()) as u64;
    Ok(Found {
        lines: parts.lines,
        size,
    })
}
