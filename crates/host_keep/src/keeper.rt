//! Keepers: where a host's records go, and come back from.

ghost use Rattle.std.specs.Prelude.{◌≡◌, ℕ, ◌+◌, ◌<◌, ◌≤◌, List as Items, [], ◌∷◌, Option, Some, length, IfOk, OnOk, OnErr, Err};
ghost use Rattle.zw_base.specs.Faults.{raised};
ghost use Rattle.host_keep.specs.Keeping.{Shelf, IsKeptAt, Kept, added, Adds, Fails};

use std::alloc::Global;
use zw_base::{Bytes, NoMemory};

/// Why a keeper did not do what it was asked. Its records are as before.
#[derive(Clone, Copy, PartialEq, Eq)]
pub enum KeepFault {
    /// It failed, and counted that.
    Failed,
    /// There was no memory.
    NoMemory,
}

impl From<NoMemory> for KeepFault {
    ghost use Rattle.std.specs.Prelude.{◌≡◌};
    ghost use Rattle.host_keep.specs.declared.keeper.KeepFault.TheVariants.{NoMemory as no_memory};

    ghost from_gives = { λ _ e. e ≡ no_memory };

    fn from(_error: NoMemory) -> KeepFault {
        KeepFault::NoMemory
    }
}

/// What keeps records, in the order in which they were added.
pub trait Keeper {
    /// How many records there are.
    ghost number: { Self → ℕ };

    /// The records, where the keeper tells them, and how often it failed, up to the greatest u64.
    ghost shelf: { Self → Shelf };

    /// How many records were read, up to the greatest u64.
    ghost reads: { Self → ℕ };

    /// Adds a record at the end.
    fn append(&mut self, bytes: &[u8]) -> Result<(), KeepFault>
        ensures added { OnOk result (number self.new ≡ number self.old + 1) }
        ensures records { OnOk result
            (Adds (bytes.now ∷ []) (shelf self.old) (shelf self.new)) }
        ensures not_added { OnErr result (number self.new ≡ number self.old) }
        ensures unchanged { OnErr result
            (Adds [] (shelf self.old) (shelf self.new)) }
        ensures reads { reads self.new ≡ reads self.old }
        ensures never_falls { (shelf self.old).faults ≤ (shelf self.new).faults }
        ensures failed { result ≡ Err KeepFault.Failed →
            Fails (shelf self.old) (shelf self.new) };

    /// How many records there are.
    fn count(&self) -> u64
        ensures { result ≡ number self.now };

    /// The record at that place, from 0.
    fn read(&mut self, alloc: Global, at: u64) -> Result<Bytes, KeepFault>
        requires { at < number self.old }
        ensures found { IfOk result (λ bytes.
            IsKeptAt (shelf self.old).records at bytes) }
        ensures number { number self.new ≡ number self.old }
        ensures records { Adds [] (shelf self.old) (shelf self.new) }
        ensures reads { OnOk result (reads self.new ≡ raised (reads self.old)) }
        ensures not_read { OnErr result (reads self.new ≡ reads self.old) }
        ensures never_falls { (shelf self.old).faults ≤ (shelf self.new).faults }
        ensures failed { result ≡ Err KeepFault.Failed →
            Fails (shelf self.old) (shelf self.new) };

    /// The records that are told are as many as there are.
    ghost tells_all: { (keeper : Self) (told : Items (Items ℕ)) → (shelf keeper).records ≡ Some told → number keeper ≡ length told };
}

/// Has a record kept, and answers whether it was: where it was not, the keeper failed.
pub fn keep<K: Keeper>(keeper: &mut K, bytes: &[u8]) -> Result<bool, NoMemory>
    ensures kept { IfOk result (λ kept.
        Kept kept bytes.now (K.shelf keeper.old) (K.shelf keeper.new)) }
    ensures added { IfOk result (λ kept.
        K.number keeper.new ≡ K.number keeper.old + added kept) }
    ensures unchanged { OnErr result
        (Adds [] (K.shelf keeper.old) (K.shelf keeper.new)) }
    ensures not_added { OnErr result
        (K.number keeper.new ≡ K.number keeper.old) }
    ensures reads { K.reads keeper.new ≡ K.reads keeper.old }
    ensures never_falls { (K.shelf keeper.old).faults ≤ (K.shelf keeper.new).faults }
{
    match keeper.append(bytes) {
        Ok(()) => Ok(true),
        Err(KeepFault::Failed) => Ok(false),
        Err(KeepFault::NoMemory) => Err(NoMemory),
    }
}
