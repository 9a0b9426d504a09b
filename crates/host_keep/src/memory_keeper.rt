//! A keeper over memory, of which chosen calls fail. It serves tests.

ghost use Rattle.std.specs.Prelude.{◌≡◌, ◌↔◌, ◌+◌, ◌<◌, ◌≤◌, [], ◌∷◌, length, slice_get, false, Err, Some, IfOk, IsTrue, OnOk, OnErr, Contains};
ghost use Rattle.zw_base.specs.Faults.{Rose, raised};
ghost use Rattle.host_keep.specs.Keeping.{OptAdds, IsKeptAt};

use crate::keeper::{KeepFault, Keeper};
use std::alloc::Global;
use std::marker::Model;
use zw_base::{Bytes, List, NoMemory};

/// A keeper that tells its records, and fails at the calls of `append` and `read` whose numbers, from 1, it was given.
#[derive(Drop)]
pub struct MemoryKeeper {
    alloc: Global,
    records: List<Bytes>,
    calls: u64,
    failing: List<u64>,
    faults: u64,
    reads: u64,
}

impl Model for MemoryKeeper {
    ghost use Rattle.host_keep.specs.Shelf.{MemoryShelf};

    ghost Value = { MemoryShelf };

    ghost view = { λ k. record { records = k.records.items; calls = k.calls; failing = k.failing.items; faults = k.faults; reads = k.reads } };
}

impl MemoryKeeper {
    /// No records.
    pub fn new(alloc: Global, failing: &[u64]) -> Result<MemoryKeeper, NoMemory>
        ensures { IfOk result (λ k.
            k ≡ record { records = []; calls = 0; failing = failing.now; faults = 0; reads = 0 }) }
    {
        Ok(MemoryKeeper {
            alloc,
            records: List::new(alloc),
            calls: 0,
            failing: List::from_slice(alloc, failing)?,
            faults: 0,
            reads: 0,
        })
    }

    /// Counts a call, and answers whether it is one that is to fail, which counts as a fault.
    fn fails(&mut self) -> bool
        ensures chosen { IsTrue result ↔
            Contains self.old.failing (raised self.old.calls) }
        ensures failed { IsTrue result →
            self.new ≡ record self.old { calls = raised self.old.calls; faults = raised self.old.faults } }
        ensures called { result ≡ false →
            self.new ≡ record self.old { calls = raised self.old.calls } }
        ensures never_falls { self.old.faults ≤ self.new.faults }
    {
        self.calls = self.calls.saturating_add(1);
        let fails = self.failing.as_slice().contains(&self.calls);
        if fails {
            self.faults = self.faults.saturating_add(1);
        }
        fails
    }
}

/// A copy of the record at that place.
pub(crate) fn copy_at(alloc: Global, records: &[Bytes], at: usize) -> Result<Bytes, NoMemory>
    requires { at < length records.now }
    ensures { IfOk result (λ copy. slice_get records.now at ≡ Some copy) }
{
    Bytes::from_slice(alloc, records[at].as_slice())
}

impl Keeper for MemoryKeeper {
    ghost use Rattle.std.specs.Prelude.{Some, length};

    ghost number = { λ k. length k.records };

    ghost shelf = { λ k. record { records = Some k.records; faults = k.faults } };

    ghost reads = { λ k. k.reads };

    ghost tells_all = { λ k told e. Rattle.host_keep.specs.Keeping.length-told e };

    fn append(&mut self, bytes: &[u8]) -> Result<(), KeepFault>
        ensures added { OnOk result (length self.new.records ≡
            length self.old.records + 1) }
        ensures records { OnOk result
            (OptAdds (Some self.old.records)
            (Some self.new.records) (bytes.now ∷ [])) }
        ensures not_added { OnErr result
            (length self.new.records ≡ length self.old.records) }
        ensures unchanged { OnErr result
            (OptAdds (Some self.old.records) (Some self.new.records) []) }
        ensures reads { self.new.reads ≡ self.old.reads }
        ensures never_falls { self.old.faults ≤ self.new.faults }
        ensures failed { result ≡ Err KeepFault.Failed →
            Rose self.old.faults self.new.faults }

        // Exactly the chosen calls fail.
        ensures calls { self.new.calls ≡ raised self.old.calls }
        ensures failing { self.new.failing ≡ self.old.failing }
        ensures fails { (result ≡ Err KeepFault.Failed) ↔
            Contains self.old.failing (raised self.old.calls) }
        ensures counted { result ≡ Err KeepFault.Failed →
            self.new.faults ≡ raised self.old.faults }
    {
        if self.fails() {
            return Err(KeepFault::Failed);
        }
        let kept = Bytes::from_slice(self.alloc, bytes)?;
        self.records.push(kept)?;
        Ok(())
    }

    fn count(&self) -> u64 {
        self.records.len() as u64
    }

    fn read(&mut self, alloc: Global, at: u64) -> Result<Bytes, KeepFault>
        requires { at < length self.old.records }
        ensures found { IfOk result (λ bytes.
            IsKeptAt (Some self.old.records) at bytes) }
        ensures number { length self.new.records ≡ length self.old.records }
        ensures records { OptAdds (Some self.old.records)
            (Some self.new.records) [] }
        ensures reads { OnOk result (self.new.reads ≡ raised self.old.reads) }
        ensures not_read { OnErr result (self.new.reads ≡ self.old.reads) }
        ensures never_falls { self.old.faults ≤ self.new.faults }
        ensures failed { result ≡ Err KeepFault.Failed →
            Rose self.old.faults self.new.faults }

        // Exactly the chosen calls fail.
        ensures calls { self.new.calls ≡ raised self.old.calls }
        ensures failing { self.new.failing ≡ self.old.failing }
        ensures fails { (result ≡ Err KeepFault.Failed) ↔
            Contains self.old.failing (raised self.old.calls) }
        ensures counted { result ≡ Err KeepFault.Failed →
            self.new.faults ≡ raised self.old.faults }
    {
        if self.fails() {
            return Err(KeepFault::Failed);
        }
        let found = copy_at(alloc, self.records.as_slice(), at as usize)?;
        self.reads = self.reads.saturating_add(1);
        Ok(found)
    }
}
