//! A keeper over memory that never fails.

ghost use Rattle.std.specs.Prelude.{◌≡◌, ◌+◌, ◌<◌, ◌≤◌, [], ◌∷◌, length, Err, Some, IfOk, OnOk, OnErr};
ghost use Rattle.zw_base.specs.Faults.{Rose, raised};
ghost use Rattle.host_keep.specs.Keeping.{OptAdds, IsKeptAt};

use crate::keeper::{KeepFault, Keeper};
use crate::texts::Texts;
use std::alloc::Global;
use std::marker::Model;
use zw_base::Bytes;

/// A keeper that tells its records and never fails.
#[derive(Drop)]
pub struct PlainKeeper {
    records: Texts,
    reads: u64,
}

impl Model for PlainKeeper {
    ghost use Rattle.host_keep.specs.Shelf.{PlainShelf};

    ghost Value = { PlainShelf };

    ghost view = { λ k. record { records = k.records; reads = k.reads } };
}

impl PlainKeeper {
    /// No records. It takes no memory.
    pub fn new(alloc: Global) -> PlainKeeper
        ensures { result ≡ record { records = []; reads = 0 } }
    {
        PlainKeeper {
            records: Texts::new(alloc),
            reads: 0,
        }
    }
}

impl Keeper for PlainKeeper {
    ghost use Rattle.std.specs.Prelude.{Some, length};

    ghost number = { λ k. length k.records };

    ghost shelf = { λ k. record { records = Some k.records; faults = 0 } };

    ghost reads = { λ k. k.reads };

    ghost tells_all = { λ k told e. Rattle.host_keep.specs.Keeping.length-told e };

    fn append(&mut self, bytes: &[u8]) -> Result<(), KeepFault>
        ensures added { OnOk result (length self.new.records ≡
            length self.old.records + 1) }
        ensures records { OnOk result
            (OptAdds (Some self.old.records)
            (Some self.new.records) (bytes.now ∷ [])) }
        ensures not_added { OnErr result
            (length self.new.records ≡ length self.old.records) }
        ensures unchanged { OnErr result
            (OptAdds (Some self.old.records) (Some self.new.records) []) }
        ensures reads { self.new.reads ≡ self.old.reads }
        ensures never_falls { 0 ≤ 0 }
        ensures failed { result ≡ Err KeepFault.Failed → Rose 0 0 }
        ensures never_fails { ¬ (result ≡ Err KeepFault.Failed) }
    {
        self.records.push(bytes)?;
        Ok(())
    }

    fn count(&self) -> u64 {
        self.records.len() as u64
    }

    fn read(&mut self, alloc: Global, at: u64) -> Result<Bytes, KeepFault>
        requires { at < length self.old.records }
        ensures found { IfOk result (λ bytes.
            IsKeptAt (Some self.old.records) at bytes) }
        ensures number { length self.new.records ≡ length self.old.records }
        ensures records { OptAdds (Some self.old.records)
            (Some self.new.records) [] }
        ensures reads { OnOk result (self.new.reads ≡ raised self.old.reads) }
        ensures not_read { OnErr result (self.new.reads ≡ self.old.reads) }
        ensures never_falls { 0 ≤ 0 }
        ensures failed { result ≡ Err KeepFault.Failed → Rose 0 0 }
        ensures never_fails { ¬ (result ≡ Err KeepFault.Failed) }
    {
        let found = Bytes::from_slice(alloc, self.records.get(at as usize))?;
        self.reads = self.reads.saturating_add(1);
        Ok(found)
    }
}
