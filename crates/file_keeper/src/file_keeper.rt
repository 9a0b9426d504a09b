//! The keeper over a store.

ghost use Rattle.std.specs.Prelude.{◌≡◌, ◌↔◌, ◌+◌, ◌<◌, ◌≤◌, ◌⊎◌, [], ◌∷◌, ◌++◌, length, true, false, Err, Some, IfOk, OnOk, OnErr};
ghost use Rattle.zw_base.specs.Faults.{Rose, raised};
ghost use Rattle.host_keep.specs.Keeping.{OptAdds, IsKeptAt};
ghost use Rattle.file_keeper.specs.Lines.{IsOneLine, line_of};
ghost use Rattle.file_keeper.specs.Holding.{HasLines, IsKept, IsOpenedAs, IsForeign};

use crate::lines::{is_one_line, line_of};
use crate::reading::{OpenFault, read_lines};
use crate::store::Store;
use crate::writing::{Written, write};
use host_keep::{KeepFault, Keeper};
use std::alloc::Global;
use std::marker::Model;
use zw_base::{Bytes, List, NoMemory};

/// A keeper that holds its records in memory, and their lines in a store. It tells its records.
#[derive(Drop)]
pub struct FileKeeper<S: Store> {
    alloc: Global,
    store: S,
    is_open: bool,
    records: List<Bytes>,
    size: u64,
    faults: u64,
    reads: u64,
}

impl<S: Store> Model for FileKeeper<S> {
    ghost use Rattle.file_keeper.specs.Drawer.{Drawer};
    ghost use Rattle.file_keeper.specs.Inside.{IsDrawer};

    ghost Value = { Drawer S };

    ghost view = { λ k. record { store = k.store; is_open = k.is_open; records = k.records.items; faults = k.faults; reads = k.reads } };

    ghost invariant = { λ k. IsDrawer (S.held k.store) (S.synced k.store) k.is_open k.records.items k.size };
}

impl<S: Store> FileKeeper<S> {
    /// A keeper with no records, that is to be opened. It does not allocate.
    #[tactic(auto, using(crate::proofs::Drawers::drawer_new))]
    pub fn new(alloc: Global, store: S) -> FileKeeper<S>
        ensures { result ≡ record { store = store; is_open = false; records = []; faults = 0; reads = 0 } }
    {
        FileKeeper {
            alloc,
            store,
            is_open: false,
            records: List::new(alloc),
            size: 0,
            faults: 0,
            reads: 0,
        }
    }

    /// Reads the records from the store. Nothing is written: an end without a line feed is cut off by the next `append`.
    #[tactic(auto, using(crate::proofs::Drawers::drawer_opened, crate::proofs::Drawers::drawer_closed, crate::proofs::Drawers::drawer_kept))]
    pub fn open(&mut self) -> Result<(), OpenFault>
        ensures open { OnOk result (self.new.is_open ≡ true) }
        ensures records { OnOk result (IsOpenedAs (S.held self.old.store) self.new.records) }
        ensures kept { OnOk result (IsKept (S.held self.new.store) (S.synced self.new.store) self.new.records) }
        ensures closed { OnErr result (self.new.is_open ≡ false) }
        ensures foreign { result ≡ Err OpenFault.Foreign → IsForeign (S.held self.old.store) }
        ensures unread { OnErr result (self.new.records ≡ self.old.records) }
        ensures held { S.held self.new.store ≡ S.held self.old.store }
        ensures failed { result ≡ Err OpenFault.Failed → Rose (S.faults self.old.store) (S.faults self.new.store) }
        ensures counted { result ≡ Err OpenFault.Failed → self.new.faults ≡ raised self.old.faults }
        ensures uncounted { ¬ (result ≡ Err OpenFault.Failed) → self.new.faults ≡ self.old.faults }
        ensures reads { self.new.reads ≡ self.old.reads }
    {
        self.is_open = false;
        match read_lines(self.alloc, &mut self.store) {
            Ok(found) => {
                self.records = found.lines;
                self.size = found.size;
                self.is_open = true;
                Ok(())
            }
            Err(OpenFault::Failed) => {
                self.faults = self.faults.saturating_add(1);
                Err(OpenFault::Failed)
            }
            Err(fault) => Err(fault),
        }
    }

    /// How often it failed, up to the greatest u64.
    pub fn faults(&self) -> u64
        ensures { result ≡ self.now.faults }
    {
        self.faults
    }

    /// The store, which is given back.
    pub fn into_store(self) -> S
        ensures { result ≡ self.store }
    {
        let FileKeeper { store, .. } = self;
        store
    }

    // Counts a fault.
    #[tactic(auto, using(crate::proofs::Drawers::drawer_kept))]
    fn fail(&mut self) -> KeepFault
        ensures fault { result ≡ KeepFault.Failed }
        ensures counted { self.new ≡ record self.old { faults = raised self.old.faults } }
        ensures kept { self.new.is_open ≡ true → IsKept (S.held self.new.store) (S.synced self.new.store) self.new.records }
    {
        self.faults = self.faults.saturating_add(1);
        KeepFault::Failed
    }

    // Has the record's line written, and answers whether it was.
    #[tactic(auto, using(crate::proofs::Drawers::writing))]
    fn put(&mut self, text: Bytes, line: &[u8]) -> Result<bool, NoMemory>
        requires one { IsOneLine text }
        requires line { line.now ≡ line_of text }
        requires open { self.old.is_open ≡ true }
        ensures added { IfOk result (λ kept. kept ≡ true → self.new.records ≡ self.old.records ++ text ∷ []) }
        ensures lines { IfOk result (λ kept. kept ≡ true → HasLines (S.held self.new.store) (S.synced self.new.store) self.new.records) }
        ensures not_added { IfOk result (λ kept. kept ≡ false → self.new.records ≡ self.old.records) }
        ensures failed { IfOk result (λ kept. kept ≡ false → Rose (S.faults self.old.store) (S.faults self.new.store)) }
        ensures no_memory { OnErr result (self.new ≡ self.old) }
        ensures others { (self.new.faults ≡ self.old.faults) × (self.new.reads ≡ self.old.reads) }
    {
        let Some(size) = self.size.checked_add(line.len() as u64) else {
            return Err(NoMemory);
        };
        self.records.reserve(1)?;
        match write(&mut self.store, self.size, line) {
            Written::Whole => {
                self.records.put(text);
                self.size = size;
                Ok(true)
            }
            Written::Undone => Ok(false),
            Written::Unknown => {
                self.is_open = false;
                Ok(false)
            }
        }
    }
}

impl<S: Store> Keeper for FileKeeper<S> {
    ghost use Rattle.std.specs.Prelude.{Some, length};

    ghost number = { λ k. length k.records };

    ghost shelf = { λ k. record { records = Some k.records; faults = k.faults } };

    ghost reads = { λ k. k.reads };

    ghost tells_all = { λ k told e. Rattle.host_keep.specs.Keeping.length-told e };

    #[tactic(auto, using(crate::proofs::Drawers::drawer_kept))]
    fn append(&mut self, bytes: &[u8]) -> Result<(), KeepFault>
        ensures added { OnOk result (length self.new.records ≡ length self.old.records + 1) }
        ensures records { OnOk result (OptAdds (Some self.old.records) (Some self.new.records) (bytes.now ∷ [])) }
        ensures not_added { OnErr result (length self.new.records ≡ length self.old.records) }
        ensures unchanged { OnErr result (OptAdds (Some self.old.records) (Some self.new.records) []) }
        ensures reads { self.new.reads ≡ self.old.reads }
        ensures never_falls { self.old.faults ≤ self.new.faults }
        ensures failed { result ≡ Err KeepFault.Failed → Rose self.old.faults self.new.faults }

        // At Ok the store holds the lines of the records and nothing else, and has synced that.
        ensures lines { OnOk result (HasLines (S.held self.new.store) (S.synced self.new.store) self.new.records) }
        // While the keeper is open no opening finds other records than its own.
        ensures kept { self.new.is_open ≡ true → IsKept (S.held self.new.store) (S.synced self.new.store) self.new.records }
        ensures closed { self.old.is_open ≡ false → (result ≡ Err KeepFault.Failed) × (self.new ≡ record self.old { faults = raised self.old.faults }) }
        ensures refused { ¬ IsOneLine bytes.now → (result ≡ Err KeepFault.Failed) × (self.new ≡ record self.old { faults = raised self.old.faults }) }
        ensures why { result ≡ Err KeepFault.Failed →
            (self.old.is_open ≡ false) ⊎ ((¬ IsOneLine bytes.now) ⊎ Rose (S.faults self.old.store) (S.faults self.new.store)) }
        ensures counted { result ≡ Err KeepFault.Failed → self.new.faults ≡ raised self.old.faults }
        ensures uncounted { OnOk result (self.new.faults ≡ self.old.faults) }
        ensures no_memory { result ≡ Err KeepFault.NoMemory → self.new ≡ self.old }
    {
        if !self.is_open || !is_one_line(bytes) {
            return Err(self.fail());
        }
        let text = Bytes::from_slice(self.alloc, bytes)?;
        let line = line_of(self.alloc, bytes)?;
        if self.put(text, line.as_slice())? {
            return Ok(());
        }
        Err(self.fail())
    }

    fn count(&self) -> u64 {
        self.records.len() as u64
    }

    fn read(&mut self, alloc: Global, at: u64) -> Result<Bytes, KeepFault>
        requires { at < length self.old.records }
        ensures found { IfOk result (λ bytes. IsKeptAt (Some self.old.records) at bytes) }
        ensures number { length self.new.records ≡ length self.old.records }
        ensures records { OptAdds (Some self.old.records) (Some self.new.records) [] }
        ensures reads { OnOk result (self.new.reads ≡ raised self.old.reads) }
        ensures not_read { OnErr result (self.new.reads ≡ self.old.reads) }
        ensures never_falls { self.old.faults ≤ self.new.faults }
        ensures failed { result ≡ Err KeepFault.Failed → Rose self.old.faults self.new.faults }

        // It fails exactly where the keeper is not open.
        ensures fails { (result ≡ Err KeepFault.Failed) ↔ (self.old.is_open ≡ false) }
        ensures counted { result ≡ Err KeepFault.Failed → self.new.faults ≡ raised self.old.faults }
        ensures same { (self.new.store ≡ self.old.store) × (self.new.is_open ≡ self.old.is_open) }
    {
        if !self.is_open {
            return Err(self.fail());
        }
        let found = Bytes::from_slice(alloc, self.records.as_slice()[at as usize].as_slice())?;
        self.reads = self.reads.saturating_add(1);
        Ok(found)
    }
}
