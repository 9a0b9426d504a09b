//! A store over memory, of which chosen calls fail. It serves tests.

ghost use Rattle.std.specs.Prelude.{◌≡◌, ◌↔◌, ◌<◌, ◌≤◌, Err, Some, IfOk, OnOk, OnErr, IsErr, IsTrue, Contains};
ghost use Rattle.std.specs.Io.KnownBytes.{append_known};
ghost use Rattle.zw_base.specs.Faults.{Rose, raised};
ghost use Rattle.file_keeper.specs.Holding.{Holds, AppendsSome, IsWithin, cut_known};

use crate::store::Store;
use host_keep::KeepFault;
use std::alloc::Global;
use std::marker::Model;
use zw_base::{Bytes, Failed, List, NoMemory};

/// A store that tells its bytes, and fails at the calls whose numbers, from 1, it was given. A call that runs out of memory is a
/// fault too; an `append` that was to fail has added the first half of its bytes.
#[derive(Drop)]
pub struct MemoryStore {
    alloc: Global,
    held: Bytes,
    synced: Bytes,
    calls: u64,
    failing: List<u64>,
    faults: u64,
}

impl Model for MemoryStore {
    ghost use Rattle.file_keeper.specs.Drawer.{Sheet};

    ghost Value = { Sheet };

    ghost view = { λ s. record { held = s.held; synced = s.synced; calls = s.calls; failing = s.failing.items; faults = s.faults } };
}

impl MemoryStore {
    /// A store that holds these bytes, and has synced them.
    pub fn new(alloc: Global, bytes: &[u8], failing: &[u64]) -> Result<MemoryStore, NoMemory>
        ensures { IfOk result (λ s. s ≡ record { held = bytes.now; synced = bytes.now; calls = 0; failing = failing.now; faults = 0 }) }
    {
        Ok(MemoryStore {
            alloc,
            held: Bytes::from_slice(alloc, bytes)?,
            synced: Bytes::from_slice(alloc, bytes)?,
            calls: 0,
            failing: List::from_slice(alloc, failing)?,
            faults: 0,
        })
    }

    /// The bytes that it holds.
    pub fn bytes(&self) -> &[u8]
        ensures { result.now ≡ self.now.held }
    {
        self.held.as_slice()
    }

    // Counts a call, and answers whether it is one that is to fail.
    fn fails(&mut self) -> bool
        ensures chosen { IsTrue result ↔ Contains self.old.failing (raised self.old.calls) }
        ensures called { self.new ≡ record self.old { calls = raised self.old.calls } }
    {
        self.calls = self.calls.saturating_add(1);
        self.failing.as_slice().contains(&self.calls)
    }

    // Adds the first half of the bytes, if there is memory, and counts a fault.
    fn tear(&mut self, bytes: &[u8]) -> Result<(), Failed>
        ensures failed { OnOk result ⊥ }
        ensures torn { AppendsSome (Some self.old.held) (Some self.new.held) bytes.now }
        ensures others { self.new ≡ record self.old { held = self.new.held; faults = raised self.old.faults } }
        ensures never_falls { self.old.faults ≤ self.new.faults }
    {
        add_half(&mut self.held, bytes);
        Err(self.fail())
    }

    // Counts a fault.
    fn fail(&mut self) -> Failed
        ensures counted { self.new ≡ record self.old { faults = raised self.old.faults } }
        ensures never_falls { self.old.faults ≤ self.new.faults }
    {
        self.faults = self.faults.saturating_add(1);
        Failed
    }
}

// Adds the first half of the bytes, if there is memory.
#[tactic(auto, using(crate::proofs::Written::prefix_added, crate::proofs::Written::nothing_added))]
fn add_half(held: &mut Bytes, bytes: &[u8])
    ensures { AppendsSome (Some held.old) (Some held.new) bytes.now }
{
    if held.extend(&bytes[..bytes.len() / 2]).is_err() {
        return;
    }
}

impl Store for MemoryStore {
    ghost use Rattle.std.specs.Prelude.{Some};

    ghost held = { λ s. Some s.held };

    ghost synced = { λ s. Some s.synced };

    ghost faults = { λ s. s.faults };

    fn read_all(&mut self, alloc: Global) -> Result<Bytes, KeepFault>
        ensures found { IfOk result (λ bytes. Holds (Some self.old.held) bytes) }
        ensures held { Some self.new.held ≡ Some self.old.held }
        ensures never_falls { self.old.faults ≤ self.new.faults }
        ensures failed { result ≡ Err KeepFault.Failed → Rose self.old.faults self.new.faults }

        // Exactly the chosen calls fail.
        ensures calls { self.new.calls ≡ raised self.old.calls }
        ensures failing { self.new.failing ≡ self.old.failing }
        ensures fails { (result ≡ Err KeepFault.Failed) ↔ Contains self.old.failing (raised self.old.calls) }
    {
        if self.fails() {
            let Failed = self.fail();
            return Err(KeepFault::Failed);
        }
        let copy = Bytes::from_slice(alloc, self.held.as_slice())?;
        Ok(copy)
    }

    fn append(&mut self, bytes: &[u8]) -> Result<(), Failed>
        ensures added { OnOk result (Some self.new.held ≡ append_known (Some self.old.held) bytes.now) }
        ensures torn { OnErr result (AppendsSome (Some self.old.held) (Some self.new.held) bytes.now) }
        ensures never_falls { self.old.faults ≤ self.new.faults }
        ensures failed { OnErr result (Rose self.old.faults self.new.faults) }

        // The chosen calls fail, and others that run out of memory.
        ensures calls { self.new.calls ≡ raised self.old.calls }
        ensures failing { self.new.failing ≡ self.old.failing }
        ensures fails { Contains self.old.failing (raised self.old.calls) → IsErr result }
    {
        if self.fails() {
            return self.tear(bytes);
        }
        match self.held.extend(bytes) {
            Ok(()) => Ok(()),
            Err(NoMemory) => Err(self.fail()),
        }
    }

    fn sync(&mut self) -> Result<(), Failed>
        ensures held { Some self.new.held ≡ Some self.old.held }
        ensures synced { OnOk result (Some self.new.synced ≡ Some self.new.held) }
        ensures never_falls { self.old.faults ≤ self.new.faults }
        ensures failed { OnErr result (Rose self.old.faults self.new.faults) }

        // The chosen calls fail, and others that run out of memory.
        ensures calls { self.new.calls ≡ raised self.old.calls }
        ensures failing { self.new.failing ≡ self.old.failing }
        ensures fails { Contains self.old.failing (raised self.old.calls) → IsErr result }
    {
        if self.fails() {
            return Err(self.fail());
        }
        match Bytes::from_slice(self.alloc, self.held.as_slice()) {
            Ok(copy) => {
                self.synced = copy;
                Ok(())
            }
            Err(NoMemory) => Err(self.fail()),
        }
    }

    fn cut(&mut self, length: u64) -> Result<(), Failed>
        requires { IsWithin length (Some self.old.held) }
        ensures cut { OnOk result (Some self.new.held ≡ cut_known length (Some self.old.held)) }
        ensures uncut { OnErr result (Some self.new.held ≡ Some self.old.held) }
        ensures never_falls { self.old.faults ≤ self.new.faults }
        ensures failed { OnErr result (Rose self.old.faults self.new.faults) }

        // The chosen calls fail, and others that run out of memory.
        ensures calls { self.new.calls ≡ raised self.old.calls }
        ensures failing { self.new.failing ≡ self.old.failing }
        ensures fails { Contains self.old.failing (raised self.old.calls) → IsErr result }
    {
        if self.fails() {
            return Err(self.fail());
        }
        match Bytes::from_slice(self.alloc, &self.held.as_slice()[..length as usize]) {
            Ok(copy) => {
                self.held = copy;
                Ok(())
            }
            Err(NoMemory) => Err(self.fail()),
        }
    }
}
