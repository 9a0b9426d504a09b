//! A sink into memory, of which chosen writes fail. It serves tests.

ghost use Rattle.std.specs.Prelude.{◌≡◌, ◌<◌, ◌≤◌, length, [], IfOk, OnOk, OnErr, IsErr, Contains, Some};
ghost use Rattle.std.specs.Io.{WritesAtMost};
ghost use Rattle.std.specs.Io.KnownBytes.{WriteAppends};
ghost use Rattle.zw_base.specs.Faults.{Rose, raised};

use crate::{Bytes, Failed, List, NoMemory, Sink};
use std::alloc::Global;
use std::marker::Model;

/// A sink that tells its bytes, and fails at the calls whose numbers, from 1, it was given. A write for which it
/// finds no memory is a fault that it counts.
#[derive(Debug, Drop)]
pub struct MemorySink {
    bytes: Bytes,
    calls: u64,
    failing: List<u64>,
    faults: u64,
}

impl Model for MemorySink {
    ghost use Rattle.zw_base.specs.Store.{Store};

    ghost Value = { Store };

    ghost view = { λ s. record { written = s.bytes; calls = s.calls; failing = s.failing.items; faults = s.faults } };
}

impl MemorySink {
    pub fn new(alloc: Global, failing: &[u64]) -> Result<MemorySink, NoMemory>
        ensures { IfOk result (λ s. s ≡ record { written = []; calls = 0; failing = failing.now; faults = 0 }) }
    {
        Ok(MemorySink {
            bytes: Bytes::new(alloc),
            calls: 0,
            failing: List::from_slice(alloc, failing)?,
            faults: 0,
        })
    }

    /// The bytes written so far.
    pub fn bytes(&self) -> &[u8]
        ensures { result.now ≡ self.now.written }
    {
        self.bytes.as_slice()
    }
}

impl Sink for MemorySink {
    ghost use Rattle.std.specs.Prelude.{Some};

    ghost written = { λ s. Some s.written };

    ghost faults = { λ s. s.faults };

    fn write(&mut self, piece: &[u8]) -> Result<usize, Failed>
        ensures at_most { WritesAtMost result piece.now }
        ensures takes { IfOk result (λ taken. 0 < length piece.now → 0 < taken) }
        ensures appends { WriteAppends (Some self.old.written) (Some self.new.written) result piece.now }
        ensures never_falls { self.old.faults ≤ self.new.faults }
        ensures failed { OnErr result (Rose self.old.faults self.new.faults) }

        // The chosen calls fail, others take the whole piece where there is memory.
        ensures calls { self.new.calls ≡ raised self.old.calls }
        ensures failing { self.new.failing ≡ self.old.failing }
        ensures fails { Contains self.old.failing (raised self.old.calls) → IsErr result }
        ensures whole { IfOk result (λ taken. taken ≡ length piece.now) }
        ensures counted { OnErr result (self.new.faults ≡ raised self.old.faults) }
        ensures uncounted { OnOk result (self.new.faults ≡ self.old.faults) }
    {
        self.calls = self.calls.saturating_add(1);
        if self.failing.as_slice().contains(&self.calls) || self.bytes.extend(piece).is_err() {
            self.faults = self.faults.saturating_add(1);
            return Err(Failed);
        }
        Ok(piece.len())
    }
}
