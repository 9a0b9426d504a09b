//! A source over bytes in memory, of which chosen reads fail. It serves tests.

ghost use Rattle.std.specs.Prelude.{◌≡◌, ◌↔◌, ◌<◌, ◌≤◌, length, min, IfOk, OnOk, OnErr, IsErr, Contains};
ghost use Rattle.std.specs.Io.{ReadsAtMost};
ghost use Rattle.std.specs.Io.KnownBytes.{ReadConsumes};
ghost use Rattle.zw_base.specs.Faults.{Rose, raised};

use crate::{Failed, List, NoMemory, PlainSource, Source};
use std::alloc::Global;
use std::marker::Model;

/// A source that tells its bytes, and fails at the calls whose numbers, from 1, it was given.
#[derive(Debug, Drop)]
pub struct MemorySource {
    bytes: PlainSource,
    calls: u64,
    failing: List<u64>,
    faults: u64,
}

impl Model for MemorySource {
    ghost use Rattle.zw_base.specs.Supply.{Supply};

    ghost Value = { Supply };

    ghost view = { λ s. record { left = s.bytes; calls = s.calls; failing = s.failing.items; faults = s.faults } };
}

impl MemorySource {
    pub fn new(alloc: Global, bytes: &[u8], failing: &[u64]) -> Result<MemorySource, NoMemory>
        ensures { IfOk result (λ s. s ≡ record { left = bytes.now; calls = 0; failing = failing.now; faults = 0 }) }
    {
        let bytes = PlainSource::new(alloc, bytes)?;
        let failing = List::from_slice(alloc, failing)?;
        Ok(MemorySource {
            bytes,
            calls: 0,
            failing,
            faults: 0,
        })
    }
}

impl Source for MemorySource {
    ghost use Rattle.std.specs.Prelude.{Some};

    ghost left = { λ s. Some s.left };

    ghost faults = { λ s. s.faults };

    fn read(&mut self, into: &mut [u8]) -> Result<usize, Failed>
        ensures at_most { ReadsAtMost result into.new }
        ensures consumes { ReadConsumes (Some self.old.left) (Some self.new.left) result into.new }
        ensures never_falls { self.old.faults ≤ self.new.faults }
        ensures failed { OnErr result (Rose self.old.faults self.new.faults) }

        // Exactly the chosen calls fail, and each other one gives all that fits.
        ensures calls { self.new.calls ≡ raised self.old.calls }
        ensures failing { self.new.failing ≡ self.old.failing }
        ensures fails { IsErr result ↔ Contains self.old.failing (raised self.old.calls) }
        ensures gives { IfOk result (λ n. n ≡ min (length into.new) (length self.old.left)) }
        ensures counted { OnErr result (self.new.faults ≡ raised self.old.faults) }
        ensures uncounted { OnOk result (self.new.faults ≡ self.old.faults) }
    {
        self.calls = self.calls.saturating_add(1);
        if self.failing.as_slice().contains(&self.calls) {
            self.faults = self.faults.saturating_add(1);
            return Err(Failed);
        }
        self.bytes.read(into)
    }
}
