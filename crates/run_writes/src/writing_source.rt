//! The source that has written what waits.

ghost use Rattle.std.specs.Prelude.{◌≡◌};
ghost use Rattle.std.specs.Io.{ReadsAtMost};
ghost use Rattle.std.specs.Io.KnownBytes.{ReadConsumes};

use crate::gathered::{Gathered, write_waiting};
use std::cell::RefCell;
use zw_base::{Failed, Sink, Source};

/// A source that has all that waits written before each read. Where that fails the read has failed. `faults` counts the reads that
/// failed, up to the greatest u64.
#[derive(Drop)]
pub struct WritingSource<'a, S: Source, K: Sink> {
    source: S,
    gathered: &'a RefCell<Gathered<K>>,
    faults: u64,
}

impl<'a, S: Source, K: Sink> WritingSource<'a, S, K> {
    /// Nothing was read through it.
    pub fn new(source: S, gathered: &'a RefCell<Gathered<K>>) -> WritingSource<'a, S, K>
        ensures source { result.source ≡ source }
        ensures none_yet { result.faults ≡ 0 }
    {
        WritingSource {
            source,
            gathered,
            faults: 0,
        }
    }

    /// Has all that waits written, and reads.
    fn written_and_read(&mut self, into: &mut [u8]) -> Result<usize, Failed>
        ensures at_most { ReadsAtMost result into.new }
        ensures consumes { ReadConsumes (S.left self.old.source) (S.left self.new.source) result into.new }
        ensures faults { self.new.faults ≡ self.old.faults }
    {
        write_waiting(self.gathered)?;
        self.source.read(into)
    }
}

impl<'a, S: Source, K: Sink> Source for WritingSource<'a, S, K> {
    ghost left = { λ s. S.left s.source };

    ghost faults = { λ s. s.faults };

    fn read(&mut self, into: &mut [u8]) -> Result<usize, Failed> {
        match self.written_and_read(into) {
            Ok(count) => Ok(count),
            Err(Failed) => {
                self.faults = self.faults.saturating_add(1);
                Err(Failed)
            }
        }
    }
}
