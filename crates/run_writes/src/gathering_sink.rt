//! The sink that gathers.

ghost use Rattle.std.specs.Prelude.{◌≡◌};

use crate::gathered::{Gathered, hand_over};
use std::cell::RefCell;
use zw_base::{Failed, Sink};

/// The sink that gathers. `faults` counts the pieces that were not taken, up to the greatest u64.
#[derive(Drop)]
pub struct GatheringSink<'a, K: Sink> {
    gathered: &'a RefCell<Gathered<K>>,
    faults: u64,
}

impl<'a, K: Sink> GatheringSink<'a, K> {
    /// Nothing was handed over by it.
    pub fn new(gathered: &'a RefCell<Gathered<K>>) -> GatheringSink<'a, K>
        ensures none_yet { result.faults ≡ 0 }
    {
        GatheringSink {
            gathered,
            faults: 0,
        }
    }
}

impl<'a, K: Sink> Sink for GatheringSink<'a, K> {
    ghost use Rattle.std.specs.Prelude.{None};

    ghost written = { λ _. None };

    ghost faults = { λ s. s.faults };

    fn write(&mut self, piece: &[u8]) -> Result<usize, Failed> {
        match hand_over(self.gathered, piece) {
            Ok(()) => Ok(piece.len()),
            Err(Failed) => {
                self.faults = self.faults.saturating_add(1);
                Err(Failed)
            }
        }
    }
}
