//! Drawn bytes that were fixed beforehand. They serve tests.

ghost use Rattle.std.specs.Prelude.{◌≡◌, IfOk};

use crate::{Draw, List, NoMemory};
use std::alloc::Global;
use std::marker::Model;

/// A list of values that are drawn in turn, and eight zero bytes after the last. Contracts see those to come.
#[derive(Debug, Drop)]
pub struct FixedDraw {
    values: List<[u8; 8]>,
    at: usize,
}

impl Model for FixedDraw {
    ghost use Rattle.std.specs.Prelude.{ℕ, List, ◌≤◌, drop, length};

    ghost Value = { List (List ℕ) };

    ghost view = { λ d. drop d.at d.values.items };

    ghost invariant = { λ d. d.at ≤ length d.values.items };
}

impl FixedDraw {
    pub fn new(alloc: Global, values: &[[u8; 8]]) -> Result<FixedDraw, NoMemory>
        ensures { IfOk result (λ d. d ≡ values.now) }
    {
        let values = List::from_slice(alloc, values)?;
        Ok(FixedDraw { values, at: 0 })
    }
}

impl Draw for FixedDraw {
    ghost use Rattle.std.specs.Prelude.{◌≡◌, drop, replicate, slice_get, unwrap_or};

    ghost draws = { λ old drawn new. (drawn ≡ unwrap_or (slice_get old 0) (replicate 8 0)) × (new ≡ drop 1 old) };

    fn next(&mut self) -> [u8; 8] {
        match self.values.as_slice().get(self.at) {
            Some(value) => {
                let drawn = *value;
                self.at += 1;
                drawn
            }
            None => [0; 8],
        }
    }
}
