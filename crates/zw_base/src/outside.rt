//! The outside of the program: a source of bytes, a sink for bytes, and drawn bytes.

ghost use Rattle.std.specs.Prelude.{◌≡◌, ℕ, List as Items, Option, ◌<◌, ◌≤◌, length, IfOk, OnOk, OnErr};
ghost use Rattle.std.specs.Io.{ReadsAtMost, WritesAtMost};
ghost use Rattle.std.specs.Io.KnownBytes.{ReadConsumes, WriteAppends};
ghost use Rattle.zw_base.specs.Faults.{Rose};

/// A read or a write that failed. The count of the object that failed tells that it did.
#[derive(Clone, Copy, Debug, PartialEq, Eq)]
pub struct Failed;

/// Where bytes come from.
pub trait Source {
    /// The bytes left, where the source tells them.
    ghost left: { Self → Option (Items ℕ) };

    /// How often a read failed, up to the greatest u64.
    ghost faults: { Self → ℕ };

    /// Puts the next bytes at the prefix of `into` and answers how many. 0 for an `into` with room is the end.
    fn read(&mut self, into: &mut [u8]) -> Result<usize, Failed>
        ensures at_most { ReadsAtMost result into.new }
        ensures consumes { ReadConsumes (left self.old) (left self.new) result into.new }
        ensures never_falls { faults self.old ≤ faults self.new }
        ensures failed { OnErr result (Rose (faults self.old) (faults self.new)) }
        ensures uncounted { OnOk result (faults self.new ≡ faults self.old) };
}

/// Where bytes go.
pub trait Sink {
    /// The bytes written, where the sink tells them.
    ghost written: { Self → Option (Items ℕ) };

    /// How often a write failed, up to the greatest u64.
    ghost faults: { Self → ℕ };

    /// Takes bytes from the prefix of the piece and answers how many: at least one, where the piece has one.
    fn write(&mut self, piece: &[u8]) -> Result<usize, Failed>
        ensures at_most { WritesAtMost result piece.now }
        ensures takes { IfOk result (λ taken. 0 < length piece.now → 0 < taken) }
        ensures appends { WriteAppends (written self.old) (written self.new) result piece.now }
        ensures never_falls { faults self.old ≤ faults self.new }
        ensures failed { OnErr result (Rose (faults self.old) (faults self.new)) }
        ensures uncounted { OnOk result (faults self.new ≡ faults self.old) };
}

/// Where drawn bytes come from. It never fails, and nothing is claimed of its bytes but what it says that it may draw.
pub trait Draw {
    /// From the first, these bytes may be drawn, and the last is then left.
    ghost draws: { Self → Items ℕ → Self → Type 0 };

    /// Draws the next bytes.
    fn next(&mut self) -> [u8; 8]
        ensures { draws self.old result self.new };
}
