//! What the lines of records lie in: bytes that are read whole, added to, synced and cut.

ghost use Rattle.std.specs.Prelude.{◌≡◌, ℕ, List as Items, Option, ◌<◌, ◌≤◌, IfOk, OnOk, OnErr, Err};
ghost use Rattle.std.specs.Io.KnownBytes.{append_known};
ghost use Rattle.zw_base.specs.Faults.{Rose};
ghost use Rattle.file_keeper.specs.Holding.{Holds, AppendsSome, IsWithin, cut_known};

use host_keep::KeepFault;
use std::alloc::Global;
use zw_base::{Bytes, Failed};

/// Bytes that outlive the program.
pub trait Store {
    /// The bytes, where the store tells them.
    ghost held: { Self → Option (Items ℕ) };

    /// The bytes as they were at the last sync that did not fail, where the store tells them.
    ghost synced: { Self → Option (Items ℕ) };

    /// How often it failed, up to the greatest u64.
    ghost faults: { Self → ℕ };

    /// All the bytes.
    fn read_all(&mut self, alloc: Global) -> Result<Bytes, KeepFault>
        ensures found { IfOk result (λ bytes. Holds (held self.old) bytes) }
        ensures held { held self.new ≡ held self.old }
        ensures never_falls { faults self.old ≤ faults self.new }
        ensures failed { result ≡ Err KeepFault.Failed → Rose (faults self.old) (faults self.new) };

    /// Adds the bytes at the end. If that fails, a prefix of them may have been added.
    fn append(&mut self, bytes: &[u8]) -> Result<(), Failed>
        ensures added { OnOk result (held self.new ≡ append_known (held self.old) bytes.now) }
        ensures torn { OnErr result (AppendsSome (held self.old) (held self.new) bytes.now) }
        ensures never_falls { faults self.old ≤ faults self.new }
        ensures failed { OnErr result (Rose (faults self.old) (faults self.new)) };

    /// Has the bytes reach where they outlive the machine.
    fn sync(&mut self) -> Result<(), Failed>
        ensures held { held self.new ≡ held self.old }
        ensures synced { OnOk result (synced self.new ≡ held self.new) }
        ensures never_falls { faults self.old ≤ faults self.new }
        ensures failed { OnErr result (Rose (faults self.old) (faults self.new)) };

    /// Takes the bytes after the first `length` away.
    fn cut(&mut self, length: u64) -> Result<(), Failed>
        requires { IsWithin length (held self.old) }
        ensures cut { OnOk result (held self.new ≡ cut_known length (held self.old)) }
        ensures uncut { OnErr result (held self.new ≡ held self.old) }
        ensures never_falls { faults self.old ≤ faults self.new }
        ensures failed { OnErr result (Rose (faults self.old) (faults self.new)) };
}
