//! Clocks: how many ticks of 100 ms pass while bytes are read.

ghost use Rattle.std.specs.Prelude.{◌≡◌, ℕ};
ghost use Rattle.port_run.specs.Schedule.{quiet_ticks};

/// Tells how many ticks of 100 ms have passed. Nothing is promised of what it tells, but for what it says that it may.
pub trait Clock {
    /// What it may tell after a read of so many bytes.
    ghost may_tell: { ℕ → ℕ → Type 0 };

    /// How many ticks have passed since it was last asked, at most 255. The last read gave `got` bytes.
    fn passed(&mut self, got: usize) -> u8
        ensures { may_tell got result };
}

/// Takes a read of no bytes for a tick, and one of bytes for none. It suits a serial line that gives a read of no bytes after a tenth of a
/// second of silence.
#[derive(Clone, Copy, Debug)]
pub struct QuietClock;

impl Clock for QuietClock {
    ghost may_tell = { λ got ticks. ticks ≡ quiet_ticks got };

    fn passed(&mut self, got: usize) -> u8
        ensures { result ≡ quiet_ticks got }
    {
        if got == 0 { 1 } else { 0 }
    }
}
