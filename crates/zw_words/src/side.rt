//! The two sides of the serial line.

/// A side of the serial line, named by who writes.
#[derive(Clone, Copy, Debug, PartialEq, Eq)]
pub enum Side {
    /// The host, whose letter is `h`.
    Host,
    /// The chip, whose letter is `c`.
    Chip,
}
