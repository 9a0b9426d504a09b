//! Where the series of attempts of a session stands.

ghost use Rattle.std.specs.Prelude.{◌≡◌};
ghost use Rattle.host_node.specs.State.{is_idle as idle, is_running as running};

/// The attempts to carry the open session's message, up to three in a series.
#[derive(Clone, Copy, Debug, PartialEq, Eq)]
pub enum Series {
    /// No attempt runs or is due.
    Idle,
    /// The next attempt is to be given.
    Due,
    /// An attempt was given, and has neither a report nor an end.
    Running,
}

impl Series {
    pub fn is_idle(self) -> bool
        ensures { result ≡ idle self }
    {
        matches!(self, Series::Idle)
    }

    pub fn is_running(self) -> bool
        ensures { result ≡ running self }
    {
        matches!(self, Series::Running)
    }
}
