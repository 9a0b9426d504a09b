//! Verdicts on the commands of a session.

use zw_base::{Sequence, Setting};

/// What the commands of a session come to.
#[derive(Drop)]
pub enum Verdict {
    /// One of them is not supported.
    NoSupport,
    /// A value of one of them is outside.
    Fails,
    /// All are carried out: they make these settings.
    Makes(Sequence<Setting>),
    /// It is carried out in time: it makes these settings when its work is done.
    Works(Sequence<Setting>),
}
