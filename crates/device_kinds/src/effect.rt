//! What a message does to a device.

use crate::Verdict;
use class_info::InfoMessage;
use zw_base::{Sequence, Setting};

/// What a message out of its wraps does to a device.
#[derive(Drop)]
pub enum Effect {
    Ignores,
    /// A device that does not listen falls asleep.
    Sleeps,
    /// A value is told.
    Tells(InfoMessage),
    /// A device without Supervision is set.
    Sets(Sequence<Setting>),
    /// The status of the last session taken is told again.
    Repeats(u8),
    /// The next session is taken.
    Takes(Verdict),
}
