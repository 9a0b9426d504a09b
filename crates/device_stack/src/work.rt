//! The work of a dimmer.

ghost use Rattle.std.specs.Prelude.{◌≡◌, None, []};

use encap::Plan;
use std::alloc::Global;
use zw_base::{Sequence, Setting};

/// What a device is at, until it is done: the settings that it makes then, and the wraps of the message where a report
/// is asked for.
#[derive(Drop)]
pub struct Work {
    pub settings: Sequence<Setting>,
    pub answer: Option<Plan>,
}

impl Work {
    /// No work. It takes no memory.
    pub fn idle(alloc: Global) -> Work
        ensures settings { result.settings ≡ [] }
        ensures answer { result.answer ≡ None }
    {
        Work {
            settings: Sequence::new(alloc),
            answer: None,
        }
    }
}
