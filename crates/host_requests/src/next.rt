//! What an event makes of the request under way.

use crate::{How, Progress};

/// What becomes of the request under way.
#[derive(Drop)]
pub enum Next {
    GoesOn(Progress),
    Ends(How),
}
