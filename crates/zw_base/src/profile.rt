//! What a device tells of itself.

use crate::Bytes;

/// What a device tells of itself: whether it listens all the time, and its command classes in their order (Node
/// Information Frame).
#[derive(Debug, Drop)]
pub struct Profile {
    pub listening: bool,
    pub classes: Bytes,
}
