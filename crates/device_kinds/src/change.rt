//! Changes of a device.

use zw_base::{By, Sequence, Setting};

/// A change: what made it, and the settings that it gave, one for each property, in the order of properties.
#[derive(Drop)]
pub struct Change {
    pub by: By,
    pub settings: Sequence<Setting>,
}
