//! The two sides of the serial line.

use host_core::Host;
use outside_calls::Outside;
use std::alloc::Global;

/// The host, and all that is outside it but for the devices.
#[derive(Drop)]
pub struct Sides {
    /// The memory for what the host puts out.
    pub alloc: Global,
    pub host: Host,
    pub outer: Outside,
}
