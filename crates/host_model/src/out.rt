//! What a host puts out.

use serial_frame::Unit;
use zw_text::Entry;

/// A unit for the chip, or an entry for the transcript.
#[derive(Drop)]
pub enum HostOut {
    Write(Unit),
    Note(Entry),
}
