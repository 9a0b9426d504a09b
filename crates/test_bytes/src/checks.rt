//! The check of 16 bits.

use crate::rows::check_row;
use zw_base::crc_ccitt;

/// Checks of an implementation outside this project (CRC-16/AUG-CCITT, whose published check value is 0xE5CC).
const CHECKS: &[(&[u8], u16)] = &[
    (b"", 0x1D0F),
    (b"A", 0x9479),
    (b"\x00", 0xCC9C),
    (b"123456789", 0xE5CC),
    (b"\x56\x01\x25\x01\xFF", 0x1F3A),
    (&[0xFF; 16], 0x45EA),
];

#[test]
fn agrees_with_outside_vectors(rt: HostRuntime) {
    for (row, (bytes, want)) in CHECKS.iter().enumerate() {
        check_row(&rt, crc_ccitt(bytes) == *want, row);
    }
}
