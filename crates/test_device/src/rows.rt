//! What the loops over tables say.

use std::process::Abort;

/// Ends the test at a row that is not so.
pub fn check_row(rt: &impl Abort, is_so: bool, row: usize) {
    assert!(rt; is_so, "row {row}");
}
