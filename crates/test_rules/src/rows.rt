//! What rows of tables name, and what their loops say.

use std::process::Abort;
use std::test::Fail;
use zw_base::{NodeId, read_node};

/// The node of a number that a table names.
pub fn node(number: u8) -> Result<NodeId, Fail> {
    Ok(read_node(number).ok_or("no such node")?)
}

/// Ends the test at a row that is not so.
pub fn check_row(rt: &impl Abort, is_so: bool, row: usize) {
    assert!(rt; is_so, "row {row}");
}
