//! Each row of class_info both ways, by bytes that were written by hand.

mod tables;

use crate::parts::part;
use crate::rows::check_row;
use class_core::ClassFault;
use class_info::{read, write};
use std::alloc::Global;
use tables::ROWS;
use zw_base::Bytes;

/// The written form of what the bytes spell.
fn again(alloc: Global, bytes: &[u8]) -> Result<Bytes, ClassFault> {
    let message = read(alloc, bytes)?;
    Ok(write(alloc, &message)?)
}

/// Whether the bytes are read, and written as they stand.
fn is_written_again(alloc: Global, bytes: &[u8]) -> bool {
    match again(alloc, bytes) {
        Ok(written) => written.as_slice() == bytes,
        Err(_) => false,
    }
}

#[test]
fn rows_both_ways(rt: HostRuntime) {
    let mut table: &[u8] = ROWS;
    for row in 0..ROWS.len() {
        let Some((bytes, rest)) = part(table) else {
            break;
        };
        check_row(&rt, is_written_again(rt.alloc(), bytes), row);
        table = rest;
    }
    assert!(rt; table.is_empty());
}
