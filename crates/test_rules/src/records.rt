//! The texts of records, written out by hand from the description in docs/RECORDS.md, and the keeper that keeps them.

use crate::rows::check_row;
use host_keep::{KeepFault, Keeper, PlainKeeper, Record, keep, read_record, write_record};
use std::alloc::Global;
use std::test::Fail;
use zw_base::{Bytes, NoMemory};

/// One of each row.
const ROWS: &str = "\
[1,1,2,0,0]\n\
[1,1,2,127,6,9,5,6]\n\
[2,2]\n\
[3,2,1,37,108]\n\
[4,2,1,1]\n\
[5,2,1,255]\n\
[5,2,1,2]\n\
[6,7]\n\
[7,2,1,1,2,3,4,5,6,7,8]\n\
[8,2]\n\
[9,2,18446744073709551615]\n\
";

/// The text is read, and what was read is written as that text.
fn goes_both_ways(alloc: Global, text: &str) -> bool {
    match read_record(alloc, text.as_bytes()) {
        Ok(found) => has_text(alloc, &found, text),
        Err(_) => false,
    }
}

/// Whether the record is written as the text.
fn has_text(alloc: Global, record: &Record, text: &str) -> bool {
    match write_record(alloc, record) {
        Ok(written) => written.as_slice() == text.as_bytes(),
        Err(_) => false,
    }
}

#[test]
fn records_are_written_as_read(rt: HostRuntime) {
    for (row, text) in ROWS.lines().enumerate() {
        check_row(&rt, goes_both_ways(rt.alloc(), text), row);
    }
}

/// Whether the record is kept.
pub(crate) fn keeps<K: Keeper>(keeper: &mut K, record: &[u8]) -> Result<bool, NoMemory> {
    keep(keeper, record)
}

/// What is read at a place. None where nothing is kept there.
pub(crate) fn read<K: Keeper>(
    alloc: Global,
    keeper: &mut K,
    at: u64,
) -> Option<Result<Bytes, KeepFault>> {
    if at < keeper.count() {
        Some(keeper.read(alloc, at))
    } else {
        None
    }
}

/// Whether that record is read at a place.
fn holds<K: Keeper>(alloc: Global, keeper: &mut K, at: u64, record: &[u8]) -> bool {
    matches!(read(alloc, keeper, at), Some(Ok(found)) if found.as_slice() == record)
}

#[test]
fn a_plain_keeper_keeps_all(rt: HostRuntime) -> Result<(), Fail> {
    let mut keeper = PlainKeeper::new(rt.alloc());
    assert!(rt; keeps(&mut keeper, b"[2,3]")?);
    assert!(rt; holds(rt.alloc(), &mut keeper, 0, b"[2,3]"));
    Ok(())
}
