//! A keeper over a store in memory of which chosen calls fail: what it kept is what the next one finds.

use crate::records::{keeps, read};
use crate::rows::check_row;
use file_keeper::{FileKeeper, MemoryStore, OpenFault, bytes_have_one_split};
use host_keep::{KeepFault, Keeper};
use std::alloc::Global;
use std::test::Fail;
use zw_base::{Bytes, NoMemory};

/// What the store holds at first: a record, and the beginning of another as a crash leaves it.
const HELD: &[u8] = b"[2,9]\n[2,";

/// The record of it, as a line.
const FIRST: &[u8] = b"[2,9]\n";

/// What is to be kept then.
const RECORDS: [&str; 3] = ["[2,3]", "[2,4]", "[2,5]"];

/// More calls than one run makes.
const CALLS: u64 = 16;

/// A keeper over a store that holds this, whose calls of these numbers fail.
fn keeper_over(
    alloc: Global,
    held: &[u8],
    failing: &[u64],
) -> Result<FileKeeper<MemoryStore>, NoMemory> {
    Ok(FileKeeper::new(alloc, MemoryStore::new(alloc, held, failing)?))
}

/// Whether the keeper is opened.
fn opens(keeper: &mut FileKeeper<MemoryStore>) -> bool {
    keeper.open().is_ok()
}

/// Adds the record as a line.
fn put_line(text: &mut Bytes, record: &[u8]) -> Result<(), NoMemory> {
    text.extend(record)?;
    text.push(b'\n')
}

/// Has the records kept, and adds those that were.
fn keep_each<K: Keeper>(keeper: &mut K, kept: &mut Bytes) -> Result<(), NoMemory> {
    for record in RECORDS {
        if keeps(keeper, record.as_bytes())? {
            put_line(kept, record.as_bytes())?;
        }
    }
    Ok(())
}

/// Has the records kept over a store whose calls of these numbers fail, and adds those that were. Gives what the store holds then.
fn held_after(alloc: Global, failing: &[u64], kept: &mut Bytes) -> Result<Bytes, NoMemory> {
    let mut keeper = keeper_over(alloc, HELD, failing)?;
    if opens(&mut keeper) {
        keep_each(&mut keeper, kept)?;
    }
    Bytes::from_slice(alloc, keeper.into_store().bytes())
}

/// Adds the record at that place, and answers whether there is one.
fn add_record<K: Keeper>(
    alloc: Global,
    keeper: &mut K,
    at: u64,
    text: &mut Bytes,
) -> Result<bool, NoMemory> {
    match read(alloc, keeper, at) {
        Some(Ok(record)) => {
            put_line(text, record.as_slice())?;
            Ok(true)
        }
        _ => Ok(false),
    }
}

/// Adds all records of the keeper, and answers whether all were read.
fn add_all<K: Keeper>(alloc: Global, keeper: &mut K, text: &mut Bytes) -> Result<bool, NoMemory> {
    for at in 0..keeper.count() {
        if !add_record(alloc, keeper, at, text)? {
            return Ok(false);
        }
    }
    Ok(true)
}

/// Adds the records that a keeper finds in a store that holds this, and answers whether it opens and reads them.
fn add_found(alloc: Global, held: &[u8], text: &mut Bytes) -> Result<bool, NoMemory> {
    let mut keeper = keeper_over(alloc, held, &[])?;
    Ok(opens(&mut keeper) && add_all(alloc, &mut keeper, text)?)
}

/// Whether the next keeper finds what was kept where these calls fail, and no more where it is to be all.
fn finds(alloc: Global, failing: &[u64], is_all: bool) -> Result<bool, NoMemory> {
    let mut kept = Bytes::from_slice(alloc, FIRST)?;
    let held = held_after(alloc, failing, &mut kept)?;
    let mut found = Bytes::new(alloc);
    if !add_found(alloc, held.as_slice(), &mut found)? {
        return Ok(false);
    }
    Ok(found.as_slice().starts_with(kept.as_slice()) && (!is_all || found.len() == kept.len()))
}

#[test]
fn what_was_kept_is_found_wherever_a_call_fails(rt: HostRuntime) -> Result<(), Fail> {
    for call in 0..CALLS {
        let is_so = finds(rt.alloc(), &[call], true)?
            && finds(rt.alloc(), &[call, call + 1], false)?;
        check_row(&rt, is_so, call as usize);
    }
    Ok(())
}

/// Whether two records are not kept, each with a fault.
fn fails_twice(keeper: &mut FileKeeper<MemoryStore>) -> Result<bool, NoMemory> {
    Ok(
        !keeps(keeper, b"[2,3]")?
            && !keeps(keeper, b"[2,4]")?
            && keeper.count() == 1
            && keeper.faults() == 2,
    )
}

/// Whether the first record is not read.
fn is_closed<K: Keeper>(alloc: Global, keeper: &mut K) -> bool {
    matches!(read(alloc, keeper, 0), Some(Err(KeepFault::Failed)))
}

#[test]
fn a_keeper_that_cannot_undo_fails_from_then_on(rt: HostRuntime) -> Result<(), Fail> {
    let mut keeper = keeper_over(rt.alloc(), HELD, &[4, 5])?;
    let is_so = opens(&mut keeper)
        && fails_twice(&mut keeper)?
        && is_closed(rt.alloc(), &mut keeper);
    assert!(rt; is_so);
    Ok(())
}

#[test]
fn an_end_of_no_record_is_refused_and_left(rt: HostRuntime) -> Result<(), Fail> {
    let mut keeper = keeper_over(rt.alloc(), b"[2,9]\nnotes", &[])?;
    assert!(rt; keeper.open() == Err(OpenFault::Foreign));
    let store = keeper.into_store();
    assert!(rt; store.bytes() == b"[2,9]\nnotes".as_slice());
    bytes_have_one_split();
    Ok(())
}
