//! From a text to its record.

ghost use Rattle.std.specs.Prelude.{◌≡◌, ◌≢◌, ℕ, ◌<◌, List, IfOk, Ok, Err};
ghost use Rattle.host_keep.specs.declared.record.Record.{Record as TheRecord};
ghost use Rattle.host_keep.specs.RecordText.{IsTextOf, IsNoText, AreLong, row_data, row_text};
ghost use Rattle.host_keep.specs.RowReading.{Gives};
ghost use Rattle.serde_json.specs.View.{view};

use crate::record::Record;
use crate::row::record_of;
use crate::writing::write_record;
use serde_json::Value;
use std::alloc::{AllocError, AllocFailed, Global};
use zw_base::NoMemory;

/// Why a text is not read.
#[derive(Clone, Copy, PartialEq, Eq)]
pub enum RecordFault {
    /// It is the text of no record.
    Bad,
    /// There was no memory.
    NoMemory,
}

impl From<NoMemory> for RecordFault {
    ghost use Rattle.std.specs.Prelude.{◌≡◌};
    ghost use Rattle.host_keep.specs.declared.reading.RecordFault.TheVariants.{NoMemory as no_memory};

    ghost from_gives = { λ _ e. e ≡ no_memory };

    fn from(_error: NoMemory) -> RecordFault {
        RecordFault::NoMemory
    }
}

impl From<AllocError> for RecordFault {
    ghost use Rattle.std.specs.Prelude.{◌≡◌};
    ghost use Rattle.host_keep.specs.declared.reading.RecordFault.TheVariants.{NoMemory as no_memory};

    ghost from_gives = { λ _ e. e ≡ no_memory };

    fn from(_error: AllocError) -> RecordFault {
        RecordFault::NoMemory
    }
}

impl<T: Drop> From<AllocFailed<T>> for RecordFault {
    ghost use Rattle.std.specs.Prelude.{◌≡◌};
    ghost use Rattle.host_keep.specs.declared.reading.RecordFault.TheVariants.{NoMemory as no_memory};

    ghost from_gives = { λ _ e. e ≡ no_memory };

    fn from(_failed: AllocFailed<T>) -> RecordFault {
        RecordFault::NoMemory
    }
}

/// The JSON value of a text, where it is that of a row of numbers.
fn parse(alloc: Global, bytes: &[u8]) -> Result<Value, RecordFault>
    ensures row { (numbers : List ℕ) → bytes.now ≡ row_text numbers →
        AreLong numbers → IfOk result (λ value. view value ≡ row_data numbers) }
    ensures bad { (numbers : List ℕ) → bytes.now ≡ row_text numbers →
        AreLong numbers → result ≢ Err RecordFault.Bad }
{
    match Value::from_slice(alloc, bytes) {
        Ok(value) => Ok(value),
        Err(error) if error.is_memory() => Err(RecordFault::NoMemory),
        Err(_) => Err(RecordFault::Bad),
    }
}

/// The numbers of a JSON array.
fn numbers_in(alloc: Global, value: &Value) -> Result<Vec<u64>, RecordFault>
    ensures row { (numbers : List ℕ) → view value.now ≡ row_data numbers →
        IfOk result (λ found. found.items ≡ numbers) }
    ensures bad { (numbers : List ℕ) →
        view value.now ≡ row_data numbers → result ≢ Err RecordFault.Bad }
{
    let Some(items) = value.as_array() else {
        return Err(RecordFault::Bad);
    };
    let mut numbers = Vec::with_capacity(alloc, items.len())?;
    for item in items {
        let Some(number) = item.as_u64() else {
            return Err(RecordFault::Bad);
        };
        numbers.push(number)?;
    }
    Ok(numbers)
}

/// The record that a text is the text of. Its numbers are found first; then the text has to be the one that the record
/// found is written as, so that no blank, no leading zero and no further number is taken.
fn find_record(alloc: Global, bytes: &[u8]) -> Result<Record, RecordFault>
    ensures found { IfOk result (λ found. IsTextOf found bytes.now) }
    ensures only { (kept : TheRecord) →
        IsTextOf kept bytes.now → Gives result (Ok kept) }
{
    let value = parse(alloc, bytes)?;
    let numbers = numbers_in(alloc, &value)?;
    let found = record_of(alloc, numbers.as_slice())?;
    let text = write_record(alloc, &found)?;
    if text.as_slice() == bytes {
        Ok(found)
    } else {
        Err(RecordFault::Bad)
    }
}

/// The record that a text is the text of.
pub fn read_record(alloc: Global, bytes: &[u8]) -> Result<Record, RecordFault>
    // What is found has this text.
    ensures found { IfOk result (λ found. IsTextOf found bytes.now) }
    // What has this text is found, unless there was no memory.
    ensures only { (kept : TheRecord) →
        IsTextOf kept bytes.now → Gives result (Ok kept) }
    // Bad is exactly what is the text of no record.
    ensures bad { result ≡ Err RecordFault.Bad → IsNoText bytes.now }
{
    find_record(alloc, bytes)
}
