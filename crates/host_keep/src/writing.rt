//! From a record to its text.

ghost use Rattle.std.specs.Prelude.{◌≡◌, ◌++◌, IfOk, OnOk};
ghost use Rattle.serde_json.specs.View.{view};
ghost use Rattle.host_keep.specs.Rows.{what_numbers, numbers_of, AreBytes, IsRecord, IsWhat, IsWord};
ghost use Rattle.host_keep.specs.RecordText.{IsTextOf, row_data, row_text};

use crate::kinds::{
    ACCEPTED, ASSOCIATE, BEGUN, BULK, CANCELLED, CLASSES, COMFORT, CONFIG, DISSOCIATE, FINAL,
    GIVEN, INTERVAL, JOINED, LEVEL, MODE, OFF, ON, SEEN, SETPOINT, SPENT,
};
use crate::record::Record;
use serde_json::Value;
use std::alloc::{AllocError, Global};
use zw_base::{Bytes, NoMemory, NodeId, What, Word};

/// The most numbers of a record, or of what comes before its bytes.
const MOST_BEFORE_BYTES: usize = 8;

/// Adds bytes as numbers.
fn put_bytes(numbers: &mut Vec<u64>, bytes: &[u8]) -> Result<(), AllocError>
    ensures numbers { OnOk result (numbers.new.items ≡
        numbers.old.items ++ bytes.now) }
    ensures range { AreBytes bytes.now }
{
    numbers.reserve(bytes.len())?;
    for byte in bytes {
        numbers.push(u64::from(*byte))?;
    }
    Ok(())
}

/// Adds a value in words.
fn put_word(numbers: &mut Vec<u64>, word: Word) -> Result<(), AllocError>
    ensures numbers { OnOk result (numbers.new.items ≡
        numbers.old.items ++ what_numbers (What.Value word)) }
    ensures range { IsWord word }
{
    match word {
        Word::On => numbers.push(ON)?,
        Word::Off => numbers.push(OFF)?,
        Word::Level(level) => numbers.extend_from_slice(&[LEVEL, u64::from(level)])?,
    }
    Ok(())
}

/// Adds what is asked.
fn put_what(numbers: &mut Vec<u64>, what: &What) -> Result<(), AllocError>
    ensures numbers { OnOk result (numbers.new.items ≡
        numbers.old.items ++ what_numbers what.now) }
    ensures range { OnOk result (IsWhat what.now) }
{
    match what {
        What::Value(word) => put_word(numbers, *word)?,
        What::Mode(mode) => numbers.extend_from_slice(&[MODE, u64::from(*mode)])?,
        What::Setpoint { kind, tenths } => {
            numbers.extend_from_slice(&[SETPOINT, u64::from(*kind), u64::from(*tenths)])?
        }
        What::Config { param, value } => {
            numbers.extend_from_slice(&[CONFIG, u64::from(*param), u64::from(*value)])?
        }
        What::Bulk { offset, values } => {
            numbers.extend_from_slice(&[BULK, u64::from(*offset)])?;
            put_bytes(numbers, values.as_slice())?
        }
        What::Associate { group, member } => {
            numbers.extend_from_slice(&[ASSOCIATE, u64::from(*group), number_of(*member)])?
        }
        What::Dissociate { group, member } => {
            numbers.extend_from_slice(&[DISSOCIATE, u64::from(*group), number_of(*member)])?
        }
        What::Interval(seconds) => { numbers.extend_from_slice(&[INTERVAL, u64::from(*seconds)])? }
        What::Comfort { mode, kind, tenths } => numbers.extend_from_slice(&[
            COMFORT,
            u64::from(*mode),
            u64::from(*kind),
            u64::from(*tenths),
        ])?,
    }
    Ok(())
}

/// The number of a node.
fn number_of(node: NodeId) -> u64
    ensures value { result ≡ node }
    ensures range { Rattle.host_keep.specs.Rows.IsNode node }
{
    u64::from(node.number())
}

/// The numbers of a record.
fn numbers_of(alloc: Global, kept: &Record) -> Result<Vec<u64>, AllocError>
    ensures numbers { IfOk result (λ numbers.
        numbers.items ≡ numbers_of kept.now) }
    ensures range { OnOk result (IsRecord kept.now) }
{
    let mut numbers = Vec::with_capacity(alloc, MOST_BEFORE_BYTES)?;
    match kept {
        Record::Accepted { command, order } => {
            numbers.extend_from_slice(&[
                ACCEPTED,
                u64::from(*command),
                number_of(order.node),
                u64::from(order.end.number()),
            ])?;
            put_what(&mut numbers, &order.what)?
        }
        Record::Joined { node } => numbers.extend_from_slice(&[JOINED, number_of(*node)])?,
        Record::Classes {
            node,
            listens,
            classes,
        } => {
            numbers.extend_from_slice(&[CLASSES, number_of(*node), u64::from(*listens)])?;
            put_bytes(&mut numbers, classes.as_slice())?
        }
        Record::Begun {
            node,
            session,
            command,
        } => numbers.extend_from_slice(&[BEGUN, number_of(*node), *session, u64::from(*command)])?,
        Record::Final {
            node,
            session,
            status,
        } => numbers.extend_from_slice(&[
            FINAL,
            number_of(*node),
            *session,
            u64::from(status.byte()),
        ])?,
        Record::Cancelled { command } => {
            numbers.extend_from_slice(&[CANCELLED, u64::from(*command)])?
        }
        Record::Given { node, given, nonce } => {
            numbers.extend_from_slice(&[GIVEN, number_of(*node), *given])?;
            put_bytes(&mut numbers, nonce)?
        }
        Record::Spent { node } => numbers.extend_from_slice(&[SPENT, number_of(*node)])?,
        Record::Seen { node, seen } => {
            numbers.extend_from_slice(&[SEEN, number_of(*node), *seen])?
        }
    }
    Ok(numbers)
}

/// Numbers as a JSON array.
fn row_value(alloc: Global, numbers: &[u64]) -> Result<Value, AllocError>
    ensures { IfOk result (λ value. view value ≡ row_data numbers.now) }
{
    let mut values = Vec::with_capacity(alloc, numbers.len())?;
    for number in numbers {
        values.push(Value::from(*number))?;
    }
    Ok(Value::from(values))
}

/// The text of a row of numbers.
#[tactic(auto, unfolding(crate::specs::RecordText::row_text))]
fn write_row(alloc: Global, numbers: &[u64]) -> Result<Bytes, NoMemory>
    ensures { IfOk result (λ bytes. bytes ≡ row_text numbers.now) }
{
    let text = row_value(alloc, numbers)?.to_vec(alloc)?;
    Ok(Bytes::of(text))
}

/// The text of a record: its numbers as a JSON array with no space.
pub fn write_record(alloc: Global, kept: &Record) -> Result<Bytes, NoMemory>
    ensures { IfOk result (λ bytes. IsTextOf kept.now bytes) }
{
    let numbers = numbers_of(alloc, kept)?;
    write_row(alloc, numbers.as_slice())
}
