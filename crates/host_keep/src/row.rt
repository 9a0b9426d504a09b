//! The record that numbers stand for: each number at its place, in its range.

ghost use Rattle.std.specs.Prelude.{◌≡◌};
ghost use Rattle.host_keep.specs.RowReading.{
  Gives,
  number_at,
  byte_at,
  node_at,
  end_at,
  short_at,
  long_at,
  flag_at,
  status_at,
  bytes_at,
  byte_in,
  nonce_at,
  setpoint_at,
  config_at,
  bulk_at,
  member_at,
  comfort_at,
  what_at,
  accepted_at,
  classes_at,
  begun_at,
  final_at,
  given_at,
  seen_at,
  record_at,
};
ghost use Rattle.zw_base.specs.declared.order.What.TheVariants as what;

use crate::final_status::FinalStatus;
use crate::kinds::{
    ACCEPTED, ASSOCIATE, BEGUN, BULK, CANCELLED, CLASSES, COMFORT, CONFIG, DISSOCIATE, FINAL,
    GIVEN, INTERVAL, JOINED, LEVEL, MODE, OFF, ON, SEEN, SETPOINT, SPENT,
};
use crate::reading::RecordFault;
use crate::record::Record;
use std::alloc::Global;
use zw_base::{Bytes, EndPoint, NodeId, Order, What, Word, read_end, read_node};

#[tactic(auto, unfolding(crate::specs::RowReading::number_at))]
fn number(numbers: &[u64], at: usize) -> Result<u64, RecordFault>
    ensures { result ≡ number_at at numbers.now }
{
    numbers.get(at).copied().ok_or(RecordFault::Bad)
}

fn byte_of(number: u64) -> Result<u8, RecordFault>
    ensures { result ≡ byte_in number }
{
    if number < 1 << 8 {
        Ok(number as u8)
    } else {
        Err(RecordFault::Bad)
    }
}

fn byte(numbers: &[u64], at: usize) -> Result<u8, RecordFault>
    ensures { result ≡ byte_at at numbers.now }
{
    byte_of(number(numbers, at)?)
}

fn node(numbers: &[u64], at: usize) -> Result<NodeId, RecordFault>
    ensures { result ≡ node_at at numbers.now }
{
    match read_node(byte(numbers, at)?) {
        Some(node) => Ok(node),
        None => Err(RecordFault::Bad),
    }
}

fn end(numbers: &[u64], at: usize) -> Result<EndPoint, RecordFault>
    ensures { result ≡ end_at at numbers.now }
{
    match read_end(byte(numbers, at)?) {
        Some(end) => Ok(end),
        None => Err(RecordFault::Bad),
    }
}

fn short(numbers: &[u64], at: usize) -> Result<u16, RecordFault>
    ensures { result ≡ short_at at numbers.now }
{
    let number = number(numbers, at)?;
    if number < 1 << 16 {
        Ok(number as u16)
    } else {
        Err(RecordFault::Bad)
    }
}

fn long(numbers: &[u64], at: usize) -> Result<u32, RecordFault>
    ensures { result ≡ long_at at numbers.now }
{
    let number = number(numbers, at)?;
    if number < 1 << 32 {
        Ok(number as u32)
    } else {
        Err(RecordFault::Bad)
    }
}

fn flag(numbers: &[u64], at: usize) -> Result<bool, RecordFault>
    ensures { result ≡ flag_at at numbers.now }
{
    match number(numbers, at)? {
        0 => Ok(false),
        1 => Ok(true),
        _ => Err(RecordFault::Bad),
    }
}

fn status(numbers: &[u64], at: usize) -> Result<FinalStatus, RecordFault>
    ensures { result ≡ status_at at numbers.now }
{
    FinalStatus::of(byte(numbers, at)?).ok_or(RecordFault::Bad)
}

/// The bytes up to the end.
#[tactic(auto, unfolding(crate::specs::RowReading::bytes_at))]
fn bytes(alloc: Global, numbers: &[u64], at: usize) -> Result<Bytes, RecordFault>
    ensures { Gives result (bytes_at at numbers.now) }
{
    let mut bytes = Bytes::new(alloc);
    for i in at..numbers.len() {
        let byte = byte_of(numbers[i])?;
        bytes.push(byte)?;
    }
    Ok(bytes)
}

/// Eight bytes.
#[tactic(auto, unfolding(crate::specs::RowReading::nonce_at))]
fn nonce(numbers: &[u64]) -> Result<[u8; 8], RecordFault>
    ensures { result ≡ nonce_at 3 numbers.now }
{
    Ok([
        byte(numbers, 3)?,
        byte(numbers, 4)?,
        byte(numbers, 5)?,
        byte(numbers, 6)?,
        byte(numbers, 7)?,
        byte(numbers, 8)?,
        byte(numbers, 9)?,
        byte(numbers, 10)?,
    ])
}

#[tactic(auto, unfolding(crate::specs::RowReading::setpoint_at))]
fn setpoint(numbers: &[u64]) -> Result<What, RecordFault>
    ensures { result ≡ setpoint_at numbers.now }
{
    Ok(What::Setpoint {
        kind: byte(numbers, 5)?,
        tenths: short(numbers, 6)?,
    })
}

#[tactic(auto, unfolding(crate::specs::RowReading::config_at))]
fn config(numbers: &[u64]) -> Result<What, RecordFault>
    ensures { result ≡ config_at numbers.now }
{
    Ok(What::Config {
        param: byte(numbers, 5)?,
        value: long(numbers, 6)?,
    })
}

#[tactic(auto, unfolding(crate::specs::RowReading::bulk_at))]
fn bulk(alloc: Global, numbers: &[u64]) -> Result<What, RecordFault>
    ensures { Gives result (bulk_at numbers.now) }
{
    Ok(What::Bulk {
        offset: byte(numbers, 5)?,
        values: bytes(alloc, numbers, 6)?,
    })
}

#[tactic(auto, unfolding(crate::specs::RowReading::member_at))]
fn associate(numbers: &[u64]) -> Result<What, RecordFault>
    ensures { result ≡ member_at what.Associate numbers.now }
{
    Ok(What::Associate {
        group: byte(numbers, 5)?,
        member: node(numbers, 6)?,
    })
}

#[tactic(auto, unfolding(crate::specs::RowReading::member_at))]
fn dissociate(numbers: &[u64]) -> Result<What, RecordFault>
    ensures { result ≡ member_at what.Dissociate numbers.now }
{
    Ok(What::Dissociate {
        group: byte(numbers, 5)?,
        member: node(numbers, 6)?,
    })
}

#[tactic(auto, unfolding(crate::specs::RowReading::comfort_at))]
fn comfort(numbers: &[u64]) -> Result<What, RecordFault>
    ensures { result ≡ comfort_at numbers.now }
{
    Ok(What::Comfort {
        mode: byte(numbers, 5)?,
        kind: byte(numbers, 6)?,
        tenths: short(numbers, 7)?,
    })
}

/// What is asked.
#[tactic(auto, unfolding(crate::specs::RowReading::what_at))]
fn what(alloc: Global, numbers: &[u64]) -> Result<What, RecordFault>
    ensures { Gives result (what_at numbers.now) }
{
    match number(numbers, 4)? {
        ON => Ok(What::Value(Word::On)),
        OFF => Ok(What::Value(Word::Off)),
        LEVEL => Ok(What::Value(Word::Level(byte(numbers, 5)?))),
        MODE => Ok(What::Mode(byte(numbers, 5)?)),
        SETPOINT => setpoint(numbers),
        CONFIG => config(numbers),
        BULK => bulk(alloc, numbers),
        ASSOCIATE => associate(numbers),
        DISSOCIATE => dissociate(numbers),
        INTERVAL => Ok(What::Interval(long(numbers, 5)?)),
        COMFORT => comfort(numbers),
        _ => Err(RecordFault::Bad),
    }
}

#[tactic(auto, unfolding(crate::specs::RowReading::accepted_at))]
fn accepted(alloc: Global, numbers: &[u64]) -> Result<Record, RecordFault>
    ensures { Gives result (accepted_at numbers.now) }
{
    let command = long(numbers, 1)?;
    let order = Order {
        node: node(numbers, 2)?,
        end: end(numbers, 3)?,
        what: what(alloc, numbers)?,
    };
    Ok(Record::Accepted { command, order })
}

#[tactic(auto, unfolding(crate::specs::RowReading::classes_at))]
fn classes(alloc: Global, numbers: &[u64]) -> Result<Record, RecordFault>
    ensures { Gives result (classes_at numbers.now) }
{
    Ok(Record::Classes {
        node: node(numbers, 1)?,
        listens: flag(numbers, 2)?,
        classes: bytes(alloc, numbers, 3)?,
    })
}

#[tactic(auto, unfolding(crate::specs::RowReading::begun_at))]
fn begun(numbers: &[u64]) -> Result<Record, RecordFault>
    ensures { result ≡ begun_at numbers.now }
{
    Ok(Record::Begun {
        node: node(numbers, 1)?,
        session: number(numbers, 2)?,
        command: long(numbers, 3)?,
    })
}

#[tactic(auto, unfolding(crate::specs::RowReading::final_at))]
fn ended(numbers: &[u64]) -> Result<Record, RecordFault>
    ensures { result ≡ final_at numbers.now }
{
    Ok(Record::Final {
        node: node(numbers, 1)?,
        session: number(numbers, 2)?,
        status: status(numbers, 3)?,
    })
}

#[tactic(auto, unfolding(crate::specs::RowReading::given_at))]
fn given(numbers: &[u64]) -> Result<Record, RecordFault>
    ensures { result ≡ given_at numbers.now }
{
    Ok(Record::Given {
        node: node(numbers, 1)?,
        given: number(numbers, 2)?,
        nonce: nonce(numbers)?,
    })
}

#[tactic(auto, unfolding(crate::specs::RowReading::seen_at))]
fn seen(numbers: &[u64]) -> Result<Record, RecordFault>
    ensures { result ≡ seen_at numbers.now }
{
    Ok(Record::Seen {
        node: node(numbers, 1)?,
        seen: number(numbers, 2)?,
    })
}

/// The record that these numbers begin with.
#[tactic(auto, unfolding(crate::specs::RowReading::record_at))]
pub(crate) fn record_of(alloc: Global, numbers: &[u64]) -> Result<Record, RecordFault>
    ensures { Gives result (record_at numbers.now) }
{
    match number(numbers, 0)? {
        ACCEPTED => accepted(alloc, numbers),
        JOINED => Ok(Record::Joined {
            node: node(numbers, 1)?,
        }),
        CLASSES => classes(alloc, numbers),
        BEGUN => begun(numbers),
        FINAL => ended(numbers),
        CANCELLED => Ok(Record::Cancelled {
            command: long(numbers, 1)?,
        }),
        GIVEN => given(numbers),
        SPENT => Ok(Record::Spent {
            node: node(numbers, 1)?,
        }),
        SEEN => seen(numbers),
        _ => Err(RecordFault::Bad),
    }
}
