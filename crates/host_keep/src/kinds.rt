//! The numbers that tell the kinds of records and of orders apart.

/// An order was taken.
pub(crate) const ACCEPTED: u64 = 1;
/// A node joined.
pub(crate) const JOINED: u64 = 2;
/// A node was interviewed.
pub(crate) const CLASSES: u64 = 3;
/// A session was begun.
pub(crate) const BEGUN: u64 = 4;
/// A session ended.
pub(crate) const FINAL: u64 = 5;
/// A command was cancelled.
pub(crate) const CANCELLED: u64 = 6;
/// A nonce was given.
pub(crate) const GIVEN: u64 = 7;
/// A nonce was spent.
pub(crate) const SPENT: u64 = 8;
/// A nonce was seen.
pub(crate) const SEEN: u64 = 9;

/// A value, all the way on.
pub(crate) const ON: u64 = 0;
/// A value, off.
pub(crate) const OFF: u64 = 1;
/// A level.
pub(crate) const LEVEL: u64 = 2;
/// A mode.
pub(crate) const MODE: u64 = 3;
/// A setpoint.
pub(crate) const SETPOINT: u64 = 4;
/// One parameter.
pub(crate) const CONFIG: u64 = 5;
/// Parameters in a row.
pub(crate) const BULK: u64 = 6;
/// A member of a group.
pub(crate) const ASSOCIATE: u64 = 7;
/// No member of a group.
pub(crate) const DISSOCIATE: u64 = 8;
/// An interval.
pub(crate) const INTERVAL: u64 = 9;
/// Mode and setpoint.
pub(crate) const COMFORT: u64 = 10;
