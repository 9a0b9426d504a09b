//! Messages put into their wraps.

ghost use Rattle.std.specs.Prelude.{◌≡◌, ◌+◌, ◌^◌, ◌<◌, ◌≤◌, length, None, IfOk, IfErr};
ghost use Rattle.encap.specs.Wraps.{Wraps, listed, crc16_text};
ghost use Rattle.encap.specs.Written.{
  AreEnds,
  AreShort,
  IsSession,
  IsWrapFault,
  IsWrappable,
  addressed_form,
  batch_text,
  checked_form,
  first_long,
  only_of,
  supervised_form,
  too_long,
  too_long_by,
  written_form,
  long_inside,
};

use crate::WrapFault;
use crate::plan::{Ends, Outer, Plan, Supervised};
use std::alloc::Global;
use zw_base::{Bytes, List, NoMemory, crc_ccitt};

/// The most bytes that a length byte counts.
const MAX_LEN: usize = 255;

/// The bytes before the first length of a batch.
const BATCH_HEADER_LEN: usize = 3;

/// The bytes of these commands in the wraps of the plan, each bit that is not looked at 0.
pub fn wrap(alloc: Global, plan: &Plan, commands: &List<Bytes>) -> Result<Bytes, WrapFault>
    requires wrappable { IsWrappable plan.now commands.now.items }
    requires short { AreShort commands.now.items }
    ensures form { IfOk result (λ bytes. bytes ≡ written_form plan.now commands.now.items) }
    ensures wraps { IfOk result (λ bytes. Wraps plan.now commands.now.items bytes) }
    ensures fits { IfOk result (λ bytes. too_long plan.now commands.now.items ≡ None) }
    ensures fault { IfErr result (λ fault. IsWrapFault plan.now commands.now.items fault) }
{
    let commands = commands.as_slice();
    if let Some(len) = unfit(plan.batch, plan.session, commands) {
        return Err(WrapFault::TooLong(len));
    }
    let batched = if plan.batch {
        batch(alloc, commands)?
    } else {
        alone(alloc, commands)?
    };
    let supervised = supervised(alloc, plan.session, batched)?;
    let addressed = addressed(alloc, plan.channel, supervised)?;
    Ok(checked(alloc, plan.outer, addressed)?)
}

/// The length that does not fit its byte.
fn unfit(is_batch: bool, session: Option<Supervised>, commands: &[Bytes]) -> Option<u16>
    requires count { length commands.now ≤ 255 }
    requires short { AreShort commands.now }
    ensures { result ≡ too_long_by is_batch session commands.now }
{
    if is_batch {
        match first_unfit(commands) {
            Some(len) => Some(len),
            None => unfit_inside(session, BATCH_HEADER_LEN + listed_len(commands)),
        }
    } else {
        unfit_inside(session, only_len(commands))
    }
}

/// That length, if it is supervised and does not fit.
fn unfit_inside(session: Option<Supervised>, len: usize) -> Option<u16>
    requires { len < 2 ^ 16 }
    ensures { result ≡ long_inside session len }
{
    if session.is_some() && len > MAX_LEN {
        Some(len as u16)
    } else {
        None
    }
}

/// The length of the first command that does not fit its byte.
fn first_unfit(commands: &[Bytes]) -> Option<u16>
    requires { AreShort commands.now }
    ensures { result ≡ first_long commands.now }
{
    for command in commands {
        if command.len() > MAX_LEN {
            return Some(command.len() as u16);
        }
    }
    None
}

/// The length of the one command.
fn only_len(commands: &[Bytes]) -> usize
    requires { AreShort commands.now }
    ensures len { result ≡ length (only_of commands.now) }
    ensures short { result < 2 ^ 16 }
{
    match commands.first() {
        Some(command) => command.len(),
        None => 0,
    }
}

/// The length of the commands, each after its length.
fn listed_len(commands: &[Bytes]) -> usize
    requires count { length commands.now ≤ 255 }
    requires fit { first_long commands.now ≡ None }
    ensures len { result ≡ length (listed commands.now) }
    ensures most { result ≤ 65280 }
{
    let mut len = 0;
    for command in commands {
        len += 1 + command.len();
    }
    len
}

/// The commands in a batch.
fn batch(alloc: Global, commands: &[Bytes]) -> Result<Bytes, NoMemory>
    requires count { length commands.now ≤ 255 }
    requires fit { first_long commands.now ≡ None }
    ensures { IfOk result (λ bytes. bytes ≡ batch_text commands.now) }
{
    let mut bytes = Bytes::from_slice(alloc, &[0x8F, 0x01, commands.len() as u8])?;
    for command in commands {
        bytes.push(command.len() as u8)?;
        bytes.extend(command.as_slice())?;
    }
    Ok(bytes)
}

/// The one command.
fn alone(alloc: Global, commands: &[Bytes]) -> Result<Bytes, NoMemory>
    ensures { IfOk result (λ bytes. bytes ≡ only_of commands.now) }
{
    match commands.first() {
        Some(command) => Bytes::from_slice(alloc, command.as_slice()),
        None => Ok(Bytes::new(alloc)),
    }
}

/// What is supervised, in Supervision Get where there is a session.
fn supervised(alloc: Global, session: Option<Supervised>, inner: Bytes) -> Result<Bytes, NoMemory>
    requires session { IsSession session }
    requires fit { long_inside session (length inner) ≡ None }
    ensures { IfOk result (λ bytes. bytes ≡ supervised_form session inner) }
{
    match session {
        None => Ok(inner),
        Some(session) => {
            let updates = if session.updates { 0x80 } else { 0 };
            Bytes::joined(
                alloc,
                &[0x6C, 0x01, updates + session.id, inner.len() as u8],
                inner.as_slice(),
            )
        }
    }
}

/// What is sent, in Multi Channel where there are end points.
fn addressed(alloc: Global, channel: Option<Ends>, inner: Bytes) -> Result<Bytes, NoMemory>
    ensures form { IfOk result (λ bytes. bytes ≡ addressed_form channel inner) }
    ensures ends { AreEnds channel }
{
    match channel {
        None => Ok(inner),
        Some(ends) => Bytes::joined(
            alloc,
            &[0x60, 0x0D, ends.source.number(), ends.target.number()],
            inner.as_slice(),
        ),
    }
}

/// What is checked, in CRC-16 where that is the outermost wrap.
fn checked(alloc: Global, outer: Outer, inner: Bytes) -> Result<Bytes, NoMemory>
    ensures { IfOk result (λ bytes. bytes ≡ checked_form outer inner) }
{
    match outer {
        Outer::Crc16 => with_check(alloc, inner.as_slice()),
        Outer::None | Outer::Security | Outer::Transport => Ok(inner),
    }
}

/// CRC-16 of these bytes.
fn with_check(alloc: Global, inner: &[u8]) -> Result<Bytes, NoMemory>
    ensures { IfOk result (λ bytes. bytes ≡ crc16_text inner.now) }
{
    let mut bytes = Bytes::joined(alloc, &[0x56, 0x01], inner)?;
    let check = crc_ccitt(bytes.as_slice());
    bytes.push((check / 256) as u8)?;
    bytes.push((check % 256) as u8)?;
    Ok(bytes)
}
