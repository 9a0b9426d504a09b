//! The commands of a Multi Command Encapsulation.

ghost use Rattle.std.specs.Prelude.{◌≡◌, ℕ, ◌+◌, ◌<◌, ◌≤◌, ◌++◌, ◌∷◌, true, List as Items, length, IfSome, IfNone, IfOk, IfErr, OnOk};
ghost use Rattle.encap.specs.Begins.{IsMultiCommand};
ghost use Rattle.encap.specs.Wraps.{IsBatchOf, IsListOf, IsCommand, AllCommands};
ghost use Rattle.encap.specs.Faults.{IsCutShort, IsCutShortFault, IsBatchFault, IsCommandFault, IsFirstFault};

use crate::WrapFault;
use crate::begins::is_misplaced;
use std::alloc::Global;
use zw_base::{Bytes, List, NoMemory};

/// The bytes before the first length: class, command, count.
const HEADER_LEN: usize = 3;

/// The first command after its length, and what follows it.
fn split_command(rest: &[u8]) -> Option<(&[u8], &[u8])>
    ensures fits { IfSome result (λ split. length split.0.now ≤ 255) }
    ensures split { IfSome result (λ split. rest.now ≡ length split.0.now ∷ (split.0.now ++ split.1.now)) }
    ensures short { IfNone result (IsCutShort rest.now) }
{
    let (len, more) = rest.split_first()?;
    let len = usize::from(*len);
    if more.len() < len {
        return None;
    }
    Some((&more[..len], &more[len..]))
}

/// Whether a command is no encapsulation and not empty.
pub fn check_command(command: &[u8], within: bool) -> Result<(), WrapFault>
    ensures command { OnOk result (IsCommand within command.now) }
    ensures fault { IfErr result (λ fault. IsCommandFault within command.now fault) }
{
    if command.is_empty() {
        return Err(WrapFault::Length { said: 1, got: 0 });
    }
    if is_misplaced(command, within) {
        return Err(WrapFault::OutOfOrder(command[0]));
    }
    Ok(())
}

/// Whether each of the listed commands is one.
pub fn check_commands(listed: &[u8]) -> Result<(), WrapFault>
    ensures commands { (commands : Items (Items ℕ)) → IsListOf commands listed.now → OnOk result (AllCommands true commands) }
    ensures fault { (commands : Items (Items ℕ)) → IsListOf commands listed.now → IfErr result (λ fault. IsFirstFault true commands fault) }
{
    let mut rest = listed;
    while let Some((command, after)) = split_command(rest) {
        check_command(command, true)?;
        rest = after;
    }
    Ok(())
}

/// The listed commands.
pub fn collect(alloc: Global, listed: &[u8]) -> Result<List<Bytes>, NoMemory>
    ensures { (commands : Items (Items ℕ)) → IsListOf commands listed.now → IfOk result (λ collected. collected.items ≡ commands) }
{
    let mut commands = List::new(alloc);
    let mut rest = listed;
    while let Some((command, after)) = split_command(rest) {
        commands.push(Bytes::from_slice(alloc, command)?)?;
        rest = after;
    }
    Ok(commands)
}

/// Whether count and lengths are those of what follows them.
pub fn check_batch(bytes: &[u8]) -> Result<(), WrapFault>
    requires head { IsMultiCommand bytes.now }
    requires len { length bytes.now ≤ 65534 }
    ensures batch { OnOk result ((commands : Items (Items ℕ)) × IsBatchOf commands bytes.now) }
    ensures fault { IfErr result (λ fault. IsBatchFault bytes.now fault) }
{
    let len = bytes.len() as u16;
    if bytes.len() < HEADER_LEN {
        return Err(WrapFault::Length {
            said: HEADER_LEN as u16,
            got: len,
        });
    }
    let mut rest = &bytes[HEADER_LEN..];
    for _count in 0..bytes[2] {
        let Some((_, after)) = split_command(rest) else {
            return Err(cut_short(rest, len));
        };
        rest = after;
    }
    if !rest.is_empty() {
        return Err(WrapFault::Length {
            said: len - rest.len() as u16,
            got: len,
        });
    }
    Ok(())
}

/// The fault of a command that is cut short, in a batch of that many bytes.
fn cut_short(rest: &[u8], len: u16) -> WrapFault
    requires short { IsCutShort rest.now }
    requires room { length rest.now ≤ 65534 }
    requires len { len ≤ 65534 }
    ensures { IsCutShortFault rest.now len result }
{
    match rest.split_first() {
        None => WrapFault::Length {
            said: len + 1,
            got: len,
        },
        Some((said, more)) => WrapFault::Length {
            said: u16::from(*said),
            got: more.len() as u16,
        },
    }
}
