//! How what is pending is sealed.

ghost use Rattle.std.specs.Prelude.{◌≡◌, ◌-◌, ◌≤◌, length, slice_index, IfOk, IfSome, OnOk, OnErr};
ghost use Rattle.s0_crypto.specs.Sealing.{keys_of};
ghost use Rattle.inclusion.specs.Sealing.{sealer_after, sent_for};

use s0_crypto::keys;
use s0_session::Sender;
use std::alloc::Global;
use zw_base::{Bytes, NoMemory};

/// The key under which a key is set.
pub(crate) const TEMPORARY_KEY: [u8; 16] = [0; 16];

/// Where a message names a nonce, counted from its end.
const NAMED: usize = 9;

/// The first byte of the nonce that a message names.
pub(crate) fn nonce_named(bytes: &[u8]) -> u8
    requires { 20 ≤ length bytes.now }
    ensures { result ≡ slice_index bytes.now (length bytes.now - 9) }
{
    bytes[bytes.len() - NAMED]
}

/// Seals what is pending for a nonce of its receiver, where the nonce counts as the next or the last.
pub(crate) fn seal_for(
    sealer: &mut Sender,
    key: [u8; 16],
    nonce: [u8; 8],
    drawn: [u8; 8],
) -> Result<Option<Bytes>, NoMemory>
    ensures sent { IfOk result (λ sent. sent ≡ sent_for sealer.old (keys_of key) nonce drawn) }
    ensures sealer { OnOk result (sealer.new ≡ sealer_after sealer.old nonce) }
    ensures short { IfOk result (λ sent. IfSome sent (λ bytes. length bytes ≤ 46)) }
    ensures err { OnErr result (sealer.new ≡ sealer.old) }
{
    let Some(seen) = sealer.count_at(nonce[0])? else {
        return Ok(None);
    };
    let Some(bytes) = sealer.seal_pending(&keys(key), nonce, drawn)? else {
        return Ok(None);
    };
    sealer.restore(seen);
    sealer.drop_pending();
    Ok(Some(bytes))
}
