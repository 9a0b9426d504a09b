//! Opening.

ghost use Rattle.std.specs.Prelude.{◌≡◌, ℕ, ◌-◌, ◌≤◌, ◌<◌, ◌↔◌, List, length, slice_index, IfOk, IsErrOf, IsTrue, MatchResult};
ghost use Rattle.s0_crypto.specs.Modes.{key_block, ofb_from};
ghost use Rattle.s0_crypto.specs.Seal.{Seals};
ghost use Rattle.s0_crypto.specs.Opening.{sender_nonce_in, IsBadlyCoded, HasOtherSequence, IsGood};
ghost use Rattle.s0_crypto.specs.Sealing.{keys_of, unsealed_at};

use crate::code::code;
use crate::join::join;
use crate::key_stream::add_after_first;
use crate::{Keys, SealEnds, SealFault, keys};
use aes_block::Aes128;
use std::alloc::Global;
use zw_base::{Bytes, NoMemory};

/// The bytes of a message that seals no bytes.
const SHORTEST: usize = 20;

/// The bytes of a code or a nonce.
const EIGHT: usize = 8;

/// The place of the cipher text.
const TEXT: usize = 10;

/// The bytes after the cipher text: the first byte of the receiver's nonce, and the code.
const AFTER_TEXT: usize = 1 + EIGHT;

/// Eight bytes.
fn eight(bytes: &[u8]) -> [u8; 8]
    requires { length bytes.now ≡ 8 }
    ensures { result ≡ bytes.now }
{
    let mut copy = [0; EIGHT];
    copy.copy_from_slice(bytes);
    copy
}

/// Whether two codes are the same.
fn same(a: &[u8; 8], b: &[u8; 8]) -> bool
    ensures { IsTrue result ↔ (a.now ≡ b.now) }
{
    a == b
}

/// What stands after the sequence byte of a cipher text. `block` is the first key block.
fn decipher(alloc: Global, cipher: &Aes128, block: [u8; 16], text: &[u8]) -> Result<Bytes, NoMemory>
    ensures { (vector : List ℕ) → block ≡ key_block cipher.now vector 1
        → IfOk result (λ plain. plain ≡ ofb_from cipher.now vector 1 text.now) }
{
    let mut plain = Bytes::new(alloc);
    add_after_first(cipher, block, text, &mut plain)?;
    Ok(plain)
}

/// The plain text of a message for a nonce of its receiver, who is the caller: the message is one of class 0x98 and
/// command 0x81, and names the first byte of that nonce.
pub fn unseal(
    alloc: Global,
    keys: &Keys,
    receiver_nonce: [u8; 8],
    ends: &SealEnds,
    bytes: &[u8],
) -> Result<Bytes, SealFault>
    requires header { 20 ≤ length bytes.now → (slice_index bytes.now 0 ≡ 0x98) × (slice_index bytes.now 1 ≡ 0x81) }
    requires named { 20 ≤ length bytes.now → slice_index bytes.now (length bytes.now - 9) ≡ slice_index receiver_nonce 0 }
    ensures opened { IfOk result (λ plain. Seals keys.now (sender_nonce_in bytes.now) receiver_nonce ends.now plain bytes.now) }

    // What was sealed opens to its plain text and no other, unless there is no memory.
    ensures sealed { (sender_nonce plain : List ℕ) → length sender_nonce ≡ 8
        → Seals keys.now sender_nonce receiver_nonce ends.now plain bytes.now
        → MatchResult result (λ opened. opened ≡ plain) (λ fault. fault ≡ SealFault.NoMemory) }

    // When each refusal comes.
    ensures short { IsErrOf result SealFault.Short ↔ (length bytes.now < 20) }
    ensures bad_code { (want got : List ℕ)
        → IsErrOf result (SealFault.BadCode want got) ↔ IsBadlyCoded keys.now receiver_nonce ends.now bytes.now want got }
    ensures sequence { (byte : ℕ)
        → IsErrOf result (SealFault.Sequence byte) ↔ HasOtherSequence keys.now receiver_nonce ends.now bytes.now byte }
    ensures memory_last { IsErrOf result SealFault.NoMemory → IsGood keys.now receiver_nonce ends.now bytes.now }
{
    if bytes.len() < SHORTEST {
        return Err(SealFault::Short);
    }
    let vector = join(&eight(&bytes[2..TEXT]), &receiver_nonce);
    let text = &bytes[TEXT..bytes.len() - AFTER_TEXT];
    let want = code(&keys.code, &vector, ends, text);
    let got = eight(&bytes[bytes.len() - EIGHT..]);
    if !same(&want, &got) {
        return Err(SealFault::BadCode { want, got });
    }
    let block = keys.encrypt.encrypt(vector);
    let sequence = text[0] ^ block[0];
    if sequence != 0 {
        return Err(SealFault::Sequence(sequence));
    }
    let Ok(plain) = decipher(alloc, &keys.encrypt, block, &text[1..]) else {
        return Err(SealFault::NoMemory);
    };
    Ok(plain)
}

/// The plain text of a message for a nonce of its receiver, where it opens under a network's key.
pub fn open(
    alloc: Global,
    key: [u8; 16],
    nonce: [u8; 8],
    ends: &SealEnds,
    bytes: &[u8],
) -> Result<Option<Bytes>, NoMemory>
    requires long { 20 ≤ length bytes.now }
    requires class { slice_index bytes.now 0 ≡ 0x98 }
    requires command { slice_index bytes.now 1 ≡ 0x81 }
    requires named { slice_index bytes.now (length bytes.now - 9) ≡ slice_index nonce 0 }
    ensures { IfOk result (λ plain. plain ≡ unsealed_at (keys_of key) nonce ends.now bytes.now) }
{
    match unseal(alloc, &keys(key), nonce, ends, bytes) {
        Ok(plain) => Ok(Some(plain)),
        Err(SealFault::NoMemory) => Err(NoMemory),
        Err(SealFault::Short) => Ok(None),
        Err(SealFault::BadCode { .. }) => Ok(None),
        Err(SealFault::Sequence(_)) => Ok(None),
    }
}
