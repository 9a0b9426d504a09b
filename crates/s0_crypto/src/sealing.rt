//! Sealing.

ghost use Rattle.std.specs.Prelude.{◌≡◌, ◌≤◌, ◌+◌, ◌∷◌, length, IfOk};
ghost use Rattle.s0_crypto.specs.Modes.{ofb};
ghost use Rattle.s0_crypto.specs.Seal.{Seals};

use crate::code::{MESSAGE, code};
use crate::join::join;
use crate::key_stream::add_after_first;
use crate::{Keys, SealEnds};
use aes_block::Aes128;
use std::alloc::Global;
use zw_base::{Bytes, NoMemory};

/// The class of a Security message (Z-Wave Security 0 Command Class).
const CLASS: u8 = 0x98;

/// The cipher text of a plain text, before which stands the sequence byte 0.
pub(crate) fn encipher(
    alloc: Global,
    cipher: &Aes128,
    vector: &[u8; 16],
    plain: &[u8],
) -> Result<Bytes, NoMemory>
    ensures { IfOk result (λ text. text ≡ ofb cipher.now vector.now (0 ∷ plain.now)) }
{
    let block = cipher.encrypt(*vector);
    let mut text = Bytes::new(alloc);
    text.push(block[0])?;
    add_after_first(cipher, block, plain, &mut text)?;
    Ok(text)
}

/// The message that seals a plain text under the nonces of its two ends.
pub fn seal(
    alloc: Global,
    keys: &Keys,
    sender_nonce: [u8; 8],
    receiver_nonce: [u8; 8],
    ends: &SealEnds,
    plain: &[u8],
) -> Result<Bytes, NoMemory>
    requires { length plain.now ≤ 26 }
    ensures seals { IfOk result (λ bytes. Seals keys.now sender_nonce receiver_nonce ends.now plain.now bytes) }
    ensures short { IfOk result (λ bytes. length bytes ≤ length plain.now + 20) }
{
    let vector = join(&sender_nonce, &receiver_nonce);
    let text = encipher(alloc, &keys.encrypt, &vector, plain)?;
    let cipher_text = text.as_slice();
    let code = code(&keys.code, &vector, ends, cipher_text);
    let mut bytes = Bytes::new(alloc);
    bytes.extend(&[CLASS, MESSAGE])?;
    bytes.extend(&sender_nonce)?;
    bytes.extend(cipher_text)?;
    bytes.push(receiver_nonce[0])?;
    bytes.extend(&code)?;
    Ok(bytes)
}
