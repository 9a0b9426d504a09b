//! OFB (NIST SP 800-38A, section 6.4) after its first byte, which is the sequence byte of Security 0.

ghost use Rattle.std.specs.Prelude.{◌≡◌, ℕ, ◌+◌, ◌-◌, ◌/◌, ◌≤◌, List, ◌++◌, OnOk};
ghost use Rattle.s0_crypto.specs.Modes.{key_block, ofb_from};

use aes_block::Aes128;
use zw_base::{Bytes, NoMemory};

/// The bytes of a key block.
const BLOCK: usize = 16;

/// The key block of a place of the key stream, from that of the place before.
fn next_block(cipher: &Aes128, block: [u8; 16], place: usize) -> [u8; 16]
    requires { 1 ≤ place }
    ensures { (vector : List ℕ) → block ≡ key_block cipher.now vector ((place - 1) / 16 + 1)
        → result ≡ key_block cipher.now vector (place / 16 + 1) }
{
    if place % BLOCK == 0 {
        cipher.encrypt(block)
    } else {
        block
    }
}

/// Adds to `out` the sum of a text and the key stream from its byte 1 on. `block` is the first key block.
pub(crate) fn add_after_first(
    cipher: &Aes128,
    mut block: [u8; 16],
    text: &[u8],
    out: &mut Bytes,
) -> Result<(), NoMemory>
    ensures { (vector : List ℕ) → block ≡ key_block cipher.now vector 1
        → OnOk result (out.new ≡ out.old ++ ofb_from cipher.now vector 1 text.now) }
{
    for (i, byte) in text.iter().enumerate() {
        block = next_block(cipher, block, i + 1);
        out.push(*byte ^ block[(i + 1) % BLOCK])?;
    }
    Ok(())
}
