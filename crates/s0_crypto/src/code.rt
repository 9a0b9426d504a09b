//! The code of a sealed message: the prefix of the CBC-MAC of what it covers.

ghost use Rattle.std.specs.Prelude.{◌≡◌, ℕ, ◌+◌, ◌*◌, ◌^◌, ◌<◌, take, slice_index};
ghost use Rattle.s0_crypto.specs.Modes.{sum_of_blocks, block_at, cbc_mac};
ghost use Rattle.s0_crypto.specs.Seal.{covered};

use crate::SealEnds;
use aes_block::Aes128;

/// The bytes of a block.
const BLOCK: usize = 16;

/// The bytes that the code covers before the cipher text: the vector, the command, two ends and a length.
const BEFORE_CIPHER_TEXT: usize = BLOCK + 4;

/// The command of a Security message (Z-Wave Security 0 Command Class: Security Message Encapsulation).
pub(crate) const MESSAGE: u8 = 0x81;

/// The byte of a text at a place, and 0 past its end.
fn byte_or_zero(text: &[u8], place: usize) -> u8
    ensures { result ≡ slice_index text.now place }
{
    if place < text.len() { text[place] } else { 0 }
}

/// The byte at a place of what a code covers, and 0 past its end.
fn covered_byte(vector: &[u8; 16], ends: &SealEnds, cipher_text: &[u8], place: usize) -> u8
    ensures { result ≡ slice_index (covered vector.now ends.now cipher_text.now) place }
{
    if place < BLOCK {
        return vector[place];
    }
    match place - BLOCK {
        0 => MESSAGE,
        1 => ends.sender.number(),
        2 => ends.receiver.number(),
        3 => (cipher_text.len() % 256) as u8,
        _ => byte_or_zero(cipher_text, place - BEFORE_CIPHER_TEXT),
    }
}

/// The sum of what is chained and the block of what a code covers that begins at a place.
fn add_block(
    chained: &[u8; 16],
    vector: &[u8; 16],
    ends: &SealEnds,
    cipher_text: &[u8],
    first: usize,
) -> [u8; 16]
    requires { first + 16 < 2 ^ 64 }
    ensures { (i : ℕ) → first ≡ 16 * i
        → result ≡ sum_of_blocks chained.now (block_at (covered vector.now ends.now cipher_text.now) i) }
{
    let mut sum = [0; BLOCK];
    for j in 0..BLOCK {
        sum[j] = chained[j] ^ covered_byte(vector, ends, cipher_text, first + j);
    }
    sum
}

/// The prefix of a block.
fn prefix(b: &[u8; 16]) -> [u8; 8]
    ensures { result ≡ take 8 b.now }
{
    [b[0], b[1], b[2], b[3], b[4], b[5], b[6], b[7]]
}

/// The code of a cipher text.
pub(crate) fn code(key: &Aes128, vector: &[u8; 16], ends: &SealEnds, cipher_text: &[u8]) -> [u8; 8]
    ensures { result ≡ take 8 (cbc_mac key.now (covered vector.now ends.now cipher_text.now)) }
{
    let blocks = (BEFORE_CIPHER_TEXT + cipher_text.len()).div_ceil(BLOCK);
    let mut chained = [0; BLOCK];
    for i in 0..blocks {
        chained = key.encrypt(add_block(&chained, vector, ends, cipher_text, BLOCK * i));
    }
    prefix(&chained)
}
