//! The four transformations of a state (FIPS 197, sections 5.1.1 to 5.1.4). A state is 16 bytes, column after column.

ghost use Rattle.std.specs.Prelude.{◌≡◌};
ghost use Rattle.aes_block.specs.Cipher.{sub_bytes, shift_rows, mix_columns, add_round_key, mixed};

use crate::doubling::double;
use crate::substitution::substitute;

/// SubBytes of a state.
pub(crate) fn sub_bytes(s: [u8; 16]) -> [u8; 16]
    ensures { result ≡ sub_bytes s }
{
    [
        substitute(s[0]),
        substitute(s[1]),
        substitute(s[2]),
        substitute(s[3]),
        substitute(s[4]),
        substitute(s[5]),
        substitute(s[6]),
        substitute(s[7]),
        substitute(s[8]),
        substitute(s[9]),
        substitute(s[10]),
        substitute(s[11]),
        substitute(s[12]),
        substitute(s[13]),
        substitute(s[14]),
        substitute(s[15]),
    ]
}

/// ShiftRows: row r goes r places to the left.
pub(crate) fn shift_rows(s: [u8; 16]) -> [u8; 16]
    ensures { result ≡ shift_rows s }
{
    [
        s[0], s[5], s[10], s[15], s[4], s[9], s[14], s[3], s[8], s[13], s[2], s[7], s[12], s[1],
        s[6], s[11],
    ]
}

/// A byte of a mixed column, from the byte at its place and the three below it.
fn mix(a: u8, b: u8, c: u8, d: u8) -> u8
    ensures { result ≡ mixed a b c d }
{
    double(a) ^ (double(b) ^ b) ^ c ^ d
}

/// MixColumns of a state.
pub(crate) fn mix_columns(s: [u8; 16]) -> [u8; 16]
    ensures { result ≡ mix_columns s }
{
    [
        mix(s[0], s[1], s[2], s[3]),
        mix(s[1], s[2], s[3], s[0]),
        mix(s[2], s[3], s[0], s[1]),
        mix(s[3], s[0], s[1], s[2]),
        mix(s[4], s[5], s[6], s[7]),
        mix(s[5], s[6], s[7], s[4]),
        mix(s[6], s[7], s[4], s[5]),
        mix(s[7], s[4], s[5], s[6]),
        mix(s[8], s[9], s[10], s[11]),
        mix(s[9], s[10], s[11], s[8]),
        mix(s[10], s[11], s[8], s[9]),
        mix(s[11], s[8], s[9], s[10]),
        mix(s[12], s[13], s[14], s[15]),
        mix(s[13], s[14], s[15], s[12]),
        mix(s[14], s[15], s[12], s[13]),
        mix(s[15], s[12], s[13], s[14]),
    ]
}

/// AddRoundKey: the sum of a state and a round key.
pub(crate) fn add_round_key(s: [u8; 16], k: &[u8; 16]) -> [u8; 16]
    ensures { result ≡ add_round_key s k.now }
{
    [
        s[0] ^ k[0],
        s[1] ^ k[1],
        s[2] ^ k[2],
        s[3] ^ k[3],
        s[4] ^ k[4],
        s[5] ^ k[5],
        s[6] ^ k[6],
        s[7] ^ k[7],
        s[8] ^ k[8],
        s[9] ^ k[9],
        s[10] ^ k[10],
        s[11] ^ k[11],
        s[12] ^ k[12],
        s[13] ^ k[13],
        s[14] ^ k[14],
        s[15] ^ k[15],
    ]
}
