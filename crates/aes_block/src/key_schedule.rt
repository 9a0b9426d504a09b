//! The key schedule (FIPS 197, section 5.2), a round key at a time.

ghost use Rattle.std.specs.Prelude.{◌≡◌, ℕ, ◌+◌, List};
ghost use Rattle.aes_block.specs.Field.{times_x_to};
ghost use Rattle.aes_block.specs.Cipher.{round_key};

use crate::substitution::substitute;

/// The next round key, from one and the power of x that the schedule adds there.
pub(crate) fn next_round_key(k: &[u8; 16], power: u8) -> [u8; 16]
    ensures { (key : List ℕ) (n : ℕ) → k.now ≡ round_key key n → power ≡ times_x_to n 1 → result ≡ round_key key (n + 1) }
{
    let a = [
        k[0] ^ (substitute(k[13]) ^ power),
        k[1] ^ substitute(k[14]),
        k[2] ^ substitute(k[15]),
        k[3] ^ substitute(k[12]),
    ];
    let b = [k[4] ^ a[0], k[5] ^ a[1], k[6] ^ a[2], k[7] ^ a[3]];
    let c = [k[8] ^ b[0], k[9] ^ b[1], k[10] ^ b[2], k[11] ^ b[3]];
    let d = [k[12] ^ c[0], k[13] ^ c[1], k[14] ^ c[2], k[15] ^ c[3]];
    [
        a[0], a[1], a[2], a[3], b[0], b[1], b[2], b[3], c[0], c[1], c[2], c[3], d[0], d[1], d[2],
        d[3],
    ]
}
