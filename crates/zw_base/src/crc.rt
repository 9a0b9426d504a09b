//! The CRC of CRC-16 Encapsulation and of the segments of Transport Service.

ghost use Rattle.std.specs.Prelude.{◌≡◌, ℕ, ◌*◌, ◌^◌, bit_xor};
ghost use Rattle.zw_base.specs.Crc.{IsRemainder, dividend, crc};

/// What the register holds before the first byte.
const START: u16 = 0x1D0F;

/// The generator's coefficients below x^16.
const POLYNOMIAL: u16 = 0x1021;

/// The CRC-CCITT of these bytes: polynomial 0x1021, start 0x1D0F, no reflection and no final change (CRC-16
/// Encapsulation and Transport Service Command Classes).
pub fn crc_ccitt(bytes: &[u8]) -> u16
    ensures remainder { IsRemainder (dividend bytes.now) result }
    // no other number is the remainder
    ensures only { (r : ℕ) → IsRemainder (dividend bytes.now) r → r ≡ result }
    ensures value { result ≡ crc bytes.now }
{
    let mut register = START;
    for byte in bytes {
        register = with_byte(register, *byte);
    }
    register
}

/// The register after one more byte.
fn with_byte(register: u16, byte: u8) -> u16
    ensures { (p : ℕ) → IsRemainder p register → IsRemainder (bit_xor (p * 2 ^ 8) (byte * 2 ^ 16)) result }
{
    let mut left = register ^ ((byte as u16) << 8);
    for _bit in 0..u8::BITS {
        left = times_x(left);
    }
    left
}

/// The register after one more coefficient 0.
fn times_x(register: u16) -> u16
    ensures { (p : ℕ) → IsRemainder p register → IsRemainder (2 * p) result }
{
    if register < 0x8000 {
        register << 1
    } else {
        (register << 1) ^ POLYNOMIAL
    }
}
