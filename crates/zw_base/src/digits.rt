//! How a number is written.

ghost use Rattle.std.specs.Prelude.{◌≡◌, ◌++◌, ◌<◌, ◌≤◌, OnOk, decimal, string_bytes};

use itoa::Buffer;
use std::alloc::AllocError;

/// Adds the decimal digits of a number. Most numbers have few digits, which are put one by one.
pub fn push_number(text: &mut String, n: u64) -> Result<(), AllocError>
    ensures { OnOk result (string_bytes text.new ≡ string_bytes text.old ++ decimal n) }
{
    if n < 1000 {
        push_short(text, n)
    } else {
        push_long(text, n)
    }
}

/// Adds a number of up to three digits.
fn push_short(text: &mut String, n: u64) -> Result<(), AllocError>
    requires { n < 1000 }
    ensures { OnOk result (string_bytes text.new ≡ string_bytes text.old ++ decimal n) }
{
    if n < 10 {
        return push_digit(text, n);
    }
    if n < 100 {
        return push_two(text, n);
    }
    push_two(text, n / 10)?;
    push_digit(text, n % 10)
}

/// Adds a number of two digits.
fn push_two(text: &mut String, n: u64) -> Result<(), AllocError>
    requires above { 10 ≤ n }
    requires below { n < 100 }
    ensures { OnOk result (string_bytes text.new ≡ string_bytes text.old ++ decimal n) }
{
    push_digit(text, n / 10)?;
    push_digit(text, n % 10)
}

/// Adds a number of one digit.
fn push_digit(text: &mut String, n: u64) -> Result<(), AllocError>
    requires { n < 10 }
    ensures { OnOk result (string_bytes text.new ≡ string_bytes text.old ++ decimal n) }
{
    text.push(char::from(b'0' + n as u8))
}

/// Adds a number of any length.
fn push_long(text: &mut String, n: u64) -> Result<(), AllocError>
    ensures { OnOk result (string_bytes text.new ≡ string_bytes text.old ++ decimal n) }
{
    let mut digits = Buffer::new();
    text.push_str(digits.format(n))
}
