//! Numbers.

ghost use Rattle.std.specs.Prelude.{◌≡◌, ◌<◌};
ghost use Rattle.lexing.specs.Numbers.{digit_value, value_from, number_value, is_hexadecimal, number_length, written_number, below_2_64};

use crate::bytes::{begins_with_hex_digit, digits, hex_digits};

const DECIMAL: u64 = 10;

const HEXADECIMAL: u64 = 16;

fn value_of_digit(digit: u8) -> u8
    ensures { result ≡ digit_value digit }
{
    if digit.is_ascii_digit() {
        digit - b'0'
    } else if digit >= b'a' {
        digit - b'a' + 10
    } else {
        digit.saturating_sub(b'A') + 10
    }
}

// The value of digits, or None from `2^64` on.
fn value(base: u64, digits: &[u8]) -> Option<u64>
    requires { 0 < base }
    ensures { result ≡ below_2_64 (value_from base 0 digits.now) }
{
    let mut number: u64 = 0;
    for digit in digits {
        let more = u64::from(value_of_digit(*digit));
        number = number.checked_mul(base)?.checked_add(more)?;
    }
    Some(number)
}

// Whether a hexadecimal number comes first.
fn hexadecimal(bytes: &[u8]) -> bool
    ensures { result ≡ is_hexadecimal bytes.now }
{
    bytes.starts_with(b"0x") && begins_with_hex_digit(&bytes[2..])
}

/// How many bytes the number has with which `bytes` begins.
pub fn number_bytes(bytes: &[u8]) -> usize
    ensures { result ≡ number_length bytes.now }
{
    if hexadecimal(bytes) {
        2 + hex_digits(&bytes[2..])
    } else {
        digits(bytes)
    }
}

/// The value of a number as it is written, or None from `2^64` on.
pub fn number_value_of(bytes: &[u8]) -> Option<u64>
    ensures { result ≡ below_2_64 (number_value bytes.now) }
{
    if hexadecimal(bytes) {
        value(HEXADECIMAL, &bytes[2..])
    } else {
        value(DECIMAL, bytes)
    }
}

/// The value of the bytes of a number token. For other bytes it is what they would be as digits,
/// and `2^64 - 1` at most.
pub fn number_of(bytes: &[u8]) -> u64
    ensures { result ≡ written_number bytes.now }
{
    number_value_of(bytes).unwrap_or(u64::MAX)
}
