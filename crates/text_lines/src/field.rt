//! What stands in a line.

ghost use Rattle.std.specs.Prelude.{◌≡◌, ◌==◌, not, length, take_while, option_map, option_copied};
ghost use Rattle.lexing.specs.Bytes.{is_name_byte};
ghost use Rattle.lexing.specs.Numbers.{below_2_64};
ghost use Rattle.text_lines.specs.Fields.{parts_at, line_end, number_of, decimal_from, is_canonical, are_digits, are_name_bytes, is_name};

use lexing::{digit, letter};

/// The greatest number of bytes of a name.
const MAX_NAME: usize = 32;

// How many bytes stand before the first byte `mark`, or all where there is none.
fn bytes_before(text: &[u8], mark: u8) -> usize
    ensures { result ≡ length (take_while (λ byte. not (byte == mark)) text.now) }
{
    text.iter().take_while(|byte| **byte != mark).count()
}

/// What stands before the first byte `mark` and what stands behind it, or None where there is no
/// such byte.
pub fn cut(text: &[u8], mark: u8) -> Option<(&[u8], &[u8])>
    ensures { option_map (λ parts. (parts.0.now, parts.1.now)) result ≡ parts_at mark text.now }
{
    let before = bytes_before(text, mark);
    if before < text.len() {
        Some((&text[..before], &text[before + 1..]))
    } else {
        None
    }
}

/// What stands before the LF, which is the last byte.
#[tactic(auto, unfolding(crate::specs::Fields::line_end))]
pub fn line_end(text: &[u8]) -> Option<&[u8]>
    ensures { option_copied result ≡ line_end text.now }
{
    let (front, rest) = cut(text, b'\n')?;
    if rest.is_empty() { Some(front) } else { None }
}

fn value(digits: &[u8]) -> Option<u64>
    ensures { result ≡ below_2_64 (decimal_from 0 digits.now) }
{
    let mut number: u64 = 0;
    for digit in digits {
        let more = u64::from(digit.saturating_sub(b'0'));
        number = number.checked_mul(10)?.checked_add(more)?;
    }
    Some(number)
}

// Whether there is a digit, and no zero before another one.
fn plain(digits: &[u8]) -> bool
    ensures { result ≡ is_canonical digits.now }
{
    match digits {
        [] => false,
        [_] => true,
        [first, ..] => *first != b'0',
    }
}

fn all_digits(text: &[u8]) -> bool
    ensures { result ≡ are_digits text.now }
{
    text.iter().all(|byte| digit(*byte))
}

#[tactic(auto, unfolding(crate::specs::Fields::number_of))]
/// The number that is written in decimal digits, without leading zeros. None where the text isn't
/// one below `2^64`.
pub fn number(text: &[u8]) -> Option<u64>
    ensures { result ≡ number_of text.now }
{
    if plain(text) && all_digits(text) {
        value(text)
    } else {
        None
    }
}

fn name_byte(byte: u8) -> bool
    ensures { result ≡ is_name_byte byte }
{
    letter(byte) || digit(byte)
}

fn all_name_bytes(text: &[u8]) -> bool
    ensures { result ≡ are_name_bytes text.now }
{
    text.iter().all(|byte| name_byte(*byte))
}

/// Whether the text is a name: a letter or `_`, then letters, digits and `_`, 32 bytes at most.
#[tactic(auto, unfolding(crate::specs::Fields::is_name))]
pub fn is_name(text: &[u8]) -> bool
    ensures { result ≡ is_name text.now }
{
    match text {
        [] => false,
        [first, ..] => letter(*first) && text.len() <= MAX_NAME && all_name_bytes(text),
    }
}
