//! Classes of bytes, and runs of them.

ghost use Rattle.std.specs.Prelude.{◌≡◌, length, take_while};
ghost use Rattle.lexing.specs.Bytes.{is_blank, is_digit, is_hex_digit, is_letter, is_name_byte, is_comment_byte, begins_with};

pub fn blank(byte: u8) -> bool
    ensures { result ≡ is_blank byte }
{
    matches!(byte, b' ' | b'\t' | b'\r' | b'\n')
}

/// Whether a byte is a decimal digit.
pub fn digit(byte: u8) -> bool
    ensures { result ≡ is_digit byte }
{
    byte.is_ascii_digit()
}

fn hex_digit(byte: u8) -> bool
    ensures { result ≡ is_hex_digit byte }
{
    byte.is_ascii_hexdigit()
}

/// Whether a byte is a letter that a name may begin with: `A` to `Z`, `a` to `z`, or `_`.
pub fn letter(byte: u8) -> bool
    ensures { result ≡ is_letter byte }
{
    byte.is_ascii_alphabetic() || byte == b'_'
}

/// How many bytes of a comment are left.
pub fn comment_bytes(bytes: &[u8]) -> usize
    ensures { result ≡ length (take_while is_comment_byte bytes.now) }
{
    bytes.iter().take_while(|byte| **byte != b'\n').count()
}

/// How many bytes of a name come first.
pub fn name_bytes(bytes: &[u8]) -> usize
    ensures { result ≡ length (take_while is_name_byte bytes.now) }
{
    bytes
        .iter()
        .take_while(|byte| letter(**byte) || digit(**byte))
        .count()
}

/// How many decimal digits come first.
pub fn digits(bytes: &[u8]) -> usize
    ensures { result ≡ length (take_while is_digit bytes.now) }
{
    bytes.iter().take_while(|byte| digit(**byte)).count()
}

/// How many hexadecimal digits come first.
pub fn hex_digits(bytes: &[u8]) -> usize
    ensures { result ≡ length (take_while is_hex_digit bytes.now) }
{
    bytes.iter().take_while(|byte| hex_digit(**byte)).count()
}

pub fn begins_with_letter(bytes: &[u8]) -> bool
    ensures { result ≡ begins_with is_letter bytes.now }
{
    match bytes {
        [] => false,
        [first, ..] => letter(*first),
    }
}

pub fn begins_with_hex_digit(bytes: &[u8]) -> bool
    ensures { result ≡ begins_with is_hex_digit bytes.now }
{
    match bytes {
        [] => false,
        [first, ..] => hex_digit(*first),
    }
}
