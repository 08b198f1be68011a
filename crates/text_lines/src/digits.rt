//! The bytes of a word, as texts write them.

ghost use Rattle.std.specs.Prelude.{◌≡◌};
ghost use Rattle.text_lines.specs.Digits.{bytes_of};

/// How many bytes a word of so many bits fills.
pub fn bytes_of(bits: u8) -> usize
    ensures { result ≡ bytes_of bits }
{
    (usize::from(bits) + 7) / 8
}
