//! Numbers and words in a line.

ghost use Rattle.std.specs.Prelude.{◌≡◌, ◌≤◌, ◌<◌, option_map};
ghost use Rattle.image_items.specs.Reading.{small, number_before, last_number, pair_of, label_of, word_in};
ghost use Rattle.text_lines.specs.Fields.{line_end};

use text_lines::{cut, line_end, number};

// The bytes of the widest word.
const WORD_BYTES: usize = 8;

/// The number below `2^32` that a text is.
#[tactic(auto, unfolding(crate::specs::Reading::small))]
pub fn small(text: &[u8]) -> Option<u32>
    ensures { result ≡ small text.now }
{
    u32::try_from(number(text)?).ok()
}

/// The number before the first byte `mark`, and what stands behind that.
#[tactic(auto, unfolding(crate::specs::Reading::number_before))]
pub fn number_before(text: &[u8], mark: u8) -> Option<(u32, &[u8])>
    ensures { option_map (λ parts. (parts.0, parts.1.now)) result ≡ number_before mark text.now }
{
    let (front, rest) = cut(text, mark)?;
    Some((small(front)?, rest))
}

/// The number to the end of the line.
#[tactic(auto, unfolding(crate::specs::Reading::last_number))]
pub fn last_number(text: &[u8]) -> Option<u32>
    ensures { result ≡ last_number text.now }
{
    small(line_end(text)?)
}

/// Two numbers, to the end of the line.
#[tactic(auto, unfolding(crate::specs::Reading::pair_of))]
pub fn pair_of(text: &[u8]) -> Option<(u32, u32)>
    ensures { result ≡ pair_of text.now }
{
    let (first, rest) = number_before(text, b' ')?;
    Some((first, last_number(rest)?))
}

/// A tree's number, or `end`.
#[tactic(auto, unfolding(crate::specs::Reading::label_of))]
pub fn label_of(text: &[u8]) -> Option<Option<u32>>
    ensures { result ≡ label_of text.now }
{
    if text == b"end".as_slice() {
        return Some(None);
    }
    Some(Some(small(text)?))
}

/// The word of so many bytes that a text is, in lower case digits, the highest byte first.
#[tactic(auto, unfolding(crate::specs::Reading::word_in))]
pub fn word_in(text: &[u8], bytes: usize) -> Option<u64>
    requires { bytes ≤ WORD_BYTES }
    ensures { result ≡ word_in bytes text.now }
{
    let mut word = [0; WORD_BYTES];
    let mut again = [0; 2 * WORD_BYTES];
    hex::decode_to_slice(text, &mut word[WORD_BYTES - bytes..]).ok()?;
    hex::encode_to_slice(&word[WORD_BYTES - bytes..], &mut again[..2 * bytes]).ok()?;
    if &again[..2 * bytes] == text {
        Some(u64::from_be_bytes(word))
    } else {
        None
    }
}
