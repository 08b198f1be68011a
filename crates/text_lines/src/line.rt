//! The lines of a text.

ghost use Rattle.std.specs.Prelude.{◌≡◌, IfSome, IfNone, []};
ghost use Rattle.text_lines.specs.Lines.{IsFirstLine};

use crate::field::cut;

/// The first line with its LF and what follows it, or the whole text where it has no LF. None where
/// the text is empty.
pub fn first_line(text: &[u8]) -> Option<(&[u8], &[u8])>
    ensures some { IfSome result (λ parts. IsFirstLine text.now parts.0.now parts.1.now) }
    ensures none { IfNone result (text.now ≡ []) }
{
    if text.is_empty() {
        return None;
    }
    match cut(text, b'\n') {
        Some((before, _)) => Some(text.split_at(before.len() + 1)),
        None => Some((text, &[])),
    }
}
