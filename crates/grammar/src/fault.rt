//! Where the fault of a text is.

ghost use Rattle.std.specs.Prelude.{◌≡◌, ◌-◌, ◌≤◌, length, drop};
ghost use Rattle.grammar.specs.Parses.{offset_of};

use crate::Lexed;

/// The offset of the token with which so many are left, or the length of the text.
pub fn offset<S, K>(bytes: &[u8], ts: &[Lexed<S, K>], left: usize) -> u64
    requires { left ≤ length ts.now }
    ensures { result ≡ offset_of (length bytes.now) (drop (length ts.now - left) ts.now) }
{
    match &ts[ts.len() - left..] {
        [t, ..] => t.at,
        [] => bytes.len() as u64,
    }
}
