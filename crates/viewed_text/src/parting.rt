//! A text up to its first line `done`, and the rest.

ghost use Rattle.std.specs.Prelude.{◌≡◌, codes};
ghost use Rattle.std.specs.Str.{bytes_eq};
ghost use Rattle.viewed_text.specs.Inner.Behind.{IsParted};

use text_lines::cut;

// Whether a line without its LF is `done`.
fn is_done(line: &[u8]) -> bool
    ensures { result ≡ bytes_eq line.now (codes "done") }
{
    line == b"done".as_slice()
}

/// The bytes up to the first line `done`, with it, and those behind; or all bytes where none is.
pub fn parted(bytes: &[u8]) -> (&[u8], &[u8])
    ensures { IsParted bytes.now result.0.now result.1.now }
{
    let mut rest = bytes;
    while let Some((line, more)) = cut(rest, b'\n') {
        let done = is_done(line);
        if done {
            return bytes.split_at(bytes.len() - more.len());
        }
        rest = more;
    }
    bytes.split_at(bytes.len())
}
