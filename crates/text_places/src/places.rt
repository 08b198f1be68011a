//! Lines and columns.

ghost use Rattle.std.specs.Prelude.{◌≡◌, ◌+◌, ◌==◌, count_by, drop, length, reverse, take, take_while};
ghost use Rattle.text_places.specs.Places.{column_at, is_inner, last_line, line_around, line_at};

/// A place in a text, counted from 1: the line, and the byte in it.
#[derive(Clone, Copy, Debug, PartialEq, Eq)]
pub struct TextPlace {
    pub line: usize,
    pub column: usize,
}

// The bytes before an offset, and those from it on.
fn parts(text: &[u8], at: u64) -> (&[u8], &[u8])
    ensures before { result.0.now ≡ take at text.now }
    ensures behind { result.1.now ≡ drop at text.now }
{
    if at < text.len() as u64 {
        text.split_at(at as usize)
    } else {
        (text, &[])
    }
}

// How many bytes stand behind the last LF.
fn behind_last(bytes: &[u8]) -> usize
    ensures { result ≡ length (take_while is_inner (reverse bytes.now)) }
{
    bytes
        .iter()
        .rev()
        .take_while(|byte| **byte != b'\n')
        .count()
}

// How many bytes stand before the first LF.
fn before_first(bytes: &[u8]) -> usize
    ensures { result ≡ length (take_while is_inner bytes.now) }
{
    bytes.iter().take_while(|byte| **byte != b'\n').count()
}

fn newlines(bytes: &[u8]) -> usize
    ensures { result ≡ count_by (λ byte. byte == 10) bytes.now }
{
    bytes.iter().filter(|byte| **byte == b'\n').count()
}

/// The line and the column of an offset; of one past the end, those of the end.
pub fn place_of(text: &[u8], at: u64) -> TextPlace
    ensures line { result.line ≡ line_at text.now at }
    ensures column { result.column ≡ column_at text.now at }
{
    let (before, _) = parts(text, at);
    TextPlace {
        line: 1 + newlines(before),
        column: 1 + behind_last(before),
    }
}

/// What stands in the line before an offset.
pub fn line_before(text: &[u8], at: u64) -> &[u8]
    ensures { result.now ≡ last_line (take at text.now) }
{
    let (before, _) = parts(text, at);
    &before[before.len() - behind_last(before)..]
}

/// The line that an offset stands in, without its LF; of one past the end, the last line.
pub fn line_around(text: &[u8], at: u64) -> &[u8]
    ensures { result.now ≡ line_around text.now at }
{
    let (before, behind) = parts(text, at);
    let start = before.len() - behind_last(before);
    let end = before.len() + before_first(behind);
    &text[start..end]
}
