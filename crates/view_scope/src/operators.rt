//! The words of a term, and the width of what each gives.

ghost use Rattle.std.specs.Prelude.{◌≡◌};
ghost use Rattle.view_scope.specs.Widths.{constant_width, extended_width, is_arithmetic, is_comparison, is_extension, is_unary, pair_width, sliced_width, unary_width};

use rec_bits::mask;

/// The greatest width.
const MAX_WIDTH: u64 = 64;

// Whether a word is that of an operator of one value.
fn is_unary(word: &[u8]) -> bool
    ensures { result ≡ is_unary word.now }
{
    word == b"not".as_slice() || word == b"neg".as_slice()
}

// Whether a word is that of an operator of two values that gives one as wide as each.
fn is_arithmetic(word: &[u8]) -> bool
    ensures { result ≡ is_arithmetic word.now }
{
    word == b"add".as_slice()
        || word == b"sub".as_slice()
        || word == b"mul".as_slice()
        || word == b"and".as_slice()
        || word == b"or".as_slice()
        || word == b"xor".as_slice()
        || word == b"shl".as_slice()
        || word == b"shr".as_slice()
        || word == b"sar".as_slice()
}

// Whether a word is that of a comparison.
fn is_comparison(word: &[u8]) -> bool
    ensures { result ≡ is_comparison word.now }
{
    word == b"eq".as_slice() || word == b"ltu".as_slice() || word == b"lts".as_slice()
}

// Whether a word is that of an extension.
fn is_extension(word: &[u8]) -> bool
    ensures { result ≡ is_extension word.now }
{
    word == b"zext".as_slice() || word == b"sext".as_slice()
}

/// The width of a number that is written with one.
#[tactic(auto, unfolding(crate::specs::Widths::constant_width))]
pub fn constant_width(value: u64, width: u64) -> Option<u8>
    ensures { result ≡ constant_width value width }
{
    if width < 1 || width > MAX_WIDTH {
        return None;
    }
    let bits = width as u8;
    if value <= mask(bits) {
        Some(bits)
    } else {
        None
    }
}

/// The width of an operator's value at one of this width.
#[tactic(auto, unfolding(crate::specs::Widths::unary_width))]
pub fn unary_width(word: &[u8], a: u8) -> Option<u8>
    ensures { result ≡ unary_width word.now a }
{
    if is_unary(word) { Some(a) } else { None }
}

/// The width of an operator's value at two of these widths.
#[tactic(auto, unfolding(crate::specs::Widths::pair_width))]
pub fn pair_width(word: &[u8], a: u8, b: u8) -> Option<u8>
    ensures { result ≡ pair_width word.now a b }
{
    if is_arithmetic(word) {
        if a == b { Some(a) } else { None }
    } else if is_comparison(word) {
        if a == b { Some(1) } else { None }
    } else if word == b"cat".as_slice() {
        let both = u64::from(a) + u64::from(b);
        if both <= MAX_WIDTH {
            Some(both as u8)
        } else {
            None
        }
    } else {
        None
    }
}

/// The width that a value of this width is extended to.
#[tactic(auto, unfolding(crate::specs::Widths::extended_width))]
pub fn extended_width(word: &[u8], a: u8, width: u64) -> Option<u8>
    ensures { result ≡ extended_width word.now a width }
{
    if is_extension(word) && u64::from(a) < width && width <= MAX_WIDTH {
        Some(width as u8)
    } else {
        None
    }
}

/// The width of the bits from `hi` down to `lo` of a value of this width.
#[tactic(auto, unfolding(crate::specs::Widths::sliced_width))]
pub fn sliced_width(word: &[u8], a: u8, hi: u64, lo: u64) -> Option<u8>
    ensures { result ≡ sliced_width word.now a hi lo }
{
    if word == b"slice".as_slice() && lo <= hi && hi < u64::from(a) {
        Some((hi - lo) as u8 + 1)
    } else {
        None
    }
}
