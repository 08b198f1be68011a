//! Ranges of whole numbers.

ghost use Rattle.std.specs.Prelude.{◌≡◌, None, MatchOption, pos, ◌*ℤ◌};
ghost use Rattle.rec_bits.specs.Ranges.{IsEnd, HasEnds, range_of, sums_of, differences_of, products_of};

/// The whole numbers from `lo` to `hi`.
#[derive(Clone, Copy, Debug, PartialEq, Eq)]
pub struct Range {
    pub lo: i128,
    pub hi: i128,
}

// An end of a range lies from `-BOUND` to `BOUND`.
const BOUND: i128 = 18_446_744_073_709_551_616;

fn bounded(lo: i128, hi: i128) -> Option<Range>
    ensures { result ≡ range_of lo hi }
{
    if -BOUND <= lo && lo <= BOUND && -BOUND <= hi && hi <= BOUND {
        Some(Range { lo, hi })
    } else {
        None
    }
}

/// The range of all sums, or None where an end of it lies outside `-2^64` to `2^64`.
pub fn range_add(a: Range, b: Range) -> Option<Range>
    requires left { HasEnds a }
    requires right { HasEnds b }
    ensures { result ≡ sums_of a b }
{
    bounded(a.lo + b.lo, a.hi + b.hi)
}

/// The range of all differences, or None where an end of it lies outside `-2^64` to `2^64`.
pub fn range_sub(a: Range, b: Range) -> Option<Range>
    requires left { HasEnds a }
    requires right { HasEnds b }
    ensures { result ≡ differences_of a b }
{
    bounded(a.lo - b.hi, a.hi - b.lo)
}

/// The range of all products with `literal`, or None where an end of it lies outside `-2^64` to
/// `2^64`.
pub fn range_mul(a: Range, literal: u64) -> Option<Range>
    requires { HasEnds a }
    ensures { result ≡ products_of a literal }
{
    let factor = i128::from(literal);
    let lo = a.lo.checked_mul(factor)?;
    let hi = a.hi.checked_mul(factor)?;
    bounded(lo, hi)
}
