//! The least of some offsets.

ghost use Rattle.std.specs.Prelude.{◌≡◌};
ghost use Rattle.rec_bits.specs.Faults.{lesser_offset, offsets_if, least};

/// The lesser of two offsets that may be absent.
pub fn lesser_offset(a: Option<u64>, b: Option<u64>) -> Option<u64>
    ensures { result ≡ lesser_offset a b }
{
    match (a, b) {
        (Some(a), Some(b)) => Some(a.min(b)),
        (Some(a), None) => Some(a),
        (None, b) => b,
    }
}

/// The offset, where a rule is broken there.
pub fn offset_if(is_broken: bool, at: u64) -> Option<u64>
    ensures { result ≡ least (offsets_if is_broken at) }
{
    if is_broken { Some(at) } else { None }
}
