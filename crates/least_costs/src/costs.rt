//! Costs: how many forms a cover has.

ghost use Rattle.std.specs.Prelude.{◌≡◌, ℕ, Some};
ghost use Rattle.std.specs.Bool.{OnTrue, OnFalse};
ghost use Rattle.least_costs.specs.Least.{AtMost, IsHeld, lesser, summed};
ghost use Rattle.least_costs.specs.Rows.{IsBelow};

// Whether the cost is less than the one that is known.
pub(crate) fn is_less(n: u64, known: Option<u64>) -> bool
    ensures yes { OnTrue result (IsBelow n known) }
    ensures no { OnFalse result (AtMost known n) }
{
    match known {
        None => true,
        Some(m) => n < m,
    }
}

pub(crate) fn sum_of(a: Option<u64>, b: Option<u64>) -> Option<u64>
    requires { IsHeld (summed a b) }
    ensures { result ≡ summed a b }
{
    match (a, b) {
        (Some(m), Some(n)) => Some(m + n),
        _ => None,
    }
}

/// The cost of a form with the parts of its match, where both have covers.
pub fn form_cost(operands: Option<u64>, cuts: Option<u64>) -> Option<u64>
    requires { IsHeld (summed (summed (Some 1) operands) cuts) }
    ensures { result ≡ summed (summed (Some 1) operands) cuts }
{
    match (operands, cuts) {
        (Some(m), Some(n)) => Some(1 + m + n),
        _ => None,
    }
}

// Whether what costs so much or more can't be less than the cost that is known.
pub(crate) fn is_as_dear(floor: Option<u64>, known: Option<u64>) -> bool
    ensures { OnTrue result ((n : ℕ) → AtMost floor n → AtMost known n) }
{
    match (floor, known) {
        (None, _) => true,
        (_, None) => false,
        (Some(m), Some(k)) => k <= m,
    }
}

pub(crate) fn lesser_of(a: Option<u64>, b: Option<u64>) -> Option<u64>
    ensures { result ≡ lesser a b }
{
    match (a, b) {
        (None, _) => b,
        (_, None) => a,
        (Some(m), Some(n)) => if n < m { b } else { a },
    }
}
