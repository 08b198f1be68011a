// Operators on numbers of 1 to 64 bits.

ghost use Rattle.std.specs.Prelude.{◌≡◌, ℕ, ◌+◌, ◌-◌, ◌*◌, ◌%◌, ◌^◌, ◌<◌, ◌≤◌, if◌then◌else◌, nat_le};
ghost use Rattle.rec_bits.specs.Operators.{apply1_of, apply2_of, cat_of, result_width, sext_of, slice_of};

/// An operator of two operands.
#[derive(Clone, Copy, Debug, PartialEq, Eq, Hash)]
pub enum Op2 {
    Add,
    Sub,
    Mul,
    And,
    Or,
    Xor,
    Shl,
    Shr,
    Sar,
    Eq,
    Ltu,
    Lts,
}

/// An operator of one operand.
#[derive(Clone, Copy, Debug, PartialEq, Eq, Hash)]
pub enum Op1 {
    Not,
    Neg,
}

/// The greatest value of `width` bits.
#[tactic(auto, using(crate::proofs::Masks::masks))]
pub fn mask(width: u8) -> u64
    requires low { 1 ≤ width }
    requires high { width ≤ 64 }
    ensures { result ≡ 2 ^ width - 1 }
{
    u64::MAX >> (64 - width)
}

#[tactic(auto, using(crate::proofs::Masks::masks))]
fn low_bits(width: u8, x: u64) -> u64
    requires low { 1 ≤ width }
    requires high { width ≤ 64 }
    ensures { result ≡ x % 2 ^ width }
{
    x & mask(width)
}

/// The width of the value of `op` at operands of `width` bits.
pub fn result_width(op: Op2, width: u8) -> u8
    ensures { result ≡ result_width op width }
{
    match op {
        Op2::Eq | Op2::Ltu | Op2::Lts => 1,
        _ => width,
    }
}

/// The same for a width that a text gives, which may be of any size.
pub fn written_result_width(op: Op2, width: u64) -> u64
    ensures { result ≡ result_width op width }
{
    match op {
        Op2::Eq | Op2::Ltu | Op2::Lts => 1,
        _ => width,
    }
}

/// The value of `op` at two operands of `width` bits.
#[tactic(auto, using(crate::proofs::Masks::masks))]
pub fn apply2(op: Op2, width: u8, a: u64, b: u64) -> u64
    requires low { 1 ≤ width }
    requires high { width ≤ 64 }
    requires left { a < 2 ^ width }
    requires right { b < 2 ^ width }
    ensures { result ≡ apply2_of op width a b }
{
    match op {
        Op2::Add => low_bits(width, a.wrapping_add(b)),
        Op2::Sub => low_bits(width, a.wrapping_sub(b)),
        Op2::Mul => low_bits(width, a.wrapping_mul(b)),
        Op2::And => a & b,
        Op2::Or => a | b,
        Op2::Xor => a ^ b,
        Op2::Shl => shl(width, a, b),
        Op2::Shr => shr(width, a, b),
        Op2::Sar => sar(width, a, b),
        Op2::Eq => u64::from(a == b),
        Op2::Ltu => u64::from(a < b),
        Op2::Lts => u64::from(lts(width, a, b)),
    }
}

#[tactic(auto, using(crate::proofs::Masks::masks))]
fn shl(width: u8, a: u64, b: u64) -> u64
    requires low { 1 ≤ width }
    requires high { width ≤ 64 }
    ensures { result ≡ apply2_of Op2.Shl width a b }
{
    if b >= u64::from(width) {
        0
    } else {
        low_bits(width, a << b)
    }
}

fn shr(width: u8, a: u64, b: u64) -> u64
    requires low { 1 ≤ width }
    requires high { width ≤ 64 }
    ensures { result ≡ apply2_of Op2.Shr width a b }
{
    if b >= u64::from(width) { 0 } else { a >> b }
}

fn sar(width: u8, a: u64, b: u64) -> u64
    requires low { 1 ≤ width }
    requires high { width ≤ 64 }
    requires left { a < 2 ^ width }
    ensures { result ≡ apply2_of Op2.Sar width a b }
{
    if !is_negative(width, a) {
        return shr(width, a, b);
    }
    let ones = mask(width);
    ones - shr(width, ones - a, b)
}

fn lts(width: u8, a: u64, b: u64) -> bool
    requires low { 1 ≤ width }
    requires high { width ≤ 64 }
    requires left { a < 2 ^ width }
    requires right { b < 2 ^ width }
    ensures { (if result then 1 else 0) ≡ apply2_of Op2.Lts width a b }
{
    let a_below = is_negative(width, a);
    let b_below = is_negative(width, b);
    if a_below == b_below { a < b } else { a_below }
}

fn is_negative(width: u8, a: u64) -> bool
    requires low { 1 ≤ width }
    requires high { width ≤ 64 }
    ensures { result ≡ nat_le (2 ^ (width - 1)) a }
{
    a >= 1 << (width - 1)
}

/// The value of `op` at an operand of `width` bits.
#[tactic(auto, using(crate::proofs::Masks::masks))]
pub fn apply1(op: Op1, width: u8, a: u64) -> u64
    requires low { 1 ≤ width }
    requires high { width ≤ 64 }
    requires operand { a < 2 ^ width }
    ensures { result ≡ apply1_of op width a }
{
    match op {
        Op1::Not => mask(width) - a,
        Op1::Neg => low_bits(width, 0u64.wrapping_sub(a)),
    }
}

/// The bits of `a` from `hi` down to `lo`.
#[tactic(auto, using(crate::proofs::Masks::masks))]
pub fn slice(a: u64, hi: u8, lo: u8) -> u64
    requires order { lo ≤ hi }
    requires high { hi ≤ 63 }
    ensures { result ≡ slice_of a hi lo }
{
    low_bits(hi - lo + 1, a >> lo)
}

/// `a` above the `low_width` bits of `b`.
#[tactic(auto, using(crate::proofs::Masks::masks))]
pub fn cat(a: u64, b: u64, low_width: u8) -> u64
    requires low { 1 ≤ low_width }
    requires high { low_width ≤ 64 }
    requires left { a < 2 ^ (64 - low_width) }
    requires right { b < 2 ^ low_width }
    ensures { result ≡ cat_of a b low_width }
{
    if low_width == 64 {
        b
    } else {
        (a << low_width) + b
    }
}

#[tactic(auto, using(crate::proofs::Masks::masks))]
/// `a` of `from` bits with copies of its top bit up to `to` bits.
pub fn sext(a: u64, from: u8, to: u8) -> u64
    requires low { 1 ≤ from }
    requires order { from ≤ to }
    requires high { to ≤ 64 }
    requires operand { a < 2 ^ from }
    ensures { result ≡ sext_of a from to }
{
    if is_negative(from, a) {
        a + (mask(to) - mask(from))
    } else {
        a
    }
}
