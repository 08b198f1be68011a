//! From a word to its operator.

ghost use Rattle.std.specs.Prelude.{◌≡◌};
ghost use Rattle.view_parts.specs.Parts.{arithmetic_of, comparison_of, op1_of, op2_of};

use rec_bits::{Op1, Op2};

/// The operator of one value of a word.
#[tactic(auto, unfolding(crate::specs::Parts::op1_of))]
pub fn op1_of(word: &[u8]) -> Option<Op1>
    ensures { result ≡ op1_of word.now }
{
    if word == b"not".as_slice() {
        Some(Op1::Not)
    } else if word == b"neg".as_slice() {
        Some(Op1::Neg)
    } else {
        None
    }
}

// The operator of two values of a word that isn't a comparison, from the others.
#[tactic(auto, unfolding(crate::specs::Parts::arithmetic_of))]
fn arithmetic_of(word: &[u8]) -> Option<Op2>
    ensures { result ≡ arithmetic_of word.now }
{
    if word == b"add".as_slice() {
        Some(Op2::Add)
    } else if word == b"sub".as_slice() {
        Some(Op2::Sub)
    } else if word == b"mul".as_slice() {
        Some(Op2::Mul)
    } else if word == b"and".as_slice() {
        Some(Op2::And)
    } else if word == b"or".as_slice() {
        Some(Op2::Or)
    } else if word == b"xor".as_slice() {
        Some(Op2::Xor)
    } else {
        None
    }
}

// The same of a shift or a comparison.
#[tactic(auto, unfolding(crate::specs::Parts::comparison_of))]
fn comparison_of(word: &[u8]) -> Option<Op2>
    ensures { result ≡ comparison_of word.now }
{
    if word == b"shl".as_slice() {
        Some(Op2::Shl)
    } else if word == b"shr".as_slice() {
        Some(Op2::Shr)
    } else if word == b"sar".as_slice() {
        Some(Op2::Sar)
    } else if word == b"eq".as_slice() {
        Some(Op2::Eq)
    } else if word == b"ltu".as_slice() {
        Some(Op2::Ltu)
    } else if word == b"lts".as_slice() {
        Some(Op2::Lts)
    } else {
        None
    }
}

/// The operator of two values of a word.
#[tactic(auto, unfolding(crate::specs::Parts::op2_of))]
pub fn op2_of(word: &[u8]) -> Option<Op2>
    ensures { result ≡ op2_of word.now }
{
    match arithmetic_of(word) {
        Some(op) => Some(op),
        None => comparison_of(word),
    }
}
