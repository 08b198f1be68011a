//! Laws of slices.

ghost use Rattle.std.specs.List.{AllByRecursion};
ghost use Rattle.tree_laws.specs.Rules.{RuleHolds};

use crate::Condition::Is;
use crate::Num::{Lit, Var};
use crate::Part::{Bin, Const, Sext, Slice, Tree, Un, Zext};
use crate::Rule;
use crate::Value::{Sum, Width};
use rec_bits::{Op1, Op2};

const RULES: [Rule; 22] = [
    // widen-ring: the low bits of a value are its value at the low bits
    Rule {
        parts: &[
            Tree(0),
            Tree(1),
            Bin(Op2::Add, 0, 1),
            Slice(2, Var(0), Lit(0)),
            Slice(0, Var(0), Lit(0)),
            Slice(1, Var(0), Lit(0)),
            Bin(Op2::Add, 4, 5),
        ],
        conditions: &[],
        from: 3,
        to: 6,
    },
    Rule {
        parts: &[
            Tree(0),
            Tree(1),
            Bin(Op2::Sub, 0, 1),
            Slice(2, Var(0), Lit(0)),
            Slice(0, Var(0), Lit(0)),
            Slice(1, Var(0), Lit(0)),
            Bin(Op2::Sub, 4, 5),
        ],
        conditions: &[],
        from: 3,
        to: 6,
    },
    Rule {
        parts: &[
            Tree(0),
            Tree(1),
            Bin(Op2::Mul, 0, 1),
            Slice(2, Var(0), Lit(0)),
            Slice(0, Var(0), Lit(0)),
            Slice(1, Var(0), Lit(0)),
            Bin(Op2::Mul, 4, 5),
        ],
        conditions: &[],
        from: 3,
        to: 6,
    },
    Rule {
        parts: &[
            Tree(0),
            Tree(1),
            Bin(Op2::And, 0, 1),
            Slice(2, Var(0), Lit(0)),
            Slice(0, Var(0), Lit(0)),
            Slice(1, Var(0), Lit(0)),
            Bin(Op2::And, 4, 5),
        ],
        conditions: &[],
        from: 3,
        to: 6,
    },
    Rule {
        parts: &[
            Tree(0),
            Tree(1),
            Bin(Op2::Or, 0, 1),
            Slice(2, Var(0), Lit(0)),
            Slice(0, Var(0), Lit(0)),
            Slice(1, Var(0), Lit(0)),
            Bin(Op2::Or, 4, 5),
        ],
        conditions: &[],
        from: 3,
        to: 6,
    },
    Rule {
        parts: &[
            Tree(0),
            Tree(1),
            Bin(Op2::Xor, 0, 1),
            Slice(2, Var(0), Lit(0)),
            Slice(0, Var(0), Lit(0)),
            Slice(1, Var(0), Lit(0)),
            Bin(Op2::Xor, 4, 5),
        ],
        conditions: &[],
        from: 3,
        to: 6,
    },
    Rule {
        parts: &[
            Tree(0),
            Un(Op1::Not, 0),
            Slice(1, Var(0), Lit(0)),
            Slice(0, Var(0), Lit(0)),
            Un(Op1::Not, 3),
        ],
        conditions: &[],
        from: 2,
        to: 4,
    },
    Rule {
        parts: &[
            Tree(0),
            Un(Op1::Neg, 0),
            Slice(1, Var(0), Lit(0)),
            Slice(0, Var(0), Lit(0)),
            Un(Op1::Neg, 3),
        ],
        conditions: &[],
        from: 2,
        to: 4,
    },
    // slice-bitwise: any bits
    Rule {
        parts: &[
            Tree(0),
            Tree(1),
            Bin(Op2::And, 0, 1),
            Slice(2, Var(0), Var(1)),
            Slice(0, Var(0), Var(1)),
            Slice(1, Var(0), Var(1)),
            Bin(Op2::And, 4, 5),
        ],
        conditions: &[],
        from: 3,
        to: 6,
    },
    Rule {
        parts: &[
            Tree(0),
            Tree(1),
            Bin(Op2::Or, 0, 1),
            Slice(2, Var(0), Var(1)),
            Slice(0, Var(0), Var(1)),
            Slice(1, Var(0), Var(1)),
            Bin(Op2::Or, 4, 5),
        ],
        conditions: &[],
        from: 3,
        to: 6,
    },
    Rule {
        parts: &[
            Tree(0),
            Tree(1),
            Bin(Op2::Xor, 0, 1),
            Slice(2, Var(0), Var(1)),
            Slice(0, Var(0), Var(1)),
            Slice(1, Var(0), Var(1)),
            Bin(Op2::Xor, 4, 5),
        ],
        conditions: &[],
        from: 3,
        to: 6,
    },
    Rule {
        parts: &[
            Tree(0),
            Un(Op1::Not, 0),
            Slice(1, Var(0), Var(1)),
            Slice(0, Var(0), Var(1)),
            Un(Op1::Not, 3),
        ],
        conditions: &[],
        from: 2,
        to: 4,
    },
    // slice-shift: bits of a shifted number
    Rule {
        parts: &[
            Tree(0),
            Const(Var(0), Var(1)),
            Bin(Op2::Shr, 0, 1),
            Slice(2, Var(2), Var(3)),
            Slice(0, Var(4), Var(5)),
        ],
        conditions: &[
            Is(Var(4), Sum(Var(2), Var(1))),
            Is(Var(5), Sum(Var(3), Var(1))),
        ],
        from: 3,
        to: 4,
    },
    Rule {
        parts: &[
            Tree(0),
            Const(Var(0), Var(1)),
            Bin(Op2::Sar, 0, 1),
            Slice(2, Var(2), Var(3)),
            Slice(0, Var(4), Var(5)),
        ],
        conditions: &[
            Is(Var(4), Sum(Var(2), Var(1))),
            Is(Var(5), Sum(Var(3), Var(1))),
        ],
        from: 3,
        to: 4,
    },
    // slice-shl
    Rule {
        parts: &[
            Tree(0),
            Const(Var(0), Var(1)),
            Bin(Op2::Shl, 0, 1),
            Slice(2, Var(2), Var(3)),
            Slice(0, Var(4), Var(5)),
        ],
        conditions: &[
            Is(Var(2), Sum(Var(4), Var(1))),
            Is(Var(3), Sum(Var(5), Var(1))),
        ],
        from: 3,
        to: 4,
    },
    // slice-ext: bits of an extended number, within it or past it
    Rule {
        parts: &[
            Tree(0),
            Zext(0, Var(0)),
            Slice(1, Var(1), Var(2)),
            Slice(0, Var(1), Var(2)),
        ],
        conditions: &[],
        from: 2,
        to: 3,
    },
    Rule {
        parts: &[
            Tree(0),
            Sext(0, Var(0)),
            Slice(1, Var(1), Var(2)),
            Slice(0, Var(1), Var(2)),
        ],
        conditions: &[],
        from: 2,
        to: 3,
    },
    Rule {
        parts: &[
            Tree(0),
            Zext(0, Var(0)),
            Slice(1, Var(1), Lit(0)),
            Zext(0, Var(2)),
        ],
        conditions: &[Is(Var(2), Sum(Var(1), Lit(1)))],
        from: 2,
        to: 3,
    },
    Rule {
        parts: &[
            Tree(0),
            Sext(0, Var(0)),
            Slice(1, Var(1), Lit(0)),
            Sext(0, Var(2)),
        ],
        conditions: &[Is(Var(2), Sum(Var(1), Lit(1)))],
        from: 2,
        to: 3,
    },
    // widen: the low bits of an extended number are the number
    Rule {
        parts: &[Tree(0), Zext(0, Var(0)), Slice(1, Var(1), Lit(0))],
        conditions: &[Is(Var(2), Width(0)), Is(Var(2), Sum(Var(1), Lit(1)))],
        from: 2,
        to: 0,
    },
    Rule {
        parts: &[Tree(0), Sext(0, Var(0)), Slice(1, Var(1), Lit(0))],
        conditions: &[Is(Var(2), Width(0)), Is(Var(2), Sum(Var(1), Lit(1)))],
        from: 2,
        to: 0,
    },
    // all bits of a number
    Rule {
        parts: &[Tree(0), Slice(0, Var(0), Lit(0))],
        conditions: &[Is(Var(1), Width(0)), Is(Var(1), Sum(Var(0), Lit(1)))],
        from: 1,
        to: 0,
    },
];

/// The laws of slices: of the low bits of sums, of any bits of bitwise operators, of bits of
/// shifted and of extended numbers.
pub fn narrow_rules() -> &'static [Rule]
    ensures { AllByRecursion RuleHolds result.now }
{
    &RULES
}
