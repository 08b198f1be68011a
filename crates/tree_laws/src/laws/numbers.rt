//! Operators over numbers.

ghost use Rattle.std.specs.List.{AllByRecursion};
ghost use Rattle.tree_laws.specs.Rules.{RuleHolds};

use crate::Condition::Is;
use crate::Num::{Lit, Var};
use crate::Part::{Bin, Const, Sext, Slice, Un, Zext};
use crate::Rule;
use crate::Value::{Apply1, Apply2, Bits, Signed, Sum};
use rec_bits::{Op1, Op2};

const RULES: [Rule; 17] = [
    // fold
    Rule {
        parts: &[
            Const(Var(0), Var(1)),
            Un(Op1::Not, 0),
            Const(Var(0), Var(2)),
        ],
        conditions: &[Is(Var(2), Apply1(Op1::Not, Var(0), Var(1)))],
        from: 1,
        to: 2,
    },
    Rule {
        parts: &[
            Const(Var(0), Var(1)),
            Un(Op1::Neg, 0),
            Const(Var(0), Var(2)),
        ],
        conditions: &[Is(Var(2), Apply1(Op1::Neg, Var(0), Var(1)))],
        from: 1,
        to: 2,
    },
    Rule {
        parts: &[
            Const(Var(0), Var(1)),
            Const(Var(0), Var(2)),
            Bin(Op2::Add, 0, 1),
            Const(Var(0), Var(3)),
        ],
        conditions: &[Is(Var(3), Apply2(Op2::Add, Var(0), Var(1), Var(2)))],
        from: 2,
        to: 3,
    },
    Rule {
        parts: &[
            Const(Var(0), Var(1)),
            Const(Var(0), Var(2)),
            Bin(Op2::Sub, 0, 1),
            Const(Var(0), Var(3)),
        ],
        conditions: &[Is(Var(3), Apply2(Op2::Sub, Var(0), Var(1), Var(2)))],
        from: 2,
        to: 3,
    },
    Rule {
        parts: &[
            Const(Var(0), Var(1)),
            Const(Var(0), Var(2)),
            Bin(Op2::Mul, 0, 1),
            Const(Var(0), Var(3)),
        ],
        conditions: &[Is(Var(3), Apply2(Op2::Mul, Var(0), Var(1), Var(2)))],
        from: 2,
        to: 3,
    },
    Rule {
        parts: &[
            Const(Var(0), Var(1)),
            Const(Var(0), Var(2)),
            Bin(Op2::And, 0, 1),
            Const(Var(0), Var(3)),
        ],
        conditions: &[Is(Var(3), Apply2(Op2::And, Var(0), Var(1), Var(2)))],
        from: 2,
        to: 3,
    },
    Rule {
        parts: &[
            Const(Var(0), Var(1)),
            Const(Var(0), Var(2)),
            Bin(Op2::Or, 0, 1),
            Const(Var(0), Var(3)),
        ],
        conditions: &[Is(Var(3), Apply2(Op2::Or, Var(0), Var(1), Var(2)))],
        from: 2,
        to: 3,
    },
    Rule {
        parts: &[
            Const(Var(0), Var(1)),
            Const(Var(0), Var(2)),
            Bin(Op2::Xor, 0, 1),
            Const(Var(0), Var(3)),
        ],
        conditions: &[Is(Var(3), Apply2(Op2::Xor, Var(0), Var(1), Var(2)))],
        from: 2,
        to: 3,
    },
    Rule {
        parts: &[
            Const(Var(0), Var(1)),
            Const(Var(0), Var(2)),
            Bin(Op2::Shl, 0, 1),
            Const(Var(0), Var(3)),
        ],
        conditions: &[Is(Var(3), Apply2(Op2::Shl, Var(0), Var(1), Var(2)))],
        from: 2,
        to: 3,
    },
    Rule {
        parts: &[
            Const(Var(0), Var(1)),
            Const(Var(0), Var(2)),
            Bin(Op2::Shr, 0, 1),
            Const(Var(0), Var(3)),
        ],
        conditions: &[Is(Var(3), Apply2(Op2::Shr, Var(0), Var(1), Var(2)))],
        from: 2,
        to: 3,
    },
    Rule {
        parts: &[
            Const(Var(0), Var(1)),
            Const(Var(0), Var(2)),
            Bin(Op2::Sar, 0, 1),
            Const(Var(0), Var(3)),
        ],
        conditions: &[Is(Var(3), Apply2(Op2::Sar, Var(0), Var(1), Var(2)))],
        from: 2,
        to: 3,
    },
    Rule {
        parts: &[
            Const(Var(0), Var(1)),
            Const(Var(0), Var(2)),
            Bin(Op2::Eq, 0, 1),
            Const(Lit(1), Var(3)),
        ],
        conditions: &[Is(Var(3), Apply2(Op2::Eq, Var(0), Var(1), Var(2)))],
        from: 2,
        to: 3,
    },
    Rule {
        parts: &[
            Const(Var(0), Var(1)),
            Const(Var(0), Var(2)),
            Bin(Op2::Ltu, 0, 1),
            Const(Lit(1), Var(3)),
        ],
        conditions: &[Is(Var(3), Apply2(Op2::Ltu, Var(0), Var(1), Var(2)))],
        from: 2,
        to: 3,
    },
    Rule {
        parts: &[
            Const(Var(0), Var(1)),
            Const(Var(0), Var(2)),
            Bin(Op2::Lts, 0, 1),
            Const(Lit(1), Var(3)),
        ],
        conditions: &[Is(Var(3), Apply2(Op2::Lts, Var(0), Var(1), Var(2)))],
        from: 2,
        to: 3,
    },
    Rule {
        parts: &[
            Const(Var(0), Var(1)),
            Slice(0, Var(2), Var(3)),
            Const(Var(5), Var(6)),
        ],
        conditions: &[
            Is(Var(4), Sum(Var(2), Lit(1))),
            Is(Var(4), Sum(Var(3), Var(5))),
            Is(Var(6), Bits(Var(1), Var(2), Var(3))),
        ],
        from: 1,
        to: 2,
    },
    // lit-ext
    Rule {
        parts: &[
            Const(Var(0), Var(1)),
            Zext(0, Var(2)),
            Const(Var(2), Var(1)),
        ],
        conditions: &[],
        from: 1,
        to: 2,
    },
    Rule {
        parts: &[
            Const(Var(0), Var(1)),
            Sext(0, Var(2)),
            Const(Var(2), Var(3)),
        ],
        conditions: &[Is(Var(3), Signed(Var(1), Var(0), Var(2)))],
        from: 1,
        to: 2,
    },
];

/// The laws of operators over numbers: each is the number that is its value.
pub fn numbers_rules() -> &'static [Rule]
    ensures { AllByRecursion RuleHolds result.now }
{
    &RULES
}
