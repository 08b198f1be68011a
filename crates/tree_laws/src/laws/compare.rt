//! Laws of tests.

ghost use Rattle.std.specs.List.{AllByRecursion};
ghost use Rattle.tree_laws.specs.Rules.{RuleHolds};

use crate::Condition::{Differ, Is};
use crate::Num::{Lit, Var};
use crate::Part::{Bin, Const, Sext, Slice, Tree, Un, Zext};
use crate::Rule;
use crate::Value::{Apply2, Power, Sum, Width};
use rec_bits::{Op1, Op2};

const RULES: [Rule; 23] = [
    // eq-sub, eq-xor, eq-wide, eq-ltu
    Rule {
        parts: &[
            Tree(0),
            Tree(1),
            Bin(Op2::Eq, 0, 1),
            Bin(Op2::Sub, 0, 1),
            Const(Var(0), Lit(0)),
            Bin(Op2::Eq, 3, 4),
        ],
        conditions: &[Is(Var(0), Width(0))],
        from: 2,
        to: 5,
    },
    Rule {
        parts: &[
            Tree(0),
            Tree(1),
            Bin(Op2::Eq, 0, 1),
            Bin(Op2::Sub, 1, 0),
            Const(Var(0), Lit(0)),
            Bin(Op2::Eq, 3, 4),
        ],
        conditions: &[Is(Var(0), Width(0))],
        from: 2,
        to: 5,
    },
    Rule {
        parts: &[
            Tree(0),
            Tree(1),
            Bin(Op2::Eq, 0, 1),
            Bin(Op2::Xor, 0, 1),
            Const(Var(0), Lit(0)),
            Bin(Op2::Eq, 3, 4),
        ],
        conditions: &[Is(Var(0), Width(0))],
        from: 2,
        to: 5,
    },
    Rule {
        parts: &[
            Tree(0),
            Tree(1),
            Bin(Op2::Eq, 0, 1),
            Zext(0, Var(0)),
            Zext(1, Var(0)),
            Bin(Op2::Eq, 3, 4),
        ],
        conditions: &[],
        from: 2,
        to: 5,
    },
    Rule {
        parts: &[
            Tree(0),
            Tree(1),
            Bin(Op2::Eq, 0, 1),
            Sext(0, Var(0)),
            Sext(1, Var(0)),
            Bin(Op2::Eq, 3, 4),
        ],
        conditions: &[],
        from: 2,
        to: 5,
    },
    Rule {
        parts: &[
            Tree(0),
            Const(Var(0), Lit(0)),
            Bin(Op2::Eq, 0, 1),
            Const(Var(0), Lit(1)),
            Bin(Op2::Ltu, 0, 3),
        ],
        conditions: &[Is(Var(0), Width(0))],
        from: 2,
        to: 4,
    },
    // ltu-wide, ltu-diff
    Rule {
        parts: &[
            Tree(0),
            Tree(1),
            Bin(Op2::Ltu, 0, 1),
            Zext(0, Var(0)),
            Zext(1, Var(0)),
            Bin(Op2::Ltu, 3, 4),
        ],
        conditions: &[],
        from: 2,
        to: 5,
    },
    Rule {
        parts: &[
            Tree(0),
            Tree(1),
            Bin(Op2::Ltu, 0, 1),
            Zext(0, Var(0)),
            Zext(1, Var(0)),
            Bin(Op2::Lts, 3, 4),
        ],
        conditions: &[],
        from: 2,
        to: 5,
    },
    Rule {
        parts: &[
            Tree(0),
            Tree(1),
            Bin(Op2::Ltu, 0, 1),
            Zext(0, Var(0)),
            Zext(1, Var(0)),
            Bin(Op2::Sub, 3, 4),
            Const(Var(0), Lit(0)),
            Bin(Op2::Lts, 5, 6),
        ],
        conditions: &[],
        from: 2,
        to: 7,
    },
    // lts-wide, lts-diff
    Rule {
        parts: &[
            Tree(0),
            Tree(1),
            Bin(Op2::Lts, 0, 1),
            Sext(0, Var(0)),
            Sext(1, Var(0)),
            Bin(Op2::Lts, 3, 4),
        ],
        conditions: &[],
        from: 2,
        to: 5,
    },
    Rule {
        parts: &[
            Tree(0),
            Tree(1),
            Bin(Op2::Lts, 0, 1),
            Sext(0, Var(0)),
            Sext(1, Var(0)),
            Bin(Op2::Sub, 3, 4),
            Const(Var(0), Lit(0)),
            Bin(Op2::Lts, 5, 6),
        ],
        conditions: &[],
        from: 2,
        to: 7,
    },
    // lts-sign, lts-over, ltu-over, ltu-lts
    Rule {
        parts: &[
            Tree(0),
            Const(Var(0), Lit(0)),
            Bin(Op2::Lts, 0, 1),
            Slice(0, Var(1), Var(1)),
        ],
        conditions: &[Is(Var(0), Width(0)), Is(Var(0), Sum(Var(1), Lit(1)))],
        from: 2,
        to: 3,
    },
    Rule {
        parts: &[
            Tree(0),
            Tree(1),
            Bin(Op2::Lts, 0, 1),
            Bin(Op2::Sub, 0, 1),
            Bin(Op2::Xor, 0, 1),
            Bin(Op2::Xor, 3, 0),
            Bin(Op2::And, 4, 5),
            Bin(Op2::Xor, 3, 6),
            Const(Var(0), Lit(0)),
            Bin(Op2::Lts, 7, 8),
        ],
        conditions: &[Is(Var(0), Width(0))],
        from: 2,
        to: 9,
    },
    Rule {
        parts: &[
            Tree(0),
            Tree(1),
            Bin(Op2::Ltu, 0, 1),
            Bin(Op2::Sub, 0, 1),
            Bin(Op2::Xor, 0, 1),
            Bin(Op2::Xor, 3, 1),
            Bin(Op2::And, 4, 5),
            Bin(Op2::Xor, 3, 6),
            Const(Var(0), Lit(0)),
            Bin(Op2::Lts, 7, 8),
        ],
        conditions: &[Is(Var(0), Width(0))],
        from: 2,
        to: 9,
    },
    Rule {
        parts: &[
            Tree(0),
            Tree(1),
            Bin(Op2::Ltu, 0, 1),
            Const(Var(0), Var(2)),
            Bin(Op2::Xor, 0, 3),
            Bin(Op2::Xor, 1, 3),
            Bin(Op2::Lts, 4, 5),
        ],
        conditions: &[
            Is(Var(0), Width(0)),
            Is(Var(0), Sum(Var(1), Lit(1))),
            Is(Var(2), Power(Var(1))),
        ],
        from: 2,
        to: 6,
    },
    // negations
    Rule {
        parts: &[
            Tree(0),
            Const(Var(0), Lit(0)),
            Bin(Op2::Eq, 0, 1),
            Un(Op1::Not, 2),
            Bin(Op2::Ltu, 1, 0),
        ],
        conditions: &[Is(Var(0), Width(0))],
        from: 3,
        to: 4,
    },
    Rule {
        parts: &[
            Tree(0),
            Const(Var(0), Var(1)),
            Bin(Op2::Ltu, 0, 1),
            Un(Op1::Not, 2),
            Const(Var(0), Var(2)),
            Bin(Op2::Ltu, 4, 0),
        ],
        conditions: &[Is(Var(1), Sum(Var(2), Lit(1)))],
        from: 3,
        to: 5,
    },
    Rule {
        parts: &[
            Tree(0),
            Const(Var(0), Var(1)),
            Bin(Op2::Ltu, 1, 0),
            Un(Op1::Not, 2),
            Const(Var(0), Var(2)),
            Bin(Op2::Ltu, 0, 4),
        ],
        conditions: &[Is(Var(2), Sum(Var(1), Lit(1)))],
        from: 3,
        to: 5,
    },
    Rule {
        parts: &[
            Tree(0),
            Const(Var(0), Var(3)),
            Bin(Op2::Lts, 0, 1),
            Un(Op1::Not, 2),
            Const(Var(0), Var(4)),
            Bin(Op2::Lts, 4, 0),
        ],
        conditions: &[
            Is(Var(0), Width(0)),
            Is(Var(0), Sum(Var(1), Lit(1))),
            Is(Var(2), Power(Var(1))),
            Differ(Var(3), Var(2)),
            Is(Var(4), Apply2(Op2::Sub, Var(0), Var(3), Lit(1))),
        ],
        from: 3,
        to: 5,
    },
    Rule {
        parts: &[
            Tree(0),
            Const(Var(0), Var(3)),
            Bin(Op2::Lts, 1, 0),
            Un(Op1::Not, 2),
            Const(Var(0), Var(4)),
            Bin(Op2::Lts, 0, 4),
        ],
        conditions: &[
            Is(Var(0), Width(0)),
            Is(Var(0), Sum(Var(1), Lit(1))),
            Is(Var(2), Power(Var(1))),
            Is(Var(4), Apply2(Op2::Add, Var(0), Var(3), Lit(1))),
            Differ(Var(4), Var(2)),
        ],
        from: 3,
        to: 5,
    },
    Rule {
        parts: &[
            Tree(0),
            Const(Var(0), Lit(0)),
            Bin(Op2::Lts, 0, 1),
            Un(Op1::Not, 2),
            Un(Op1::Not, 0),
            Bin(Op2::Lts, 4, 1),
        ],
        conditions: &[Is(Var(0), Width(0))],
        from: 3,
        to: 5,
    },
    Rule {
        parts: &[
            Tree(0),
            Const(Var(0), Lit(0)),
            Bin(Op2::Lts, 0, 1),
            Un(Op1::Not, 2),
            Const(Var(0), Var(2)),
            Bin(Op2::And, 0, 4),
            Bin(Op2::Eq, 5, 1),
        ],
        conditions: &[
            Is(Var(0), Width(0)),
            Is(Var(0), Sum(Var(1), Lit(1))),
            Is(Var(2), Power(Var(1))),
        ],
        from: 3,
        to: 6,
    },
    Rule {
        parts: &[
            Tree(0),
            Const(Var(0), Var(3)),
            Bin(Op2::And, 0, 1),
            Const(Var(0), Lit(0)),
            Bin(Op2::Eq, 2, 3),
            Un(Op1::Not, 4),
            Const(Var(0), Var(4)),
            Bin(Op2::Shl, 0, 6),
            Bin(Op2::Lts, 7, 3),
        ],
        conditions: &[
            Is(Var(0), Width(0)),
            Is(Var(0), Sum(Var(1), Lit(1))),
            Is(Var(3), Power(Var(2))),
            Is(Var(1), Sum(Var(4), Var(2))),
        ],
        from: 5,
        to: 8,
    },
];

/// The laws of tests. A negated test is `not` of one bit.
pub fn compare_rules() -> &'static [Rule]
    ensures { AllByRecursion RuleHolds result.now }
{
    &RULES
}
