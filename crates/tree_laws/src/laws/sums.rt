//! Laws of sums, products and bitwise operators.

ghost use Rattle.std.specs.List.{AllByRecursion};
ghost use Rattle.tree_laws.specs.Rules.{RuleHolds};

use crate::Condition::Is;
use crate::Num::{Lit, Var};
use crate::Part::{Bin, Const, Tree, Un};
use crate::Rule;
use crate::Value::{Apply1, Width};
use rec_bits::{Op1, Op2};

const RULES: [Rule; 39] = [
    // comm
    Rule {
        parts: &[Tree(0), Tree(1), Bin(Op2::Add, 0, 1), Bin(Op2::Add, 1, 0)],
        conditions: &[],
        from: 2,
        to: 3,
    },
    Rule {
        parts: &[Tree(0), Tree(1), Bin(Op2::Mul, 0, 1), Bin(Op2::Mul, 1, 0)],
        conditions: &[],
        from: 2,
        to: 3,
    },
    Rule {
        parts: &[Tree(0), Tree(1), Bin(Op2::And, 0, 1), Bin(Op2::And, 1, 0)],
        conditions: &[],
        from: 2,
        to: 3,
    },
    Rule {
        parts: &[Tree(0), Tree(1), Bin(Op2::Or, 0, 1), Bin(Op2::Or, 1, 0)],
        conditions: &[],
        from: 2,
        to: 3,
    },
    Rule {
        parts: &[Tree(0), Tree(1), Bin(Op2::Xor, 0, 1), Bin(Op2::Xor, 1, 0)],
        conditions: &[],
        from: 2,
        to: 3,
    },
    Rule {
        parts: &[Tree(0), Tree(1), Bin(Op2::Eq, 0, 1), Bin(Op2::Eq, 1, 0)],
        conditions: &[],
        from: 2,
        to: 3,
    },
    // assoc
    Rule {
        parts: &[
            Tree(0),
            Tree(1),
            Tree(2),
            Bin(Op2::Add, 0, 1),
            Bin(Op2::Add, 3, 2),
            Bin(Op2::Add, 1, 2),
            Bin(Op2::Add, 0, 5),
        ],
        conditions: &[],
        from: 4,
        to: 6,
    },
    Rule {
        parts: &[
            Tree(0),
            Tree(1),
            Tree(2),
            Bin(Op2::Mul, 0, 1),
            Bin(Op2::Mul, 3, 2),
            Bin(Op2::Mul, 1, 2),
            Bin(Op2::Mul, 0, 5),
        ],
        conditions: &[],
        from: 4,
        to: 6,
    },
    Rule {
        parts: &[
            Tree(0),
            Tree(1),
            Tree(2),
            Bin(Op2::And, 0, 1),
            Bin(Op2::And, 3, 2),
            Bin(Op2::And, 1, 2),
            Bin(Op2::And, 0, 5),
        ],
        conditions: &[],
        from: 4,
        to: 6,
    },
    Rule {
        parts: &[
            Tree(0),
            Tree(1),
            Tree(2),
            Bin(Op2::Or, 0, 1),
            Bin(Op2::Or, 3, 2),
            Bin(Op2::Or, 1, 2),
            Bin(Op2::Or, 0, 5),
        ],
        conditions: &[],
        from: 4,
        to: 6,
    },
    Rule {
        parts: &[
            Tree(0),
            Tree(1),
            Tree(2),
            Bin(Op2::Xor, 0, 1),
            Bin(Op2::Xor, 3, 2),
            Bin(Op2::Xor, 1, 2),
            Bin(Op2::Xor, 0, 5),
        ],
        conditions: &[],
        from: 4,
        to: 6,
    },
    Rule {
        parts: &[
            Tree(0),
            Tree(1),
            Tree(2),
            Bin(Op2::Add, 0, 1),
            Bin(Op2::Sub, 3, 2),
            Bin(Op2::Sub, 1, 2),
            Bin(Op2::Add, 0, 5),
        ],
        conditions: &[],
        from: 4,
        to: 6,
    },
    Rule {
        parts: &[
            Tree(0),
            Tree(1),
            Tree(2),
            Bin(Op2::Add, 1, 2),
            Bin(Op2::Sub, 0, 3),
            Bin(Op2::Sub, 0, 1),
            Bin(Op2::Sub, 5, 2),
        ],
        conditions: &[],
        from: 4,
        to: 6,
    },
    Rule {
        parts: &[
            Tree(0),
            Tree(1),
            Tree(2),
            Bin(Op2::Sub, 1, 2),
            Bin(Op2::Sub, 0, 3),
            Bin(Op2::Sub, 0, 1),
            Bin(Op2::Add, 5, 2),
        ],
        conditions: &[],
        from: 4,
        to: 6,
    },
    // unit
    Rule {
        parts: &[Tree(0), Const(Var(0), Lit(0)), Bin(Op2::Add, 0, 1)],
        conditions: &[Is(Var(0), Width(0))],
        from: 2,
        to: 0,
    },
    Rule {
        parts: &[Tree(0), Const(Var(0), Lit(0)), Bin(Op2::Sub, 0, 1)],
        conditions: &[Is(Var(0), Width(0))],
        from: 2,
        to: 0,
    },
    Rule {
        parts: &[Tree(0), Const(Var(0), Lit(0)), Bin(Op2::Or, 0, 1)],
        conditions: &[Is(Var(0), Width(0))],
        from: 2,
        to: 0,
    },
    Rule {
        parts: &[Tree(0), Const(Var(0), Lit(0)), Bin(Op2::Xor, 0, 1)],
        conditions: &[Is(Var(0), Width(0))],
        from: 2,
        to: 0,
    },
    Rule {
        parts: &[Tree(0), Const(Var(0), Var(1)), Bin(Op2::And, 0, 1)],
        conditions: &[
            Is(Var(0), Width(0)),
            Is(Var(1), Apply1(Op1::Not, Var(0), Lit(0))),
        ],
        from: 2,
        to: 0,
    },
    Rule {
        parts: &[Tree(0), Const(Var(0), Lit(1)), Bin(Op2::Mul, 0, 1)],
        conditions: &[Is(Var(0), Width(0))],
        from: 2,
        to: 0,
    },
    // zero
    Rule {
        parts: &[Tree(0), Const(Var(0), Lit(0)), Bin(Op2::And, 0, 1)],
        conditions: &[Is(Var(0), Width(0))],
        from: 2,
        to: 1,
    },
    Rule {
        parts: &[Tree(0), Const(Var(0), Lit(0)), Bin(Op2::Mul, 0, 1)],
        conditions: &[Is(Var(0), Width(0))],
        from: 2,
        to: 1,
    },
    // self
    Rule {
        parts: &[Tree(0), Bin(Op2::Sub, 0, 0), Const(Var(0), Lit(0))],
        conditions: &[Is(Var(0), Width(0))],
        from: 1,
        to: 2,
    },
    Rule {
        parts: &[Tree(0), Bin(Op2::Xor, 0, 0), Const(Var(0), Lit(0))],
        conditions: &[Is(Var(0), Width(0))],
        from: 1,
        to: 2,
    },
    Rule {
        parts: &[Tree(0), Bin(Op2::And, 0, 0)],
        conditions: &[],
        from: 1,
        to: 0,
    },
    Rule {
        parts: &[Tree(0), Bin(Op2::Or, 0, 0)],
        conditions: &[],
        from: 1,
        to: 0,
    },
    // add-lit
    Rule {
        parts: &[
            Tree(0),
            Const(Var(0), Var(1)),
            Bin(Op2::Sub, 0, 1),
            Const(Var(0), Var(2)),
            Bin(Op2::Add, 0, 3),
        ],
        conditions: &[
            Is(Var(0), Width(0)),
            Is(Var(2), Apply1(Op1::Neg, Var(0), Var(1))),
        ],
        from: 2,
        to: 4,
    },
    // neg, and not
    Rule {
        parts: &[
            Tree(0),
            Tree(1),
            Bin(Op2::Sub, 0, 1),
            Un(Op1::Neg, 1),
            Bin(Op2::Add, 0, 3),
        ],
        conditions: &[],
        from: 2,
        to: 4,
    },
    Rule {
        parts: &[
            Tree(0),
            Un(Op1::Neg, 0),
            Const(Var(0), Lit(0)),
            Bin(Op2::Sub, 2, 0),
        ],
        conditions: &[Is(Var(0), Width(0))],
        from: 1,
        to: 3,
    },
    Rule {
        parts: &[
            Tree(0),
            Un(Op1::Neg, 0),
            Un(Op1::Not, 0),
            Const(Var(0), Lit(1)),
            Bin(Op2::Add, 2, 3),
        ],
        conditions: &[Is(Var(0), Width(0))],
        from: 1,
        to: 4,
    },
    Rule {
        parts: &[
            Tree(0),
            Un(Op1::Not, 0),
            Const(Var(0), Var(1)),
            Bin(Op2::Xor, 0, 2),
        ],
        conditions: &[
            Is(Var(0), Width(0)),
            Is(Var(1), Apply1(Op1::Not, Var(0), Lit(0))),
        ],
        from: 1,
        to: 3,
    },
    Rule {
        parts: &[
            Tree(0),
            Un(Op1::Not, 0),
            Const(Var(0), Var(1)),
            Bin(Op2::Sub, 2, 0),
        ],
        conditions: &[
            Is(Var(0), Width(0)),
            Is(Var(1), Apply1(Op1::Not, Var(0), Lit(0))),
        ],
        from: 1,
        to: 3,
    },
    Rule {
        parts: &[Tree(0), Un(Op1::Not, 0), Un(Op1::Not, 1)],
        conditions: &[],
        from: 2,
        to: 0,
    },
    // mul-split
    Rule {
        parts: &[
            Tree(0),
            Tree(1),
            Tree(2),
            Bin(Op2::Add, 1, 2),
            Bin(Op2::Mul, 0, 3),
            Bin(Op2::Mul, 0, 1),
            Bin(Op2::Mul, 0, 2),
            Bin(Op2::Add, 5, 6),
        ],
        conditions: &[],
        from: 4,
        to: 7,
    },
    // xor-or, or-add, and-sub
    Rule {
        parts: &[
            Tree(0),
            Tree(1),
            Bin(Op2::Xor, 0, 1),
            Bin(Op2::Or, 0, 1),
            Bin(Op2::And, 0, 1),
            Bin(Op2::Sub, 3, 4),
        ],
        conditions: &[],
        from: 2,
        to: 5,
    },
    Rule {
        parts: &[
            Tree(0),
            Tree(1),
            Bin(Op2::Or, 0, 1),
            Bin(Op2::And, 0, 1),
            Bin(Op2::Sub, 0, 3),
            Bin(Op2::Add, 4, 1),
        ],
        conditions: &[],
        from: 2,
        to: 5,
    },
    Rule {
        parts: &[
            Tree(0),
            Tree(1),
            Bin(Op2::And, 0, 1),
            Bin(Op2::Add, 0, 1),
            Bin(Op2::Or, 0, 1),
            Bin(Op2::Sub, 3, 4),
        ],
        conditions: &[],
        from: 2,
        to: 5,
    },
    // De Morgan
    Rule {
        parts: &[
            Tree(0),
            Tree(1),
            Bin(Op2::Or, 0, 1),
            Un(Op1::Not, 0),
            Un(Op1::Not, 1),
            Bin(Op2::And, 3, 4),
            Un(Op1::Not, 5),
        ],
        conditions: &[],
        from: 2,
        to: 6,
    },
    Rule {
        parts: &[
            Tree(0),
            Tree(1),
            Bin(Op2::And, 0, 1),
            Un(Op1::Not, 0),
            Un(Op1::Not, 1),
            Bin(Op2::Or, 3, 4),
            Un(Op1::Not, 5),
        ],
        conditions: &[],
        from: 2,
        to: 6,
    },
];

/// The laws of sums, products and bitwise operators.
pub fn sums_rules() -> &'static [Rule]
    ensures { AllByRecursion RuleHolds result.now }
{
    &RULES
}
