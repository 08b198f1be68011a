//! Laws of extensions.

ghost use Rattle.std.specs.List.{AllByRecursion};
ghost use Rattle.tree_laws.specs.Rules.{RuleHolds};

use crate::Condition::Is;
use crate::Num::{Lit, Var};
use crate::Part::{Bin, Const, Sext, Slice, Tree, Zext};
use crate::Rule;
use crate::Value::{Power, Sum, Width};
use rec_bits::Op2;

const RULES: [Rule; 10] = [
    // ext-ext, and sext-zext
    Rule {
        parts: &[Tree(0), Zext(0, Var(0)), Zext(1, Var(1)), Zext(0, Var(1))],
        conditions: &[],
        from: 2,
        to: 3,
    },
    Rule {
        parts: &[Tree(0), Sext(0, Var(0)), Sext(1, Var(1)), Sext(0, Var(1))],
        conditions: &[],
        from: 2,
        to: 3,
    },
    Rule {
        parts: &[Tree(0), Zext(0, Var(0)), Sext(1, Var(1)), Zext(0, Var(1))],
        conditions: &[],
        from: 2,
        to: 3,
    },
    // ext-bitwise
    Rule {
        parts: &[
            Tree(0),
            Tree(1),
            Bin(Op2::And, 0, 1),
            Zext(2, Var(0)),
            Zext(0, Var(0)),
            Zext(1, Var(0)),
            Bin(Op2::And, 4, 5),
        ],
        conditions: &[],
        from: 3,
        to: 6,
    },
    Rule {
        parts: &[
            Tree(0),
            Tree(1),
            Bin(Op2::Or, 0, 1),
            Zext(2, Var(0)),
            Zext(0, Var(0)),
            Zext(1, Var(0)),
            Bin(Op2::Or, 4, 5),
        ],
        conditions: &[],
        from: 3,
        to: 6,
    },
    Rule {
        parts: &[
            Tree(0),
            Tree(1),
            Bin(Op2::Xor, 0, 1),
            Zext(2, Var(0)),
            Zext(0, Var(0)),
            Zext(1, Var(0)),
            Bin(Op2::Xor, 4, 5),
        ],
        conditions: &[],
        from: 3,
        to: 6,
    },
    Rule {
        parts: &[
            Tree(0),
            Tree(1),
            Bin(Op2::And, 0, 1),
            Sext(2, Var(0)),
            Sext(0, Var(0)),
            Sext(1, Var(0)),
            Bin(Op2::And, 4, 5),
        ],
        conditions: &[],
        from: 3,
        to: 6,
    },
    Rule {
        parts: &[
            Tree(0),
            Tree(1),
            Bin(Op2::Or, 0, 1),
            Sext(2, Var(0)),
            Sext(0, Var(0)),
            Sext(1, Var(0)),
            Bin(Op2::Or, 4, 5),
        ],
        conditions: &[],
        from: 3,
        to: 6,
    },
    Rule {
        parts: &[
            Tree(0),
            Tree(1),
            Bin(Op2::Xor, 0, 1),
            Sext(2, Var(0)),
            Sext(0, Var(0)),
            Sext(1, Var(0)),
            Bin(Op2::Xor, 4, 5),
        ],
        conditions: &[],
        from: 3,
        to: 6,
    },
    // zext-and: the low bits alone
    Rule {
        parts: &[
            Tree(0),
            Const(Var(0), Var(4)),
            Bin(Op2::And, 0, 1),
            Slice(0, Var(1), Lit(0)),
            Zext(3, Var(0)),
        ],
        conditions: &[
            Is(Var(0), Width(0)),
            Is(Var(2), Sum(Var(1), Lit(1))),
            Is(Var(3), Power(Var(2))),
            Is(Var(3), Sum(Var(4), Lit(1))),
        ],
        from: 2,
        to: 4,
    },
];

/// The laws of extensions.
pub fn extend_rules() -> &'static [Rule]
    ensures { AllByRecursion RuleHolds result.now }
{
    &RULES
}
