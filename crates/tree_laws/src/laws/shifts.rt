//! Laws of shifts.

ghost use Rattle.std.specs.List.{AllByRecursion};
ghost use Rattle.tree_laws.specs.Rules.{RuleHolds};

use crate::Condition::{Is, Less};
use crate::Num::{Lit, Var};
use crate::Part::{Bin, Const, Sext, Slice, Tree, Zext};
use crate::Rule;
use crate::Value::{Power, Sum, Width};
use rec_bits::Op2;

const RULES: [Rule; 17] = [
    // widen-shl
    Rule {
        parts: &[
            Tree(0),
            Const(Var(0), Var(1)),
            Bin(Op2::Shl, 0, 1),
            Slice(2, Var(2), Lit(0)),
            Slice(0, Var(2), Lit(0)),
            Const(Var(3), Var(1)),
            Bin(Op2::Shl, 4, 5),
        ],
        conditions: &[Is(Var(3), Sum(Var(2), Lit(1))), Less(Var(1), Var(3))],
        from: 3,
        to: 6,
    },
    // shift-wide: a shift of an extended number
    Rule {
        parts: &[
            Tree(0),
            Const(Var(0), Var(1)),
            Bin(Op2::Shr, 0, 1),
            Zext(0, Var(2)),
            Const(Var(2), Var(1)),
            Bin(Op2::Shr, 3, 4),
            Slice(5, Var(3), Lit(0)),
        ],
        conditions: &[
            Is(Var(0), Width(0)),
            Is(Var(0), Sum(Var(3), Lit(1))),
            Less(Var(1), Var(0)),
        ],
        from: 2,
        to: 6,
    },
    Rule {
        parts: &[
            Tree(0),
            Const(Var(0), Var(1)),
            Bin(Op2::Sar, 0, 1),
            Sext(0, Var(2)),
            Const(Var(2), Var(1)),
            Bin(Op2::Sar, 3, 4),
            Slice(5, Var(3), Lit(0)),
        ],
        conditions: &[
            Is(Var(0), Width(0)),
            Is(Var(0), Sum(Var(3), Lit(1))),
            Less(Var(1), Var(0)),
        ],
        from: 2,
        to: 6,
    },
    // shift-slice: a shift to the right is a slice that is extended
    Rule {
        parts: &[
            Tree(0),
            Const(Var(0), Var(1)),
            Bin(Op2::Shr, 0, 1),
            Slice(0, Var(2), Var(1)),
            Zext(3, Var(0)),
        ],
        conditions: &[Is(Var(0), Width(0)), Is(Var(0), Sum(Var(2), Lit(1)))],
        from: 2,
        to: 4,
    },
    Rule {
        parts: &[
            Tree(0),
            Const(Var(0), Var(1)),
            Bin(Op2::Sar, 0, 1),
            Slice(0, Var(2), Var(1)),
            Sext(3, Var(0)),
        ],
        conditions: &[Is(Var(0), Width(0)), Is(Var(0), Sum(Var(2), Lit(1)))],
        from: 2,
        to: 4,
    },
    // shift-shift: a shift of a shifted number
    Rule {
        parts: &[
            Tree(0),
            Const(Var(0), Var(1)),
            Bin(Op2::Shl, 0, 1),
            Const(Var(0), Var(2)),
            Bin(Op2::Shl, 2, 3),
            Const(Var(0), Var(3)),
            Bin(Op2::Shl, 0, 5),
        ],
        conditions: &[
            Is(Var(0), Width(0)),
            Is(Var(3), Sum(Var(1), Var(2))),
            Less(Var(3), Var(0)),
        ],
        from: 4,
        to: 6,
    },
    Rule {
        parts: &[
            Tree(0),
            Const(Var(0), Var(1)),
            Bin(Op2::Shr, 0, 1),
            Const(Var(0), Var(2)),
            Bin(Op2::Shr, 2, 3),
            Const(Var(0), Var(3)),
            Bin(Op2::Shr, 0, 5),
        ],
        conditions: &[
            Is(Var(0), Width(0)),
            Is(Var(3), Sum(Var(1), Var(2))),
            Less(Var(3), Var(0)),
        ],
        from: 4,
        to: 6,
    },
    Rule {
        parts: &[
            Tree(0),
            Const(Var(0), Var(1)),
            Bin(Op2::Sar, 0, 1),
            Const(Var(0), Var(2)),
            Bin(Op2::Sar, 2, 3),
            Const(Var(0), Var(3)),
            Bin(Op2::Sar, 0, 5),
        ],
        conditions: &[
            Is(Var(0), Width(0)),
            Is(Var(3), Sum(Var(1), Var(2))),
            Less(Var(3), Var(0)),
        ],
        from: 4,
        to: 6,
    },
    // shr-sar: the copies of the top bit are cut off
    Rule {
        parts: &[
            Tree(0),
            Const(Var(0), Var(1)),
            Bin(Op2::Shr, 0, 1),
            Bin(Op2::Sar, 0, 1),
            Const(Var(0), Var(4)),
            Bin(Op2::And, 3, 4),
        ],
        conditions: &[
            Is(Var(0), Width(0)),
            Is(Var(0), Sum(Var(1), Var(2))),
            Is(Var(3), Power(Var(2))),
            Is(Var(3), Sum(Var(4), Lit(1))),
            Less(Var(1), Var(0)),
        ],
        from: 2,
        to: 5,
    },
    // zext-shr, and sext-sar
    Rule {
        parts: &[
            Tree(0),
            Const(Var(0), Var(1)),
            Bin(Op2::Shr, 0, 1),
            Zext(2, Var(2)),
            Zext(0, Var(2)),
            Const(Var(2), Var(1)),
            Bin(Op2::Shr, 4, 5),
        ],
        conditions: &[Is(Var(0), Width(0)), Less(Var(1), Var(0))],
        from: 3,
        to: 6,
    },
    Rule {
        parts: &[
            Tree(0),
            Const(Var(0), Var(1)),
            Bin(Op2::Sar, 0, 1),
            Sext(2, Var(2)),
            Sext(0, Var(2)),
            Const(Var(2), Var(1)),
            Bin(Op2::Sar, 4, 5),
        ],
        conditions: &[Is(Var(0), Width(0)), Less(Var(1), Var(0))],
        from: 3,
        to: 6,
    },
    // sar-mul: the high half of a product
    Rule {
        parts: &[
            Tree(0),
            Const(Var(0), Var(1)),
            Bin(Op2::Sar, 0, 1),
            Sext(0, Var(2)),
            Const(Var(2), Var(6)),
            Bin(Op2::Mul, 3, 4),
            Slice(5, Var(4), Var(3)),
        ],
        conditions: &[
            Is(Var(0), Width(0)),
            Less(Var(1), Var(0)),
            Is(Var(0), Sum(Var(3), Lit(1))),
            Is(Var(4), Sum(Var(3), Var(3))),
            Is(Var(3), Sum(Var(5), Var(1))),
            Is(Var(6), Power(Var(5))),
        ],
        from: 2,
        to: 6,
    },
    // mul-shl, and double
    Rule {
        parts: &[
            Tree(0),
            Const(Var(0), Var(2)),
            Bin(Op2::Mul, 0, 1),
            Const(Var(0), Var(1)),
            Bin(Op2::Shl, 0, 3),
        ],
        conditions: &[
            Is(Var(0), Width(0)),
            Is(Var(2), Power(Var(1))),
            Less(Var(1), Var(0)),
        ],
        from: 2,
        to: 4,
    },
    Rule {
        parts: &[
            Tree(0),
            Const(Var(0), Lit(1)),
            Bin(Op2::Shl, 0, 1),
            Bin(Op2::Add, 0, 0),
        ],
        conditions: &[Is(Var(0), Width(0)), Less(Lit(1), Var(0))],
        from: 2,
        to: 3,
    },
    // unit
    Rule {
        parts: &[Tree(0), Const(Var(0), Lit(0)), Bin(Op2::Shl, 0, 1)],
        conditions: &[Is(Var(0), Width(0))],
        from: 2,
        to: 0,
    },
    Rule {
        parts: &[Tree(0), Const(Var(0), Lit(0)), Bin(Op2::Shr, 0, 1)],
        conditions: &[Is(Var(0), Width(0))],
        from: 2,
        to: 0,
    },
    Rule {
        parts: &[Tree(0), Const(Var(0), Lit(0)), Bin(Op2::Sar, 0, 1)],
        conditions: &[Is(Var(0), Width(0))],
        from: 2,
        to: 0,
    },
];

/// The laws of shifts by a number.
pub fn shifts_rules() -> &'static [Rule]
    ensures { AllByRecursion RuleHolds result.now }
{
    &RULES
}
