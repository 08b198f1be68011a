//! Classes as sums with a number.

ghost use Rattle.std.specs.Prelude.{IfSome};
ghost use Rattle.class_values.specs.Inner.Numbers.{IsSum};
ghost use Rattle.class_values.specs.Operators.{IsOffset};

use crate::facts::Fact;
use crate::numbers::{are_same, first_node};
use crate::values::sized;
use rec_bits::Op2;
use sym_expr::Node;
use tree_laws::Classes;

// A class as the sum of another one and of one that has a number, all of one width.
#[derive(Clone, Copy)]
struct Sum {
    base: u64,
    by: u64,
    number: u64,
}

// The operands of a listed sum, which are to be confirmed.
fn candidate(table: &Classes, class: u64) -> Option<(u64, u64)> {
    match first_node(table, class)? {
        Node::Bin(Op2::Add, base, by) => Some((base, by)),
        _ => None,
    }
}

// A class of this width as a sum with a number.
fn sum_of(table: &Classes, facts: &[Fact], class: u64, width: u8) -> Option<Sum>
    ensures { IfSome result (λ s. IsSum table.now facts.now class width s.base s.by s.number) }
{
    let operands = candidate(table, class)?;
    let (base, by) = operands;
    let found = table.find(Node::Bin(Op2::Add, base, by))?;
    let wide = sized(table, facts, by)?;
    let own = table.width(base)?;
    if own == width && wide.width == width && are_same(table, class, found) {
        Some(Sum {
            base,
            by,
            number: wide.number,
        })
    } else {
        None
    }
}

/// A class of a width as the sum of a class, the base, and a number.
#[derive(Clone, Copy)]
pub struct Offset {
    pub width: u8,
    pub base: u64,
    pub number: u64,
}

/// A class as the sum of a class, which may be itself, and a number, which may be 0; None where there is
/// no such class.
pub fn offset_of(table: &Classes, facts: &[Fact], class: u64) -> Option<Offset>
    ensures { IfSome result (λ o. IsOffset table.now facts.now class o.width o.base o.number) }
{
    let width = table.width(class)?;
    match sum_of(table, facts, class, width) {
        Some(sum) => Some(Offset {
            width,
            base: sum.base,
            number: sum.number,
        }),
        None => Some(Offset {
            width,
            base: class,
            number: 0,
        }),
    }
}
