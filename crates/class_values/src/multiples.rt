//! Multiples of classes: a class as so many times another one, and the class of so many times a class.

ghost use Rattle.std.specs.Prelude.{◌<◌, ◌^◌, IfOk, IfSome};
ghost use Rattle.rec_bits.specs.Operators.{IsWidth};
ghost use Rattle.class_values.specs.Inner.Sums.{IsMultiple, Makes, MakesBy};
ghost use Rattle.tree_laws.specs.Classes.{Grows};
ghost use Rattle.rec_bits.specs.declared.operator.Op2;

use crate::numbers::{are_same, first_node, number};
use crate::sums::{listed, listed_unary, literal, opposite_of};
use crate::values::WideNumber;
use rec_bits::{NoMemory, Op1, Op2, apply2, mask};
use sym_expr::Node;
use tree_laws::Classes;

// So many times a class.
#[derive(Clone, Copy)]
pub(crate) struct Multiple {
    pub of: u64,
    pub times: WideNumber,
}

// ---- a class as a multiple

// The class itself, once.
fn once(table: &Classes, class: u64) -> Option<Multiple>
    ensures { IfSome result (λ m. IsMultiple table.now m.of m.times.width m.times.number class) }
{
    let width = table.width(class)?;
    if width < 1 || width > 64 {
        return None;
    }
    let times = WideNumber { width, number: 1 };
    Some(Multiple { of: class, times })
}

// A listed negative: as many times as there are numbers of its width, less one.
fn negative_of(table: &Classes, class: u64) -> Option<Multiple>
    ensures { IfSome result (λ m. IsMultiple table.now m.of m.times.width m.times.number class) }
{
    let of = opposite_of(table, class)?;
    let width = table.width(class)?;
    if width < 1 || width > 64 {
        return None;
    }
    let times = WideNumber {
        width,
        number: mask(width),
    };
    Some(Multiple { of, times })
}

// A listed product: what stands first, and the other factor.
#[derive(Clone, Copy)]
struct Factors {
    first: u64,
    last: u64,
}

// The factors of a listed product, which are to be confirmed.
fn candidate(table: &Classes, class: u64) -> Option<Factors> {
    match first_node(table, class)? {
        Node::Bin(Op2::Mul, first, last) => Some(Factors { first, last }),
        _ => None,
    }
}

// A listed product with a literal.
fn product_of(table: &Classes, class: u64) -> Option<Multiple>
    ensures { IfSome result (λ m. IsMultiple table.now m.of m.times.width m.times.number class) }
{
    let factors = candidate(table, class)?;
    let found = table.find(Node::Bin(Op2::Mul, factors.first, factors.last))?;
    let times = literal(table, factors.last)?;
    let width = table.width(factors.first)?;
    let own = table.width(class)?;
    if own == width && times.width == width && are_same(table, class, found) {
        Some(Multiple {
            of: factors.first,
            times,
        })
    } else {
        None
    }
}

// A class as a multiple of another one, or of itself.
fn multiple_of(table: &Classes, class: u64) -> Option<Multiple>
    ensures { IfSome result (λ m. IsMultiple table.now m.of m.times.width m.times.number class) }
{
    if let Some(negative) = negative_of(table, class) {
        return Some(negative);
    }
    match product_of(table, class) {
        Some(product) => Some(product),
        None => once(table, class),
    }
}

// ---- the class of a multiple

// The class of so many times a class as it is.
fn times(table: &mut Classes, of: u64, by: WideNumber) -> Result<Option<u64>, NoMemory>
    requires width { IsWidth by.width }
    requires fits { by.number < 2 ^ by.width }
    ensures grows { Grows table.old table.new }
    ensures is { IfOk result (λ found. IfSome found (MakesBy table.new Op2.Mul of by.width by.number)) }
{
    let Some(width) = table.width(of) else {
        return Ok(None);
    };
    if width != by.width {
        return Ok(None);
    }
    if by.number == 0 {
        return number(table, by.width, 0);
    }
    if by.number == 1 {
        return Ok(Some(of));
    }
    if by.number == mask(by.width) {
        return listed_unary(table, Op1::Neg, of);
    }
    let Some(last) = number(table, by.width, by.number)? else {
        return Ok(None);
    };
    listed(table, Op2::Mul, of, last)
}

/// The class of a sum of two multiples of one class.
pub(crate) fn merged(table: &mut Classes, a: u64, b: u64) -> Result<Option<u64>, NoMemory>
    ensures grows { Grows table.old table.new }
    ensures is { IfOk result (λ found. IfSome found (Makes table.new Op2.Add a b)) }
{
    let Some(first) = multiple_of(table, a) else {
        return Ok(None);
    };
    let Some(last) = multiple_of(table, b) else {
        return Ok(None);
    };
    let width = first.times.width;
    if last.times.width != width || !are_same(table, first.of, last.of) {
        return Ok(None);
    }
    let both = WideNumber {
        width,
        number: apply2(Op2::Add, width, first.times.number, last.times.number),
    };
    times(table, first.of, both)
}

/// The class of so many times a class that is no sum.
pub(crate) fn multiplied(
    table: &mut Classes,
    a: u64,
    by: WideNumber,
) -> Result<Option<u64>, NoMemory>
    requires width { IsWidth by.width }
    requires fits { by.number < 2 ^ by.width }
    ensures grows { Grows table.old table.new }
    ensures is { IfOk result (λ found. IfSome found (MakesBy table.new Op2.Mul a by.width by.number)) }
{
    let Some(own) = multiple_of(table, a) else {
        return Ok(None);
    };
    if own.times.width != by.width {
        return Ok(None);
    }
    let both = WideNumber {
        width: by.width,
        number: apply2(Op2::Mul, by.width, own.times.number, by.number),
    };
    times(table, own.of, both)
}
