//! Classes of what operators make of classes.

ghost use Rattle.std.specs.Prelude.{List, IfOk, IfSome};
ghost use Rattle.class_values.specs.declared.facts.Fact.{Fact as TheFact};
ghost use Rattle.class_values.specs.Inner.Sums.{Makes, MakesOf};
ghost use Rattle.class_values.specs.Inner.Numbers.{IsSized};
ghost use Rattle.class_values.specs.Operators.{IsBin, IsMade, IsSext, IsSlice, IsUn, IsZext};
ghost use Rattle.tree_laws.specs.Classes.{Grows, width_in};

use crate::facts::Fact;
use crate::low::low_bits;
use crate::numbers::{number, number_of};
use crate::products::{product, shifted};
use crate::room::class_of;
use crate::sums::{difference, equation, listed_unary, negative, ordered, sum};
use rec_bits::{NoMemory, Op1, Op2, apply1, apply2, mask, result_width, sext, slice};
use sym_expr::Node;
use tree_laws::Classes;

// A width and a number that fits it.
#[derive(Clone, Copy)]
pub(crate) struct WideNumber {
    pub width: u8,
    pub number: u64,
}

// The width of a class and the number that it has, where there is one.
pub(crate) fn sized(table: &Classes, facts: &[Fact], class: u64) -> Option<WideNumber>
    ensures { IfSome result (λ s. IsSized table.now facts.now class s.width s.number) }
{
    let width = table.width(class)?;
    let number = number_of(table, facts, class)?;
    if 1 <= width && width <= 64 && number <= mask(width) {
        Some(WideNumber { width, number })
    } else {
        None
    }
}

/// The class of an operator of one operand, or None where its widths don't fit.
pub fn unary(table: &mut Classes, facts: &[Fact], op: Op1, a: u64) -> Result<Option<u64>, NoMemory>
    ensures grows { Grows table.old table.new }
    ensures is { IfOk result (λ found. IfSome found (IsUn table.old table.new facts.now op a)) }
{
    match sized(table, facts, a) {
        Some(x) => number(table, x.width, apply1(op, x.width, x.number)),
        None => unary_in_form(table, op, a),
    }
}

// The class of an operator of one operand in its one form.
pub(crate) fn unary_in_form(table: &mut Classes, op: Op1, a: u64) -> Result<Option<u64>, NoMemory>
    ensures grows { Grows table.old table.new }
    ensures is { IfOk result (λ found. IfSome found (MakesOf table.new op a)) }
{
    match op {
        Op1::Neg => negative(table, a),
        Op1::Not => listed_unary(table, Op1::Not, a),
    }
}

/// The class of an operator of two operands.
pub fn binary(
    table: &mut Classes,
    facts: &[Fact],
    op: Op2,
    a: u64,
    b: u64,
) -> Result<Option<u64>, NoMemory>
    ensures grows { Grows table.old table.new }
    ensures is { IfOk result (λ found. IfSome found (IsBin table.old table.new facts.now op a b)) }
{
    let Some(x) = sized(table, facts, a) else {
        return settled_binary(table, facts, op, a, b);
    };
    match sized(table, facts, b) {
        Some(y) => {
            if y.width == x.width {
                number(
                    table,
                    result_width(op, x.width),
                    apply2(op, x.width, x.number, y.number),
                )
            } else {
                Ok(None)
            }
        }
        None => settled_binary(table, facts, op, a, b),
    }
}

// The class of an operator of two operands in its one form, over the numbers that they have.
fn settled_binary(
    table: &mut Classes,
    facts: &[Fact],
    op: Op2,
    a: u64,
    b: u64,
) -> Result<Option<u64>, NoMemory>
    ensures grows { Grows table.old table.new }
    ensures is { IfOk result (λ found. IfSome found (IsBin table.old table.new facts.now op a b)) }
{
    let Some(left) = settled(table, facts, a)? else {
        return Ok(None);
    };
    let Some(right) = settled(table, facts, b)? else {
        return Ok(None);
    };
    binary_in_form(table, op, left, right)
}

// The class of a class's number, where one is known, and else the class.
fn settled(table: &mut Classes, facts: &[Fact], a: u64) -> Result<Option<u64>, NoMemory>
    ensures grows { Grows table.old table.new }
    ensures is { IfOk result (λ found. IfSome found
        (IsMade table.old table.new facts.now a (width_in table.old a) (λ x. x))) }
{
    match sized(table, facts, a) {
        Some(x) => number(table, x.width, x.number),
        None => Ok(Some(a)),
    }
}

// The class of an operator of two operands in its one form.
pub(crate) fn binary_in_form(
    table: &mut Classes,
    op: Op2,
    a: u64,
    b: u64,
) -> Result<Option<u64>, NoMemory>
    ensures grows { Grows table.old table.new }
    ensures is { IfOk result (λ found. IfSome found (Makes table.new op a b)) }
{
    match op {
        Op2::Add => sum(table, a, b),
        Op2::Sub => difference(table, a, b),
        Op2::Eq => equation(table, a, b),
        Op2::Mul => product(table, a, b),
        Op2::Shl => shifted(table, a, b),
        _ => ordered(table, op, a, b),
    }
}

/// The class of the bits from `hi` down to `lo`.
pub fn sliced(
    table: &mut Classes,
    facts: &[Fact],
    a: u64,
    hi: u8,
    lo: u8,
) -> Result<Option<u64>, NoMemory>
    ensures grows { Grows table.old table.new }
    ensures is { IfOk result (λ found. IfSome found (IsSlice table.old table.new facts.now a hi lo)) }
{
    match sized(table, facts, a) {
        Some(x) => {
            if lo <= hi && hi <= 63 {
                number(table, hi + 1 - lo, slice(x.number, hi, lo))
            } else {
                Ok(None)
            }
        }
        None => part(table, a, hi, lo),
    }
}

// The class of bits of a class that has no known number.
fn part(table: &mut Classes, a: u64, hi: u8, lo: u8) -> Result<Option<u64>, NoMemory>
    ensures grows { Grows table.old table.new }
    ensures is { (facts : List TheFact) → IfOk result (λ found. IfSome found (IsSlice table.old table.new facts a hi lo)) }
{
    if lo == 0 {
        return low_bits(table, a, hi);
    }
    class_of(table, Node::Slice(a, hi, lo))
}

/// The class of zeros above a class's value.
pub fn zero_extended(
    table: &mut Classes,
    facts: &[Fact],
    a: u64,
    width: u8,
) -> Result<Option<u64>, NoMemory>
    ensures grows { Grows table.old table.new }
    ensures is { IfOk result (λ found. IfSome found (IsZext table.old table.new facts.now a width)) }
{
    match sized(table, facts, a) {
        Some(x) => number(table, width, x.number),
        None => class_of(table, Node::Zext(a, width)),
    }
}

/// The class of copies of the top bit above a class's value.
pub fn sign_extended(
    table: &mut Classes,
    facts: &[Fact],
    a: u64,
    width: u8,
) -> Result<Option<u64>, NoMemory>
    ensures grows { Grows table.old table.new }
    ensures is { IfOk result (λ found. IfSome found (IsSext table.old table.new facts.now a width)) }
{
    match sized(table, facts, a) {
        Some(x) => {
            if x.width <= width && width <= 64 {
                number(table, width, sext(x.number, x.width, width))
            } else {
                Ok(None)
            }
        }
        None => class_of(table, Node::Sext(a, width)),
    }
}
