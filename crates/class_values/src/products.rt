//! Products with numbers, and shifts to the left by numbers, in one form: each term of a sum so many
//! times.

ghost use Rattle.std.specs.Prelude.{◌<◌, ◌^◌, [], IfOk, IfSome};
ghost use Rattle.rec_bits.specs.Operators.{IsWidth};
ghost use Rattle.class_values.specs.Inner.Sums.{Makes, MakesBy};
ghost use Rattle.class_values.specs.Inner.Numbers.{IsSized};
ghost use Rattle.tree_laws.specs.Classes.{Grows};
ghost use Rattle.rec_bits.specs.declared.operator.Op2;

use crate::multiples::multiplied;
use crate::numbers::number;
use crate::sums::{listed, literal, ordered, sum, terms_of};
use crate::values::WideNumber;
use rec_bits::{NoMemory, Op2, apply2};
use tree_laws::Classes;

// The class of so many times a literal.
fn scaled_number(
    table: &mut Classes,
    a: u64,
    of: WideNumber,
    by: WideNumber,
) -> Result<Option<u64>, NoMemory>
    requires of { IsSized table.old [] a of.width of.number }
    requires width { IsWidth by.width }
    requires fits { by.number < 2 ^ by.width }
    ensures grows { Grows table.old table.new }
    ensures is { IfOk result (λ found. IfSome found (MakesBy table.new Op2.Mul a by.width by.number)) }
{
    if of.width != by.width {
        return Ok(None);
    }
    number(
        table,
        by.width,
        apply2(Op2::Mul, by.width, of.number, by.number),
    )
}

// The class of so many times a value: of a sum, the sum of so many times each term.
fn scaled(table: &mut Classes, a: u64, by: WideNumber) -> Result<Option<u64>, NoMemory>
    requires width { IsWidth by.width }
    requires fits { by.number < 2 ^ by.width }
    ensures grows { Grows table.old table.new }
    ensures is { IfOk result (λ found. IfSome found (MakesBy table.new Op2.Mul a by.width by.number)) }
{
    if let Some(of) = literal(table, a) {
        return scaled_number(table, a, of, by);
    }
    let Some(terms) = terms_of(table, a) else {
        return multiplied(table, a, by);
    };
    let Some(first) = scaled(table, terms.first, by)? else {
        return Ok(None);
    };
    let Some(last) = scaled(table, terms.last, by)? else {
        return Ok(None);
    };
    sum(table, first, last)
}

// The class of a product with a literal.
fn by_literal(table: &mut Classes, a: u64, b: u64, by: WideNumber) -> Result<Option<u64>, NoMemory>
    requires { IsSized table.old [] b by.width by.number }
    ensures grows { Grows table.old table.new }
    ensures is { IfOk result (λ found. IfSome found (Makes table.new Op2.Mul a b)) }
{
    scaled(table, a, by)
}

// The class of a product of a literal with a value.
fn literal_times(
    table: &mut Classes,
    a: u64,
    b: u64,
    by: WideNumber,
) -> Result<Option<u64>, NoMemory>
    requires { IsSized table.old [] a by.width by.number }
    ensures grows { Grows table.old table.new }
    ensures is { IfOk result (λ found. IfSome found (Makes table.new Op2.Mul a b)) }
{
    by_literal(table, b, a, by)
}

/// The class of a product.
pub(crate) fn product(table: &mut Classes, a: u64, b: u64) -> Result<Option<u64>, NoMemory>
    ensures grows { Grows table.old table.new }
    ensures is { IfOk result (λ found. IfSome found (Makes table.new Op2.Mul a b)) }
{
    if let Some(by) = literal(table, b) {
        return by_literal(table, a, b, by);
    }
    if let Some(by) = literal(table, a) {
        return literal_times(table, a, b, by);
    }
    ordered(table, Op2::Mul, a, b)
}

// The class of a shift to the left by a literal: the product with a power of 2.
fn shifted_by(table: &mut Classes, a: u64, b: u64, by: WideNumber) -> Result<Option<u64>, NoMemory>
    requires { IsSized table.old [] b by.width by.number }
    ensures grows { Grows table.old table.new }
    ensures is { IfOk result (λ found. IfSome found (Makes table.new Op2.Shl a b)) }
{
    if by.number >= u64::from(by.width) {
        return listed(table, Op2::Shl, a, b);
    }
    let power = WideNumber {
        width: by.width,
        number: apply2(Op2::Shl, by.width, 1, by.number),
    };
    scaled(table, a, power)
}

/// The class of a shift to the left.
pub(crate) fn shifted(table: &mut Classes, a: u64, b: u64) -> Result<Option<u64>, NoMemory>
    ensures grows { Grows table.old table.new }
    ensures is { IfOk result (λ found. IfSome found (Makes table.new Op2.Shl a b)) }
{
    match literal(table, b) {
        Some(by) => shifted_by(table, a, b, by),
        None => listed(table, Op2::Shl, a, b),
    }
}
