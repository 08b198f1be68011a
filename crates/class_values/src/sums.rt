//! Operators over classes in one form: operands that commute in one order, sums term by term with a
//! number last, where no two terms are multiples of one class, and equations with a number.

ghost use Rattle.std.specs.Prelude.{◌≡◌, ◌<◌, ◌^◌, [], true, IfOk, IfSome};
ghost use Rattle.rec_bits.specs.Operators.{IsWidth};
ghost use Rattle.class_values.specs.Inner.Sums.{Commutes, Makes, MakesBy, MakesOf};
ghost use Rattle.class_values.specs.Inner.Numbers.{IsSized};
ghost use Rattle.tree_laws.specs.Classes.{Grows};
ghost use Rattle.rec_bits.specs.declared.operator.Op1;
ghost use Rattle.rec_bits.specs.declared.operator.Op2;

use crate::multiples::{merged, multiplied};
use crate::numbers::{are_same, first_node, number};
use crate::room::class_of;
use crate::values::{WideNumber, sized};
use rec_bits::{NoMemory, Op1, Op2, apply1, apply2, mask};
use sym_expr::Node;
use tree_laws::Classes;

/// How many terms a sum has at most that is taken apart. A longer one is a value like any other, so
/// no operator takes more steps than about this number's square.
const MOST_TERMS: u8 = 32;

// ---- listed operators

// The number of a literal.
pub(crate) fn literal(table: &Classes, class: u64) -> Option<WideNumber>
    ensures { IfSome result (λ s. IsSized table.now [] class s.width s.number) }
{
    sized(table, &[], class)
}

// The class of an operator over two classes as they are.
pub(crate) fn listed(table: &mut Classes, op: Op2, a: u64, b: u64) -> Result<Option<u64>, NoMemory>
    ensures grows { Grows table.old table.new }
    ensures is { IfOk result (λ found. IfSome found (Makes table.new op a b)) }
{
    let Some(left) = table.width(a) else {
        return Ok(None);
    };
    let Some(right) = table.width(b) else {
        return Ok(None);
    };
    if left != right {
        return Ok(None);
    }
    class_of(table, Node::Bin(op, a, b))
}

// The class of an operator over one class as it is.
pub(crate) fn listed_unary(table: &mut Classes, op: Op1, a: u64) -> Result<Option<u64>, NoMemory>
    ensures grows { Grows table.old table.new }
    ensures is { IfOk result (λ found. IfSome found (MakesOf table.new op a)) }
{
    let Some(_width) = table.width(a) else {
        return Ok(None);
    };
    class_of(table, Node::Un(op, a))
}

// ---- order

// Whether an operand stands before another: numbers stand last.
fn comes_before(table: &Classes, a: u64, b: u64) -> bool {
    if literal(table, a).is_some() {
        return false;
    }
    literal(table, b).is_some() || table.head(a) < table.head(b)
}

// Whether operands may be exchanged.
fn commutes(op: Op2) -> bool
    ensures { result ≡ true → Commutes op }
{
    match op {
        Op2::Add | Op2::Mul | Op2::And | Op2::Or | Op2::Xor | Op2::Eq => true,
        Op2::Sub | Op2::Shl | Op2::Shr | Op2::Sar | Op2::Ltu | Op2::Lts => false,
    }
}

// The class of an operator whose operands stand in order, if they may be exchanged.
pub(crate) fn ordered(table: &mut Classes, op: Op2, a: u64, b: u64) -> Result<Option<u64>, NoMemory>
    ensures grows { Grows table.old table.new }
    ensures is { IfOk result (λ found. IfSome found (Makes table.new op a b)) }
{
    if commutes(op) && comes_before(table, b, a) {
        return listed(table, op, b, a);
    }
    listed(table, op, a, b)
}

// ---- sums

// A listed sum: the terms before the last one, and the last one.
#[derive(Clone, Copy)]
pub(crate) struct Terms {
    pub first: u64,
    pub last: u64,
}

// The operands of a listed sum, which are to be confirmed.
fn candidate(table: &Classes, class: u64) -> Option<Terms> {
    match first_node(table, class)? {
        Node::Bin(Op2::Add, first, last) => Some(Terms { first, last }),
        _ => None,
    }
}

// Whether a sum has more terms than so many.
fn has_more_terms(table: &Classes, class: u64, most: u8) -> bool {
    match candidate(table, class) {
        Some(terms) => most <= 1 || has_more_terms(table, terms.first, most - 1),
        None => most == 0,
    }
}

// A class as a listed sum of earlier ones, where it hasn't too many terms.
pub(crate) fn terms_of(table: &Classes, class: u64) -> Option<Terms>
    ensures makes { IfSome result (λ t. Makes table.now Op2.Add t.first t.last class) }
    ensures first { IfSome result (λ t. t.first < class) }
    ensures last { IfSome result (λ t. t.last < class) }
{
    let terms = candidate(table, class)?;
    if has_more_terms(table, class, MOST_TERMS) {
        return None;
    }
    let found = table.find(Node::Bin(Op2::Add, terms.first, terms.last))?;
    let left = table.width(terms.first)?;
    let right = table.width(terms.last)?;
    let own = table.width(class)?;
    let is_earlier = terms.first < class && terms.last < class;
    if is_earlier && left == own && right == own && are_same(table, class, found) {
        Some(terms)
    } else {
        None
    }
}

// The class of a value and a number.
fn with_number(table: &mut Classes, base: u64, by: WideNumber) -> Result<Option<u64>, NoMemory>
    requires width { IsWidth by.width }
    requires fits { by.number < 2 ^ by.width }
    ensures grows { Grows table.old table.new }
    ensures is { IfOk result (λ found. IfSome found (MakesBy table.new Op2.Add base by.width by.number)) }
{
    let Some(width) = table.width(base) else {
        return Ok(None);
    };
    if width != by.width {
        return Ok(None);
    }
    if let Some(own) = literal(table, base) {
        return both_numbers(table, base, own, by);
    }
    if by.number == 0 {
        return Ok(Some(base));
    }
    let Some(last) = number(table, by.width, by.number)? else {
        return Ok(None);
    };
    listed(table, Op2::Add, base, last)
}

// The class of a number that is a class's and another one.
fn both_numbers(
    table: &mut Classes,
    base: u64,
    own: WideNumber,
    by: WideNumber,
) -> Result<Option<u64>, NoMemory>
    requires own { IsSized table.old [] base own.width own.number }
    requires width { IsWidth by.width }
    requires fits { by.number < 2 ^ by.width }
    ensures grows { Grows table.old table.new }
    ensures is { IfOk result (λ found. IfSome found (MakesBy table.new Op2.Add base by.width by.number)) }
{
    if own.width != by.width {
        return Ok(None);
    }
    number(
        table,
        by.width,
        apply2(Op2::Add, by.width, own.number, by.number),
    )
}

// The class of a sum and a number more.
fn raised(table: &mut Classes, a: u64, b: u64, by: WideNumber) -> Result<Option<u64>, NoMemory>
    requires { IsSized table.old [] b by.width by.number }
    ensures grows { Grows table.old table.new }
    ensures is { IfOk result (λ found. IfSome found (Makes table.new Op2.Add a b)) }
{
    let Some(terms) = terms_of(table, a) else {
        return with_literal(table, a, b, by);
    };
    let Some(last) = literal(table, terms.last) else {
        return with_literal(table, a, b, by);
    };
    if last.width != by.width {
        return Ok(None);
    }
    let both = WideNumber {
        width: by.width,
        number: apply2(Op2::Add, by.width, last.number, by.number),
    };
    with_number(table, terms.first, both)
}

// The class of a value and a literal.
fn with_literal(
    table: &mut Classes,
    a: u64,
    b: u64,
    by: WideNumber,
) -> Result<Option<u64>, NoMemory>
    requires { IsSized table.old [] b by.width by.number }
    ensures grows { Grows table.old table.new }
    ensures is { IfOk result (λ found. IfSome found (Makes table.new Op2.Add a b)) }
{
    with_number(table, a, by)
}

// The class of a sum and a term more that is no number, which is put in its place.
fn placed(table: &mut Classes, a: u64, b: u64) -> Result<Option<u64>, NoMemory>
    ensures grows { Grows table.old table.new }
    ensures is { IfOk result (λ found. IfSome found (Makes table.new Op2.Add a b)) }
{
    let Some(terms) = terms_of(table, a) else {
        return ordered(table, Op2::Add, a, b);
    };
    if !comes_before(table, b, terms.last) {
        return listed(table, Op2::Add, a, b);
    }
    let Some(first) = placed(table, terms.first, b)? else {
        return Ok(None);
    };
    listed(table, Op2::Add, first, terms.last)
}

// The class of a sum's terms, which may have come to a number, and a last one.
fn ended(table: &mut Classes, a: u64, b: u64) -> Result<Option<u64>, NoMemory>
    ensures grows { Grows table.old table.new }
    ensures is { IfOk result (λ found. IfSome found (Makes table.new Op2.Add a b)) }
{
    match literal(table, a) {
        Some(by) => swapped(table, a, b, by),
        None => placed(table, a, b),
    }
}

// The class of terms and one more, which may have come to a number.
fn followed(table: &mut Classes, a: u64, b: u64) -> Result<Option<u64>, NoMemory>
    ensures grows { Grows table.old table.new }
    ensures is { IfOk result (λ found. IfSome found (Makes table.new Op2.Add a b)) }
{
    match literal(table, b) {
        Some(by) => with_literal(table, a, b, by),
        None => placed(table, a, b),
    }
}

// The class of a sum and a term more, where a term of the sum is a multiple of the same class: the
// two are one term.
fn joined(table: &mut Classes, a: u64, b: u64) -> Result<Option<u64>, NoMemory>
    ensures grows { Grows table.old table.new }
    ensures is { IfOk result (λ found. IfSome found (Makes table.new Op2.Add a b)) }
{
    if let Some(both) = merged(table, a, b)? {
        return Ok(Some(both));
    }
    let Some(terms) = terms_of(table, a) else {
        return Ok(None);
    };
    if let Some(both) = merged(table, terms.last, b)? {
        return followed(table, terms.first, both);
    }
    let Some(first) = joined(table, terms.first, b)? else {
        return Ok(None);
    };
    ended(table, first, terms.last)
}

// The class of a sum and a term more.
fn term(table: &mut Classes, a: u64, b: u64) -> Result<Option<u64>, NoMemory>
    ensures grows { Grows table.old table.new }
    ensures is { IfOk result (λ found. IfSome found (Makes table.new Op2.Add a b)) }
{
    if let Some(by) = literal(table, b) {
        return raised(table, a, b, by);
    }
    if let Some(by) = literal(table, a) {
        return swapped(table, a, b, by);
    }
    match joined(table, a, b)? {
        Some(rest) => Ok(Some(rest)),
        None => placed(table, a, b),
    }
}

// The class of a literal and a value.
fn swapped(table: &mut Classes, a: u64, b: u64, by: WideNumber) -> Result<Option<u64>, NoMemory>
    requires { IsSized table.old [] a by.width by.number }
    ensures grows { Grows table.old table.new }
    ensures is { IfOk result (λ found. IfSome found (Makes table.new Op2.Add a b)) }
{
    with_literal(table, b, a, by)
}

/// The class of a sum, of the terms of both operands one after the other.
pub(crate) fn sum(table: &mut Classes, a: u64, b: u64) -> Result<Option<u64>, NoMemory>
    ensures grows { Grows table.old table.new }
    ensures is { IfOk result (λ found. IfSome found (Makes table.new Op2.Add a b)) }
{
    let Some(terms) = terms_of(table, b) else {
        return term(table, a, b);
    };
    let Some(first) = sum(table, a, terms.first)? else {
        return Ok(None);
    };
    term(table, first, terms.last)
}

// ---- negatives and differences

// The operand of a listed negative, which is to be confirmed.
fn operand(table: &Classes, class: u64) -> Option<u64> {
    match first_node(table, class)? {
        Node::Un(Op1::Neg, a) => Some(a),
        _ => None,
    }
}

// A class of which a class is the listed negative.
pub(crate) fn opposite_of(table: &Classes, class: u64) -> Option<u64>
    ensures { IfSome result (λ a. MakesOf table.now Op1.Neg a class) }
{
    let a = operand(table, class)?;
    let found = table.find(Node::Un(Op1::Neg, a))?;
    let width = table.width(a)?;
    let own = table.width(class)?;
    if width == own && are_same(table, class, found) {
        Some(a)
    } else {
        None
    }
}

// The negative of a class that is no sum.
fn negated(table: &mut Classes, a: u64) -> Result<Option<u64>, NoMemory>
    ensures grows { Grows table.old table.new }
    ensures is { IfOk result (λ found. IfSome found (MakesOf table.new Op1.Neg a)) }
{
    let Some(width) = table.width(a) else {
        return Ok(None);
    };
    if width < 1 || width > 64 {
        return Ok(None);
    }
    let less = WideNumber {
        width,
        number: mask(width),
    };
    multiplied(table, a, less)
}

// The negative of a literal.
fn negative_number(table: &mut Classes, a: u64, of: WideNumber) -> Result<Option<u64>, NoMemory>
    requires { IsSized table.old [] a of.width of.number }
    ensures grows { Grows table.old table.new }
    ensures is { IfOk result (λ found. IfSome found (MakesOf table.new Op1.Neg a)) }
{
    number(table, of.width, apply1(Op1::Neg, of.width, of.number))
}

/// The class of a value's negative: of a sum, the sum of the terms' negatives.
pub(crate) fn negative(table: &mut Classes, a: u64) -> Result<Option<u64>, NoMemory>
    ensures grows { Grows table.old table.new }
    ensures is { IfOk result (λ found. IfSome found (MakesOf table.new Op1.Neg a)) }
{
    if let Some(of) = literal(table, a) {
        return negative_number(table, a, of);
    }
    let Some(terms) = terms_of(table, a) else {
        return negated(table, a);
    };
    let Some(first) = negative(table, terms.first)? else {
        return Ok(None);
    };
    let Some(last) = negative(table, terms.last)? else {
        return Ok(None);
    };
    sum(table, first, last)
}

/// The class of a difference: the sum with the negative.
pub(crate) fn difference(table: &mut Classes, a: u64, b: u64) -> Result<Option<u64>, NoMemory>
    ensures grows { Grows table.old table.new }
    ensures is { IfOk result (λ found. IfSome found (Makes table.new Op2.Sub a b)) }
{
    let Some(negative) = negative(table, b)? else {
        return Ok(None);
    };
    sum(table, a, negative)
}

// ---- equations

// The class of whether a value is a number, as it is.
fn listed_equation(table: &mut Classes, a: u64, of: WideNumber) -> Result<Option<u64>, NoMemory>
    ensures grows { Grows table.old table.new }
    ensures is { IfOk result (λ found. IfSome found (MakesBy table.new Op2.Eq a of.width of.number)) }
{
    let Some(right) = number(table, of.width, of.number)? else {
        return Ok(None);
    };
    listed(table, Op2::Eq, a, right)
}

// The class of whether a value that is no sum with a number is a number: of a negative, whether what
// it is of is the number's.
fn term_equation(table: &mut Classes, a: u64, of: WideNumber) -> Result<Option<u64>, NoMemory>
    requires width { IsWidth of.width }
    requires fits { of.number < 2 ^ of.width }
    ensures grows { Grows table.old table.new }
    ensures is { IfOk result (λ found. IfSome found (MakesBy table.new Op2.Eq a of.width of.number)) }
{
    let Some(opposite) = opposite_of(table, a) else {
        return listed_equation(table, a, of);
    };
    let turned = WideNumber {
        width: of.width,
        number: apply1(Op1::Neg, of.width, of.number),
    };
    listed_equation(table, opposite, turned)
}

// The class of whether a value is a number: of a sum with a number, whether its other terms are the
// difference of both.
fn equals(table: &mut Classes, a: u64, of: WideNumber) -> Result<Option<u64>, NoMemory>
    requires width { IsWidth of.width }
    requires fits { of.number < 2 ^ of.width }
    ensures grows { Grows table.old table.new }
    ensures is { IfOk result (λ found. IfSome found (MakesBy table.new Op2.Eq a of.width of.number)) }
{
    let Some(terms) = terms_of(table, a) else {
        return term_equation(table, a, of);
    };
    let Some(last) = literal(table, terms.last) else {
        return listed_equation(table, a, of);
    };
    if last.width != of.width {
        return Ok(None);
    }
    let rest = WideNumber {
        width: of.width,
        number: apply2(Op2::Sub, of.width, of.number, last.number),
    };
    term_equation(table, terms.first, rest)
}

// The class of an equation with a literal.
fn equals_literal(
    table: &mut Classes,
    a: u64,
    b: u64,
    of: WideNumber,
) -> Result<Option<u64>, NoMemory>
    requires { IsSized table.old [] b of.width of.number }
    ensures grows { Grows table.old table.new }
    ensures is { IfOk result (λ found. IfSome found (Makes table.new Op2.Eq a b)) }
{
    equals(table, a, of)
}

// The class of an equation of a literal with a value.
fn literal_equals(
    table: &mut Classes,
    a: u64,
    b: u64,
    of: WideNumber,
) -> Result<Option<u64>, NoMemory>
    requires { IsSized table.old [] a of.width of.number }
    ensures grows { Grows table.old table.new }
    ensures is { IfOk result (λ found. IfSome found (Makes table.new Op2.Eq a b)) }
{
    equals_literal(table, b, a, of)
}

// The class of an equation of values whose difference is a number.
fn decided(table: &mut Classes, a: u64, b: u64) -> Result<Option<u64>, NoMemory>
    ensures grows { Grows table.old table.new }
    ensures is { IfOk result (λ found. IfSome found (Makes table.new Op2.Eq a b)) }
{
    let Some(rest) = difference(table, a, b)? else {
        return Ok(None);
    };
    let Some(of) = literal(table, rest) else {
        return Ok(None);
    };
    number(table, 1, apply2(Op2::Eq, of.width, of.number, 0))
}

/// The class of an equation. Where an operand is a number, numbers that are added to the other one
/// and its sign go to the number's side; where the difference is a number, it is known.
pub(crate) fn equation(table: &mut Classes, a: u64, b: u64) -> Result<Option<u64>, NoMemory>
    ensures grows { Grows table.old table.new }
    ensures is { IfOk result (λ found. IfSome found (Makes table.new Op2.Eq a b)) }
{
    if let Some(of) = literal(table, b) {
        return equals_literal(table, a, b, of);
    }
    if let Some(of) = literal(table, a) {
        return literal_equals(table, a, b, of);
    }
    if let Some(known) = decided(table, a, b)? {
        return Ok(Some(known));
    }
    ordered(table, Op2::Eq, a, b)
}
