//! Low bits of classes in one form: those of an operator that acts on low bits are the operator over
//! its operands' low bits, and those of an extended value are the value's.

ghost use Rattle.std.specs.Prelude.{◌≡◌, ◌<◌, [], true, IfOk, IfSome};
ghost use Rattle.class_values.specs.Inner.Sums.{ActsOnLow, HasLow, Makes, MakesOf, SharesLow};
ghost use Rattle.class_values.specs.Inner.Numbers.{IsSized};
ghost use Rattle.tree_laws.specs.Classes.{Grows};

use crate::numbers::{are_same, first_node, number};
use crate::room::class_of;
use crate::sums::literal;
use crate::values::{WideNumber, binary_in_form, unary_in_form};
use rec_bits::{NoMemory, Op1, Op2, slice};
use sym_expr::Node;
use tree_laws::Classes;

// ---- what a class is made of

// A listed operator over two classes.
#[derive(Clone, Copy)]
struct Binary {
    op: Op2,
    first: u64,
    last: u64,
}

// Whether an operator's low bits are its value at the operands' low bits.
fn acts_on_low(op: Op2) -> bool
    ensures { result ≡ true → ActsOnLow op }
{
    match op {
        Op2::Add | Op2::Sub | Op2::Mul | Op2::And | Op2::Or | Op2::Xor => true,
        Op2::Shl | Op2::Shr | Op2::Sar | Op2::Eq | Op2::Ltu | Op2::Lts => false,
    }
}

// The operands of a listed operator, which are to be confirmed.
fn binary_candidate(table: &Classes, class: u64) -> Option<Binary> {
    match first_node(table, class)? {
        Node::Bin(op, first, last) => Some(Binary { op, first, last }),
        _ => None,
    }
}

// A class as a listed operator that acts on low bits.
fn binary_of(table: &Classes, class: u64) -> Option<Binary>
    ensures makes { IfSome result (λ b. Makes table.now b.op b.first b.last class) }
    ensures low { IfSome result (λ b. ActsOnLow b.op) }
{
    let binary = binary_candidate(table, class)?;
    if !acts_on_low(binary.op) {
        return None;
    }
    let found = table.find(Node::Bin(binary.op, binary.first, binary.last))?;
    let left = table.width(binary.first)?;
    let right = table.width(binary.last)?;
    let own = table.width(class)?;
    if left == own && right == own && are_same(table, class, found) {
        Some(binary)
    } else {
        None
    }
}

// A listed operator over one class.
#[derive(Clone, Copy)]
struct Unary {
    op: Op1,
    of: u64,
}

// The operand of a listed operator, which is to be confirmed.
fn unary_candidate(table: &Classes, class: u64) -> Option<Unary> {
    match first_node(table, class)? {
        Node::Un(op, of) => Some(Unary { op, of }),
        _ => None,
    }
}

// A class as a listed operator over one class.
fn unary_of(table: &Classes, class: u64) -> Option<Unary>
    ensures { IfSome result (λ u. MakesOf table.now u.op u.of class) }
{
    let unary = unary_candidate(table, class)?;
    let found = table.find(Node::Un(unary.op, unary.of))?;
    let width = table.width(unary.of)?;
    let own = table.width(class)?;
    if width == own && are_same(table, class, found) {
        Some(unary)
    } else {
        None
    }
}

// What a class is a listed extension of with zeros, which is to be confirmed.
fn extended(table: &Classes, class: u64) -> Option<u64> {
    match first_node(table, class)? {
        Node::Zext(of, _) => Some(of),
        _ => None,
    }
}

// The same with copies of the top bit.
fn sign_extended(table: &Classes, class: u64) -> Option<u64> {
    match first_node(table, class)? {
        Node::Sext(of, _) => Some(of),
        _ => None,
    }
}

// The class of which a class is the extension with zeros, where the bits are within it.
fn narrower(table: &Classes, class: u64, hi: u8) -> Option<u64>
    ensures { IfSome result (λ of. SharesLow table.now class hi of) }
{
    let of = extended(table, class)?;
    let width = table.width(of)?;
    let own = table.width(class)?;
    let found = table.find(Node::Zext(of, own))?;
    if hi < width && width < own && are_same(table, class, found) {
        Some(of)
    } else {
        None
    }
}

// The same with copies of the top bit.
fn sign_narrower(table: &Classes, class: u64, hi: u8) -> Option<u64>
    ensures { IfSome result (λ of. SharesLow table.now class hi of) }
{
    let of = sign_extended(table, class)?;
    let width = table.width(of)?;
    let own = table.width(class)?;
    let found = table.find(Node::Sext(of, own))?;
    if hi < width && width < own && are_same(table, class, found) {
        Some(of)
    } else {
        None
    }
}

// ---- low bits

// Whether the bits are all that the class has.
fn is_whole(table: &Classes, a: u64, hi: u8) -> bool
    ensures { result ≡ true → HasLow table.now a hi a }
{
    match table.width(a) {
        Some(width) => u64::from(width) == u64::from(hi) + 1,
        None => false,
    }
}

// The low bits of a literal.
fn low_number(table: &mut Classes, a: u64, hi: u8, of: WideNumber) -> Result<Option<u64>, NoMemory>
    requires { IsSized table.old [] a of.width of.number }
    ensures grows { Grows table.old table.new }
    ensures is { IfOk result (λ found. IfSome found (HasLow table.new a hi)) }
{
    if hi >= of.width || of.width > 64 {
        return Ok(None);
    }
    number(table, hi + 1, slice(of.number, hi, 0))
}

// The low bits of a class as they are.
fn listed_low(table: &mut Classes, a: u64, hi: u8) -> Result<Option<u64>, NoMemory>
    ensures grows { Grows table.old table.new }
    ensures is { IfOk result (λ found. IfSome found (HasLow table.new a hi)) }
{
    let Some(width) = table.width(a) else {
        return Ok(None);
    };
    if hi >= width {
        return Ok(None);
    }
    class_of(table, Node::Slice(a, hi, 0))
}

// How deep operators are looked into.
const LEVELS: u8 = 8;

// The low bits of a class, by operators over so many levels.
fn low_within(table: &mut Classes, a: u64, hi: u8, levels: u8) -> Result<Option<u64>, NoMemory>
    ensures grows { Grows table.old table.new }
    ensures is { IfOk result (λ found. IfSome found (HasLow table.new a hi)) }
{
    if is_whole(table, a, hi) {
        return Ok(Some(a));
    }
    if let Some(of) = literal(table, a) {
        return low_number(table, a, hi, of);
    }
    if levels == 0 {
        return listed_low(table, a, hi);
    }
    if let Some(inner) = narrower(table, a, hi) {
        return low_within(table, inner, hi, levels - 1);
    }
    if let Some(inner) = sign_narrower(table, a, hi) {
        return low_within(table, inner, hi, levels - 1);
    }
    if let Some(unary) = unary_of(table, a) {
        let Some(low) = low_within(table, unary.of, hi, levels - 1)? else {
            return Ok(None);
        };
        return unary_in_form(table, unary.op, low);
    }
    let Some(binary) = binary_of(table, a) else {
        return listed_low(table, a, hi);
    };
    let Some(first) = low_within(table, binary.first, hi, levels - 1)? else {
        return Ok(None);
    };
    let Some(last) = low_within(table, binary.last, hi, levels - 1)? else {
        return Ok(None);
    };
    binary_in_form(table, binary.op, first, last)
}

/// The class of a value's low bits, up to the bit `hi`.
pub(crate) fn low_bits(table: &mut Classes, a: u64, hi: u8) -> Result<Option<u64>, NoMemory>
    ensures grows { Grows table.old table.new }
    ensures is { IfOk result (λ found. IfSome found (HasLow table.new a hi)) }
{
    low_within(table, a, hi, LEVELS)
}
