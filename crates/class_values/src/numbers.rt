//! Classes whose value is a number.

ghost use Rattle.std.specs.Prelude.{◌≡◌, true, IfOk, IfSome};
ghost use Rattle.class_values.specs.Values.{AreSame, HasNumber, IsNumber};
ghost use Rattle.class_values.specs.Inner.Numbers.{IsFitting, IsListed, IsTold};
ghost use Rattle.rec_bits.specs.Operators.{apply1_of, apply2_of, sext_of, slice_of};
ghost use Rattle.tree_laws.specs.Classes.{Grows, width_in};

use crate::facts::Fact;
use crate::room::class_of;
use rec_bits::{NoMemory, Op1, Op2, apply1, apply2, mask, sext, slice};
use sym_expr::Node;
use tree_laws::Classes;

/// Whether one class stands for both.
pub fn are_same(table: &Classes, a: u64, b: u64) -> bool
    ensures { result ≡ true → AreSame table.now a b }
{
    a < table.len() && b < table.len() && table.head(a) == table.head(b)
}

// The node that was listed when the class was made that stands for this one, as long as each class
// was made with a node. It may be another class's: it is to be confirmed.
pub(crate) fn first_node(table: &Classes, class: u64) -> Option<Node> {
    let (node, _) = table.node(table.head(class) as usize)?;
    Some(node)
}

// The number of that node.
fn candidate(table: &Classes, class: u64) -> Option<u64> {
    match first_node(table, class)? {
        Node::Const { value, .. } => Some(value),
        _ => None,
    }
}

// The number that is a tree of the class.
fn literal_of(table: &Classes, facts: &[Fact], class: u64) -> Option<u64>
    ensures { IfSome result (HasNumber table.now facts.now class) }
{
    let value = candidate(table, class)?;
    let width = table.width(class)?;
    let found = table.find(Node::Const { width, value })?;
    if are_same(table, class, found) {
        Some(value)
    } else {
        None
    }
}

// Whether a node is one of a class.
fn is_listed(table: &Classes, node: Node, class: u64) -> bool
    ensures { result ≡ true → IsListed table.now node class }
{
    match table.find(node) {
        Some(found) => are_same(table, class, found),
        None => false,
    }
}

// ---- facts

// How many negations of a test are looked into.
const NEGATIONS: u8 = 2;

// The number that an equation gives the class, if it holds and the class is its first operand.
fn equated(table: &Classes, fact: Fact, class: u64, a: u64, b: u64) -> Option<u64>
    ensures { IfSome result (IsTold table.now fact class) }
{
    let number = literal_of(table, &[], b)?;
    if fact.number != 1 || !are_same(table, class, a) {
        return None;
    }
    if is_listed(table, Node::Bin(Op2::Eq, a, b), fact.class) {
        Some(number)
    } else {
        None
    }
}

// What a fact says of the operand of a test's negation.
fn denied(table: &Classes, fact: Fact, a: u64) -> Option<Fact>
    ensures { IfSome result (λ of. IsTold table.now fact of.class of.number) }
{
    let width = table.width(a)?;
    if width != 1 || fact.number > 1 {
        return None;
    }
    if is_listed(table, Node::Un(Op1::Not, a), fact.class) {
        Some(Fact {
            class: a,
            number: 1 - fact.number,
        })
    } else {
        None
    }
}

// The number that a fact gives the class, over so many negations.
fn told_by(table: &Classes, fact: Fact, class: u64, negations: u8) -> Option<u64>
    ensures { IfSome result (IsTold table.now fact class) }
{
    if are_same(table, class, fact.class) {
        return Some(fact.number);
    }
    match first_node(table, fact.class)? {
        Node::Bin(Op2::Eq, a, b) => equated(table, fact, class, a, b),
        Node::Un(Op1::Not, a) => {
            if negations == 0 {
                return None;
            }
            let operand = denied(table, fact, a)?;
            told_by(table, operand, class, negations - 1)
        }
        _ => None,
    }
}

// The number that a fact gives the class.
fn told_of(table: &Classes, facts: &[Fact], class: u64) -> Option<u64>
    ensures { IfSome result (HasNumber table.now facts.now class) }
{
    let Some((fact, rest)) = facts.split_first() else {
        return None;
    };
    let number = told_by(table, *fact, class, NEGATIONS);
    if number.is_some() {
        return number;
    }
    told_of(table, rest, class)
}

// ---- numbers of operators

// Whether a number fits a class's width.
fn fitting_width(table: &Classes, class: u64, number: u64) -> Option<u8>
    ensures { IfSome result (λ width. IsFitting table.now class number width) }
{
    let width = table.width(class)?;
    if 1 <= width && width <= 64 && number <= mask(width) {
        Some(width)
    } else {
        None
    }
}

fn unary_number(table: &Classes, op: Op1, a: u64, x: u64) -> Option<u64>
    ensures { IfSome result (λ n. n ≡ apply1_of op (width_in table.now a) x) }
{
    let width = fitting_width(table, a, x)?;
    Some(apply1(op, width, x))
}

fn binary_number(table: &Classes, op: Op2, a: u64, x: u64, y: u64) -> Option<u64>
    ensures { IfSome result (λ n. n ≡ apply2_of op (width_in table.now a) x y) }
{
    let width = fitting_width(table, a, x)?;
    if y <= mask(width) {
        Some(apply2(op, width, x, y))
    } else {
        None
    }
}

fn part_number(x: u64, hi: u8, lo: u8) -> Option<u64>
    ensures { IfSome result (λ n. n ≡ slice_of x hi lo) }
{
    if lo <= hi && hi <= 63 {
        Some(slice(x, hi, lo))
    } else {
        None
    }
}

fn signed_number(table: &Classes, a: u64, x: u64, width: u8) -> Option<u64>
    ensures { IfSome result (λ n. n ≡ sext_of x (width_in table.now a) width) }
{
    let from = fitting_width(table, a, x)?;
    if from <= width && width <= 64 {
        Some(sext(x, from, width))
    } else {
        None
    }
}

// How deep operators are looked into.
const LEVELS: u8 = 6;

// The number that a class has, by operators over so many levels.
fn number_within(table: &Classes, facts: &[Fact], class: u64, levels: u8) -> Option<u64>
    ensures { IfSome result (HasNumber table.now facts.now class) }
{
    if let Some(number) = told_of(table, facts, class) {
        return Some(number);
    }
    if let Some(number) = literal_of(table, facts, class) {
        return Some(number);
    }
    if levels == 0 || facts.is_empty() {
        return None;
    }
    let node = first_node(table, class)?;
    if !is_listed(table, node, class) {
        return None;
    }
    match node {
        Node::Un(op, a) => {
            let x = number_within(table, facts, a, levels - 1)?;
            unary_number(table, op, a, x)
        }
        Node::Bin(op, a, b) => {
            let x = number_within(table, facts, a, levels - 1)?;
            let y = number_within(table, facts, b, levels - 1)?;
            binary_number(table, op, a, x, y)
        }
        Node::Slice(a, hi, lo) => {
            let x = number_within(table, facts, a, levels - 1)?;
            part_number(x, hi, lo)
        }
        Node::Zext(a, _width) => number_within(table, facts, a, levels - 1),
        Node::Sext(a, width) => {
            let x = number_within(table, facts, a, levels - 1)?;
            signed_number(table, a, x, width)
        }
        _ => None,
    }
}

/// The number that a class has as its value wherever the facts hold, if one is known.
pub fn number_of(table: &Classes, facts: &[Fact], class: u64) -> Option<u64>
    ensures { IfSome result (HasNumber table.now facts.now class) }
{
    number_within(table, facts, class, LEVELS)
}

/// The class of a number of this width, or None where it doesn't fit.
pub fn number(table: &mut Classes, width: u8, value: u64) -> Result<Option<u64>, NoMemory>
    ensures grows { Grows table.old table.new }
    ensures is { IfOk result (λ found. IfSome found (IsNumber table.new width value)) }
{
    class_of(table, Node::Const { width, value })
}
