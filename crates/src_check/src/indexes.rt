//! The rule of indexes, S4.

ghost use Rattle.std.specs.Prelude.{◌≡◌, IfSome};
ghost use Rattle.rec_bits.specs.Faults.{least};
ghost use Rattle.rec_bits.specs.Ranges.{HasEnds};
ghost use Rattle.src_model.specs.Names.{declared};
ghost use Rattle.src_model.specs.Written.{model_of_src_node, spot_node};
ghost use Rattle.src_model.specs.Indexes.{between, times, product_range, masked_range, range_by, index_range, counted_range, length_of, is_within, loose};
ghost use Rattle.src_check.specs.Inner.Rounds.{rounds_of};

use crate::names::SymbolTable;
use crate::rounds::Rounds;
use rec_bits::{Name, Op2, Range, lesser_offset, offset_if, range_add, range_mul, range_sub};
use src_model::{Spot, SrcExpr, SrcNode, number_of};

fn between(from: u64, to: u64) -> Range
    ensures value { result ≡ between from to }
    ensures ends { HasEnds result }
{
    Range {
        lo: i128::from(from),
        hi: i128::from(to),
    }
}

/// The numbers that a variable takes in the innermost of the loops that count with it.
fn counted_range(rounds: &Rounds<'_>, name: &Name) -> Option<Range>
    ensures value { result ≡ counted_range (rounds_of rounds.now) name.now }
    ensures ends { IfSome result HasEnds }
{
    match rounds {
        Rounds::Outside => None,
        Rounds::Within {
            counter,
            from,
            to,
            outer,
        } => {
            if name.as_slice() == counter.as_slice() {
                Some(between(*from, *from.max(to)))
            } else {
                counted_range(outer, name)
            }
        }
    }
}

fn times(range: Option<Range>, literal: u64) -> Option<Range>
    requires { IfSome range HasEnds }
    ensures value { result ≡ times range literal }
    ensures ends { IfSome result HasEnds }
{
    match range {
        Some(range) => range_mul(range, literal),
        None => None,
    }
}

fn product(
    n: Option<u64>,
    m: Option<u64>,
    left: Option<Range>,
    right: Option<Range>,
) -> Option<Range>
    requires left { IfSome left HasEnds }
    requires right { IfSome right HasEnds }
    ensures value { result ≡ product_range n m left right }
    ensures ends { IfSome result HasEnds }
{
    match (n, m) {
        (Some(n), _) => times(right, n),
        (None, Some(m)) => times(left, m),
        (None, None) => None,
    }
}

fn masked(n: Option<u64>, m: Option<u64>) -> Option<Range>
    ensures value { result ≡ masked_range n m }
    ensures ends { IfSome result HasEnds }
{
    match (n, m) {
        (Some(n), Some(m)) => Some(between(0, n.min(m))),
        (Some(n), None) | (None, Some(n)) => Some(between(0, n)),
        (None, None) => None,
    }
}

// The range of an operator's values, given its operands where they are numbers alone, and their
// ranges.
fn range_by(
    op: Op2,
    n: Option<u64>,
    m: Option<u64>,
    left: Option<Range>,
    right: Option<Range>,
) -> Option<Range>
    requires left { IfSome left HasEnds }
    requires right { IfSome right HasEnds }
    ensures value { result ≡ range_by op n m left right }
    ensures ends { IfSome result HasEnds }
{
    match op {
        Op2::Add => match (left, right) {
            (Some(left), Some(right)) => range_add(left, right),
            _ => None,
        },
        Op2::Sub => match (left, right) {
            (Some(left), Some(right)) => range_sub(left, right),
            _ => None,
        },
        Op2::Mul => product(n, m, left, right),
        Op2::And => masked(n, m),
        _ => None,
    }
}

/// The range of an index over whole numbers, where it is known.
pub fn index_range(rounds: &Rounds<'_>, e: &SrcExpr) -> Option<Range>
    ensures value { result ≡ index_range (rounds_of rounds.now) (model_of_src_node e.now.node) }
    ensures ends { IfSome result HasEnds }
{
    match &e.node {
        SrcNode::Num(n) => Some(between(*n, *n)),
        SrcNode::Var(spot) => match &spot.index {
            None => counted_range(rounds, &spot.name),
            Some(_) => None,
        },
        SrcNode::Bin(op, x, y) => {
            let left = index_range(rounds, x);
            let right = index_range(rounds, y);
            range_by(*op, number_of(x), number_of(y), left, right)
        }
        _ => None,
    }
}

fn length_of(table: &SymbolTable<'_>, name: &Name) -> u64
    ensures { result ≡ length_of (declared table.now name.now) }
{
    match table.find(name) {
        Some(var) => var.len.unwrap_or(0),
        None => 0,
    }
}

fn is_within(len: u64, range: Option<Range>) -> bool
    ensures { result ≡ is_within len range }
{
    match range {
        Some(range) => 0 <= range.lo && range.hi < i128::from(len),
        None => false,
    }
}

/// The least offset in an expression of an index that may lie outside its array.
#[cycle(loose)]
#[tactic(auto, using(rec_bits::proofs::Faults::least_rules))]
pub fn loose(table: &SymbolTable<'_>, rounds: &Rounds<'_>, e: &SrcExpr) -> Option<u64>
    ensures { result ≡ least (loose table.now (rounds_of rounds.now) (model_of_src_node e.now.node)) }
{
    match &e.node {
        SrcNode::Num(_) => None,
        SrcNode::Var(spot) => loose_spot(table, rounds, spot),
        SrcNode::Un(_, x) | SrcNode::Zext(x, _) | SrcNode::Sext(x, _) | SrcNode::Low(x, _) => {
            loose(table, rounds, x)
        }
        SrcNode::Bin(_, x, y) => lesser_offset(loose(table, rounds, x), loose(table, rounds, y)),
    }
}

/// The same of a place.
#[cycle(loose)]
#[tactic(auto, using(rec_bits::proofs::Faults::least_rules))]
pub fn loose_spot(table: &SymbolTable<'_>, rounds: &Rounds<'_>, spot: &Spot) -> Option<u64>
    ensures { result ≡ least (loose table.now (rounds_of rounds.now) (spot_node spot.now)) }
{
    match &spot.index {
        None => None,
        Some(index) => {
            let len = length_of(table, &spot.name);
            let found = offset_if(!is_within(len, index_range(rounds, index)), index.at);
            lesser_offset(found, loose(table, rounds, index))
        }
    }
}
