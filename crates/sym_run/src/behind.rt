//! What arrays' cells hold behind writes.

ghost use Rattle.std.specs.Prelude.{◌≡◌, ◌≢◌, ◌≤◌, ◌⊎◌, true, IfOk, IfSome};
ghost use Rattle.sym_run.specs.Inner.Passed.{AreApart, ArePassed, IsChosen, IsLeftAt, IsPassed, IsRange};
ghost use Rattle.sym_run.specs.Inner.Reading.{IsListedAs};
ghost use Rattle.tree_laws.specs.Classes.{Grows};

use crate::choices::chosen;
use crate::eval::of_width;
use crate::known::{Element, Known, Put};
use class_values::{Fact, Offset, are_same, binary, class_of, number_of, offset_of};
use rec_bits::{NoMemory, Op2};
use sym_expr::Node;
use tree_laws::Classes;

// ---- addresses that differ

// Numbers from the first one on, before the end.
#[derive(Clone, Copy)]
struct Range {
    first: u64,
    end: u64,
}

// The listed address of which the class is.
fn listed(table: &Classes, elements: &[Element], class: u64) -> Option<Element>
    ensures { IfSome result (IsListedAs table.now elements.now class) }
{
    for element in elements {
        if are_same(table, class, element.class) {
            return Some(*element);
        }
    }
    None
}

// The numbers among which a class has its value: one, or the addresses of an array.
fn range_of(table: &Classes, facts: &[Fact], elements: &[Element], class: u64) -> Option<Range>
    ensures { IfSome result (λ r. IsRange table.now facts.now elements.now class r.first r.end) }
{
    match listed(table, elements, class) {
        Some(element) => Some(Range {
            first: element.first,
            end: element.end,
        }),
        None => single(table, facts, elements, class),
    }
}

// The number that a class has, as a range.
fn single(table: &Classes, facts: &[Fact], elements: &[Element], class: u64) -> Option<Range>
    ensures { IfSome result (λ r. IsRange table.now facts.now elements.now class r.first r.end) }
{
    let number = number_of(table, facts, class)?;
    if number == u64::MAX {
        return None;
    }
    Some(Range {
        first: number,
        end: number + 1,
    })
}

// Whether the values of two classes are among different numbers.
fn are_in_others(table: &Classes, facts: &[Fact], elements: &[Element], a: u64, b: u64) -> bool
    ensures { result ≡ true → AreApart table.now facts.now elements.now a b }
{
    let Some(x) = range_of(table, facts, elements, a) else {
        return false;
    };
    let Some(y) = range_of(table, facts, elements, b) else {
        return false;
    };
    are_disjoint(x, y)
}

fn are_disjoint(x: Range, y: Range) -> bool
    ensures { result ≡ true → (x.end ≤ y.first) ⊎ (y.end ≤ x.first) }
{
    x.end <= y.first || y.end <= x.first
}

// Whether the values of two classes are sums of one value with different numbers.
fn are_at_others(table: &Classes, facts: &[Fact], elements: &[Element], a: u64, b: u64) -> bool
    ensures { result ≡ true → AreApart table.now facts.now elements.now a b }
{
    let Some(x) = offset_of(table, facts, a) else {
        return false;
    };
    let Some(y) = offset_of(table, facts, b) else {
        return false;
    };
    if !are_of_others(x, y) {
        return false;
    }
    are_same(table, x.base, y.base)
}

// Whether two numbers of one width differ.
fn are_of_others(x: Offset, y: Offset) -> bool
    ensures width { result ≡ true → x.width ≡ y.width }
    ensures number { result ≡ true → x.number ≢ y.number }
{
    x.width == y.width && x.number != y.number
}

// Whether the values of two classes are known to differ.
fn are_apart(table: &Classes, facts: &[Fact], elements: &[Element], a: u64, b: u64) -> bool
    ensures { result ≡ true → AreApart table.now facts.now elements.now a b }
{
    if are_in_others(table, facts, elements, a, b) {
        return true;
    }
    are_at_others(table, facts, elements, a, b)
}

// ---- cells behind writes

// A cell that is read: the class of its address, and its width.
#[derive(Clone, Copy)]
struct Spot {
    at: u64,
    width: u8,
}

// The class of what a cell holds behind a write that may have gone to it.
fn undecided(
    table: &mut Classes,
    facts: &[Fact],
    elements: &[Element],
    put: Put,
    spot: Spot,
    old: u64,
) -> Result<Option<u64>, NoMemory>
    ensures grows { Grows table.old table.new }
    ensures is { IfOk result (λ found. IfSome found (IsPassed table.old table.new facts.now elements.now put spot.at spot.width old)) }
{
    let Some(value) = of_width(table, put.value, spot.width) else {
        return Ok(None);
    };
    let Some(bit) = binary(table, facts, Op2::Eq, put.address, spot.at)? else {
        return Ok(None);
    };
    chosen(table, facts, bit, spot.width, value, old)
}

// The class of what a cell holds behind a write, by that of what it held before.
fn passed(
    table: &mut Classes,
    facts: &[Fact],
    elements: &[Element],
    put: Put,
    spot: Spot,
    old: u64,
) -> Result<Option<u64>, NoMemory>
    ensures grows { Grows table.old table.new }
    ensures is { IfOk result (λ found. IfSome found (IsPassed table.old table.new facts.now elements.now put spot.at spot.width old)) }
{
    if are_same(table, spot.at, put.address) {
        return Ok(of_width(table, put.value, spot.width));
    }
    if are_apart(table, facts, elements, spot.at, put.address) {
        return Ok(Some(old));
    }
    undecided(table, facts, elements, put, spot, old)
}

// The same behind some writes.
fn all_passed(
    table: &mut Classes,
    facts: &[Fact],
    elements: &[Element],
    puts: &[Put],
    spot: Spot,
    old: u64,
) -> Result<Option<u64>, NoMemory>
    ensures grows { Grows table.old table.new }
    ensures is { IfOk result (λ found. IfSome found (ArePassed table.old table.new facts.now elements.now puts.now spot.at spot.width old)) }
{
    let Some((put, rest)) = puts.split_first() else {
        return Ok(Some(old));
    };
    let Some(next) = passed(table, facts, elements, *put, spot, old)? else {
        return Ok(None);
    };
    all_passed(table, facts, elements, rest, spot, next)
}

// The class of what all known writes leave in an array's cell, whose address has the class.
pub(crate) fn element(
    table: &mut Classes,
    facts: &[Fact],
    known: &Known,
    at: u64,
    width: u8,
) -> Result<Option<u64>, NoMemory>
    ensures grows { Grows table.old table.new }
    ensures is { IfOk result (λ found. IfSome found (IsLeftAt table.old table.new facts.now known.now at width)) }
{
    let Some(old) = class_of(table, Node::Read(at, width))? else {
        return Ok(None);
    };
    all_passed(
        table,
        facts,
        known.inside.as_slice(),
        known.puts.as_slice(),
        Spot { at, width },
        old,
    )
}
