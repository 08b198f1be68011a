//! N4 in expressions: cases with a number twice, or without a rest though a number is missing.

ghost use Rattle.std.specs.Prelude.{◌≡◌, ◌&&◌, Bool, IfOk, [], map};
ghost use Rattle.net_model.specs.DriverRules.{are_all, covers, covers_rest, covers_rows, is_covered, case_numbers};
ghost use Rattle.net_model.specs.Written.{other_of, model_of_net_expr, case_rest_of, model_of_case_row, case_rows_of};
ghost use Rattle.net_rules.specs.Inner.Cases.{is_all};
ghost use Rattle.net_rules.specs.Inner.Scopes.{model_of_scope};

use crate::numbers::{Numbers, add_all};
use crate::text::Scope;
use crate::widths::wide;
use net_model::NetExpr;
use rec_bits::NoMemory;
use std::alloc::Global;

// Whether there are as many numbers as a selector of a width has values.
fn is_all(selector: Option<u64>, count: usize) -> bool
    ensures { result ≡ is_all selector count }
{
    match selector {
        Some(width) if width < 64 => count as u64 == 1 << width,
        _ => false,
    }
}

fn is_covered(
    alloc: Global,
    selector: Option<u64>,
    rows: &[(Vec<u64>, NetExpr)],
    other: &Option<Box<NetExpr>>,
) -> Result<bool, NoMemory>
    ensures { IfOk result (λ covered.
        covered ≡ is_covered selector (case_rows_of (map model_of_case_row rows.now)) (case_rest_of (other_of other.now))) }
{
    let mut seen = Numbers::new(alloc);
    covers_values(&mut seen, selector, rows, other)
}

// The same, where no number was seen yet.
fn covers_values(
    seen: &mut Numbers,
    selector: Option<u64>,
    rows: &[(Vec<u64>, NetExpr)],
    other: &Option<Box<NetExpr>>,
) -> Result<bool, NoMemory>
    requires { seen.old ≡ [] }
    ensures { IfOk result (λ covered.
        covered ≡ is_covered selector (case_rows_of (map model_of_case_row rows.now)) (case_rest_of (other_of other.now))) }
{
    for row in rows {
        if !add_all(seen, row.0.as_slice())? {
            return Ok(false);
        }
    }
    Ok(other.is_some() || is_all(selector, seen.len()))
}

/// Whether both hold, where both could be told.
pub(crate) fn both(
    first: Result<bool, NoMemory>,
    second: Result<bool, NoMemory>,
) -> Result<bool, NoMemory>
    ensures { (a b : Bool) → IfOk first (λ x. x ≡ a) → IfOk second (λ x. x ≡ b) → IfOk result (λ x. x ≡ (a && b)) }
{
    Ok(first? & second?)
}

/// Whether each case in an expression has no number twice, and a rest or every number.
#[cycle(covers)]
pub(crate) fn covers(alloc: Global, place: &Scope, e: &NetExpr) -> Result<bool, NoMemory>
    ensures { IfOk result (λ covered. covered ≡ covers (model_of_scope place.now) (model_of_net_expr e.now)) }
{
    match e {
        NetExpr::Named { .. } | NetExpr::Const { .. } => Ok(true),
        NetExpr::Un(_, a)
        | NetExpr::Slice(a, _, _)
        | NetExpr::Zext(a, _)
        | NetExpr::Sext(a, _)
        | NetExpr::Read(_, a) => covers(alloc, place, a),
        NetExpr::Bin(_, a, b) | NetExpr::Cat(a, b) => {
            both(covers(alloc, place, a), covers(alloc, place, b))
        }
        NetExpr::Case { sel, rows, rest } => {
            let values = both(covers(alloc, place, sel), covers_rows(alloc, place, rows));
            let parts = both(values, covers_rest(alloc, place, rest));
            both(parts, is_covered(alloc, wide(place, sel), rows, rest))
        }
    }
}

#[cycle(covers)]
fn covers_rows(alloc: Global, place: &Scope, rows: &[(Vec<u64>, NetExpr)]) -> Result<bool, NoMemory>
    ensures { IfOk result (λ covered.
        covered ≡ covers_rows (model_of_scope place.now) (case_rows_of (map model_of_case_row rows.now))) }
{
    for row in rows {
        if !covers(alloc, place, &row.1)? {
            return Ok(false);
        }
    }
    Ok(true)
}

#[cycle(covers)]
fn covers_rest(alloc: Global, place: &Scope, other: &Option<Box<NetExpr>>) -> Result<bool, NoMemory>
    ensures { IfOk result (λ covered.
        covered ≡ covers_rest (model_of_scope place.now) (case_rest_of (other_of other.now))) }
{
    match other {
        Some(a) => covers(alloc, place, a),
        None => Ok(true),
    }
}
