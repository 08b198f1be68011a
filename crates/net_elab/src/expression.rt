//! The nets of expressions.

ghost use Rattle.std.specs.Prelude.{◌≡◌, ◌+◌, ◌<◌, ◌^◌, ◌++◌, IfOk, IsSome, OnOk, Some, length, map, option_map, option_copied, ℕ};
ghost use Rattle.net_model.specs.declared.hardware.Gate.TheVariants.{Slice};
ghost use Rattle.net_model.specs.Numbering.{count, count_if, count_rest, count_rows, net_named, scope_at};
ghost use Rattle.net_model.specs.TextWidths.{named_width, sliced, wide};
ghost use Rattle.net_model.specs.Written.{case, named, other_of, model_of_net_expr, case_rest_of, model_of_case_row, case_rows_of};
ghost use Rattle.net_elab.specs.Inner.Emissions.{AllWide, Emitted, EmittedIf, EmittedRest, EmittedRows, IsWideIf, IsWideRest, Pushed};
ghost use Rattle.net_elab.specs.Inner.Sites.{model_of_site};

use crate::site::{NetRef, Site};
use net_model::{Gate, Ident, Net, NetExpr};
use rec_bits::{Items, NoMemory, result_width};
use std::alloc::Global;

/// One more net, of the item whose name has the offset `at`.
pub fn push_net(nets: &mut Items<Net>, at: u64, width: u8, gate: Gate) -> Result<NetRef, NoMemory>
    requires { length nets.old < 2 ^ 32 }
    ensures { IfOk result (Pushed (Some width) at gate nets.old nets.new) }
{
    let net = nets.len() as u32;
    nets.push(Net {
        width,
        name_at: at,
        gate,
    })?;
    Ok(NetRef { net, width })
}

/// The bits of a net from `hi` down to `lo`.
fn push_slice(
    nets: &mut Items<Net>,
    at: u64,
    of: NetRef,
    hi: u64,
    lo: u64,
) -> Result<NetRef, NoMemory>
    requires fits { IsSome (sliced hi lo (Some of.width)) }
    requires room { length nets.old < 2 ^ 32 }
    ensures { IfOk result (Pushed (sliced hi lo (Some of.width)) at (Slice of.net hi lo) nets.old nets.new) }
{
    let gate = Gate::Slice {
        of: of.net,
        hi: hi as u8,
        lo: lo as u8,
    };
    push_net(nets, at, (hi + 1 - lo) as u8, gate)
}

/// What a name stands for, or bits of it.
fn emit_name(
    site: &Site,
    nets: &mut Items<Net>,
    at: u64,
    name: &Ident,
    field: &Option<Ident>,
    bits: &Option<(u64, u64)>,
) -> Result<NetRef, NoMemory>
    requires widths { IsSome (wide (scope_at (model_of_site site.now)) (named name.now field.now bits.now)) }
    requires room { length nets.old + count (named name.now field.now bits.now) < 2 ^ 32 }
    ensures { IfOk result (Emitted (model_of_site site.now) at (named name.now field.now bits.now) nets.old nets.new) }
{
    let Some(spot) = site.net(&name.name, field) else {
        unreachable!()
    };
    match bits {
        None => Ok(spot),
        Some((hi, lo)) => push_slice(nets, at, spot, *hi, *lo),
    }
}

/// The nets of an expression, inner ones first.
#[cycle(emit)]
pub fn emit(
    alloc: Global,
    site: &Site,
    nets: &mut Items<Net>,
    at: u64,
    e: &NetExpr,
) -> Result<NetRef, NoMemory>
    requires widths { IsSome (wide (scope_at (model_of_site site.now)) (model_of_net_expr e.now)) }
    requires room { length nets.old + count (model_of_net_expr e.now) < 2 ^ 32 }
    ensures { IfOk result (Emitted (model_of_site site.now) at (model_of_net_expr e.now) nets.old nets.new) }
{
    match e {
        NetExpr::Named { name, field, bits } => emit_name(site, nets, at, name, field, bits),
        NetExpr::Const { value, width } => push_net(nets, at, *width as u8, Gate::Const(*value)),
        NetExpr::Un(op, a) => {
            let a = emit(alloc, site, nets, at, a)?;
            push_net(nets, at, a.width, Gate::Un(*op, a.net))
        }
        NetExpr::Bin(op, a, b) => {
            let a = emit(alloc, site, nets, at, a)?;
            let b = emit(alloc, site, nets, at, b)?;
            let gate = Gate::Bin(*op, a.net, b.net);
            push_net(nets, at, result_width(*op, a.width), gate)
        }
        NetExpr::Cat(a, b) => {
            let a = emit(alloc, site, nets, at, a)?;
            let b = emit(alloc, site, nets, at, b)?;
            push_net(nets, at, a.width + b.width, Gate::Cat(a.net, b.net))
        }
        NetExpr::Slice(a, hi, lo) => {
            let a = emit(alloc, site, nets, at, a)?;
            push_slice(nets, at, a, *hi, *lo)
        }
        NetExpr::Zext(a, width) => {
            let a = emit(alloc, site, nets, at, a)?;
            push_net(nets, at, *width as u8, Gate::Zext(a.net))
        }
        NetExpr::Sext(a, width) => {
            let a = emit(alloc, site, nets, at, a)?;
            push_net(nets, at, *width as u8, Gate::Sext(a.net))
        }
        NetExpr::Read(name, a) => {
            let Some(cells) = site.cells(&name.name) else {
                unreachable!()
            };
            let a = emit(alloc, site, nets, at, a)?;
            let gate = Gate::Read {
                memory: cells.memory,
                addr: a.net,
            };
            push_net(nets, at, cells.width, gate)
        }
        NetExpr::Case { sel, rows, rest } => {
            let written = Case { sel, rows, rest };
            emit_case(alloc, site, nets, at, &written)
        }
    }
}

/// A case as it is written.
#[derive(Clone, Copy)]
struct Case<'a> {
    sel: &'a NetExpr,
    rows: &'a [(Vec<u64>, NetExpr)],
    rest: &'a Option<Box<NetExpr>>,
}

/// The nets of a case.
#[cycle(emit)]
fn emit_case(
    alloc: Global,
    site: &Site,
    nets: &mut Items<Net>,
    at: u64,
    written: &Case,
) -> Result<NetRef, NoMemory>
    requires widths { IsSome (wide (scope_at (model_of_site site.now)) (case (model_of_net_expr written.now.sel.now)
        (case_rows_of (map model_of_case_row written.now.rows.now)) (case_rest_of (other_of written.now.rest.now)))) }
    requires room { length nets.old
        + count (case (model_of_net_expr written.now.sel.now)
        (case_rows_of (map model_of_case_row written.now.rows.now)) (case_rest_of (other_of written.now.rest.now)))
        < 2 ^ 32 }
    ensures { IfOk result (Emitted (model_of_site site.now) at
        (case (model_of_net_expr written.now.sel.now)
        (case_rows_of (map model_of_case_row written.now.rows.now)) (case_rest_of (other_of written.now.rest.now)))
        nets.old nets.new) }
{
    let selector = emit(alloc, site, nets, at, written.sel)?;
    let pairs = emit_rows(alloc, site, nets, at, written.rows)?;
    let other = emit_rest(alloc, site, nets, at, written.rest)?;
    match other {
        None => {
            let gate = Gate::Case {
                sel: selector.net,
                rows: pairs.rows,
                rest: None,
            };
            push_net(nets, at, pairs.width, gate)
        }
        Some(other) => {
            let gate = Gate::Case {
                sel: selector.net,
                rows: pairs.rows,
                rest: Some(other.net),
            };
            push_net(nets, at, other.width, gate)
        }
    }
}

/// The rows of a case by the nets of their values, and the width of the last one.
#[derive(Drop)]
pub struct Pairs {
    pub rows: Items<(u64, u32)>,
    pub width: u8,
}

/// The nets of the rows of a case.
#[cycle(emit)]
fn emit_rows(
    alloc: Global,
    site: &Site,
    nets: &mut Items<Net>,
    at: u64,
    rows: &[(Vec<u64>, NetExpr)],
) -> Result<Pairs, NoMemory>
    requires widths { AllWide (scope_at (model_of_site site.now)) (case_rows_of (map model_of_case_row rows.now)) }
    requires room { length nets.old + count_rows (case_rows_of (map model_of_case_row rows.now)) < 2 ^ 32 }
    ensures { IfOk result (EmittedRows (model_of_site site.now) at (case_rows_of (map model_of_case_row rows.now)) nets.old nets.new) }
{
    let mut pairs = Pairs {
        rows: Items::new(alloc),
        width: 0,
    };
    for row in rows {
        let value = emit(alloc, site, nets, at, &row.1)?;
        push_pairs(&mut pairs.rows, row.0.as_slice(), value.net)?;
        pairs.width = value.width;
    }
    Ok(pairs)
}

/// One pair for each number.
fn push_pairs(pairs: &mut Items<(u64, u32)>, numbers: &[u64], net: u32) -> Result<(), NoMemory>
    ensures { OnOk result (pairs.new ≡ pairs.old ++ map (λ (n : ℕ). (n, net)) numbers.now) }
{
    for number in numbers {
        pairs.push((*number, net))?;
    }
    Ok(())
}

/// The nets of the rest of a case.
#[cycle(emit)]
fn emit_rest(
    alloc: Global,
    site: &Site,
    nets: &mut Items<Net>,
    at: u64,
    other: &Option<Box<NetExpr>>,
) -> Result<Option<NetRef>, NoMemory>
    requires widths { IsWideRest (scope_at (model_of_site site.now)) (case_rest_of (other_of other.now)) }
    requires room { length nets.old + count_rest (case_rest_of (other_of other.now)) < 2 ^ 32 }
    ensures { IfOk result (EmittedRest (model_of_site site.now) at (case_rest_of (other_of other.now)) nets.old nets.new) }
{
    match other {
        None => Ok(None),
        Some(e) => Ok(Some(emit(alloc, site, nets, at, e)?)),
    }
}

/// The nets of an expression, where there is one.
pub fn emit_if(
    alloc: Global,
    site: &Site,
    nets: &mut Items<Net>,
    at: u64,
    e: Option<&NetExpr>,
) -> Result<Option<u32>, NoMemory>
    requires widths { IsWideIf (scope_at (model_of_site site.now)) (option_map model_of_net_expr (option_copied e)) }
    requires room { length nets.old + count_if (option_map model_of_net_expr (option_copied e)) < 2 ^ 32 }
    ensures { IfOk result (EmittedIf (model_of_site site.now) at
        (option_map model_of_net_expr (option_copied e.entry)) nets.old nets.new) }
{
    match e {
        None => Ok(None),
        Some(e) => Ok(Some(emit(alloc, site, nets, at, e)?.net)),
    }
}
