// The symbolic value of a gate, from those of the nets that it names.

ghost use Rattle.std.specs.Prelude.{◌≡◌, ◌+◌, ◌<◌, ◌≤◌, length, IfOk, IfSome, slice_index};
ghost use Rattle.std.specs.List.{AllByRecursion};
ghost use Rattle.net_model.specs.Control.{GateControlled};
ghost use Rattle.net_model.specs.Nets.{gate_nets};
ghost use Rattle.net_model.specs.Symbolic.{gate_expr, is_static, sliced};
ghost use Rattle.net_model.specs.Exprs.{select, expr_width};
ghost use Rattle.net_model.specs.Widths.{GateFits};
ghost use Rattle.sym_expr.specs.Pools.{Grows, expr_of_id};
ghost use Rattle.word_moves.specs.Inner.Choices.{expr_there};
ghost use Rattle.word_moves.specs.Inner.Gates.{IsKnown, IsWide, net_exprs, slice_parts};
ghost use Rattle.net_model.specs.Flags.{flag_at};

use crate::choices::{driver_of, target_of};
use cycle_sim::value_at;
use net_model::{Gate, Net, Netlist, Space, is_set};
use rec_bits::NoMemory;
use std::alloc::Global;
use sym_expr::{ExprId, Node, Pool};

// A netlist under an instruction word, where all storages hold 0.
#[derive(Clone, Copy)]
pub(crate) struct AtWord<'a> {
    pub word: u64,
    // The value of each net.
    pub values: &'a [u64],
    // For each net, whether it depends on the instruction word and constants alone.
    pub statics: &'a [bool],
}

// The symbolic value of a net's gate.
pub(crate) fn gate_id(
    alloc: Global,
    netlist: &Netlist,
    pool: &mut Pool,
    ids: &[ExprId],
    at: &AtWord<'_>,
    net: &Net,
) -> Result<ExprId, NoMemory>
    requires low { 1 ≤ net.now.width }
    requires high { net.now.width ≤ 64 }
    requires gate { GateFits netlist.now net.now.width net.now.gate }
    requires control { GateControlled netlist.now net.now.gate }
    requires statics { flag_at at.now.statics.now ≡ is_static netlist.now }
    requires known { AllByRecursion (IsKnown netlist.now pool.old ids.now) (gate_nets net.now.gate) }
    ensures grows { Grows pool.old pool.new }
    ensures within { IfOk result (λ id. id < length pool.new) }
    ensures expr { IfOk result (λ id. expr_of_id pool.new id
        ≡ gate_expr (net_exprs pool.old ids.now) (slice_index at.now.values.now)
        (flag_at at.now.statics.now) netlist.now net.now.width net.now.gate) }
{
    let width = net.width;
    match &net.gate {
        Gate::Word(_) => pool.intern(alloc, Node::Word(width)),
        Gate::Reg(id) => pool.intern(alloc, Node::Reg(*id, width)),
        Gate::Read { memory, addr } => {
            let addr = value_at(ids, *addr);
            match netlist.space(*memory) {
                Space::Memory => pool.intern(alloc, Node::Read(addr, width)),
                Space::File => pool.intern(alloc, Node::Cell(addr, width)),
            }
        }
        Gate::Const(value) => pool.intern(
            alloc,
            Node::Const {
                width,
                value: *value,
            },
        ),
        Gate::Wire(a) => Ok(value_at(ids, *a)),
        Gate::Un(op, a) => pool.intern(alloc, Node::Un(*op, value_at(ids, *a))),
        Gate::Bin(op, a, b) => {
            pool.intern(alloc, Node::Bin(*op, value_at(ids, *a), value_at(ids, *b)))
        }
        Gate::Slice { of, hi, lo } => slice_id(alloc, pool, value_at(ids, *of), *hi, *lo),
        Gate::Cat(a, b) => pool.intern(alloc, Node::Cat(value_at(ids, *a), value_at(ids, *b))),
        Gate::Zext(a) => pool.intern(alloc, Node::Zext(value_at(ids, *a), width)),
        Gate::Sext(a) => pool.intern(alloc, Node::Sext(value_at(ids, *a), width)),
        Gate::Case { sel, rows, rest } => {
            let rows = rows.as_slice();
            if is_set(at.statics, *sel) {
                let net = target_of(value_at(at.values, *sel), rows, *rest);
                id_there(alloc, pool, ids, width, net)
            } else {
                let one = target_of(1, rows, *rest);
                let zero = target_of(0, rows, *rest);
                let choice = Choice {
                    sel: *sel,
                    one,
                    zero,
                    width,
                };
                select_id(alloc, pool, ids, choice)
            }
        }
        Gate::Bus(drivers) => {
            let net = driver_of(at.values, drivers.as_slice());
            id_there(alloc, pool, ids, width, net)
        }
    }
}

// The symbolic value of a net, and the constant 0 where there is none.
fn id_there(
    alloc: Global,
    pool: &mut Pool,
    ids: &[ExprId],
    width: u8,
    net: Option<u32>,
) -> Result<ExprId, NoMemory>
    requires low { 1 ≤ width }
    requires high { width ≤ 64 }
    requires known { IfSome net (IsWide pool.old ids.now width) }
    ensures grows { Grows pool.old pool.new }
    ensures within { IfOk result (λ id. id < length pool.new) }
    ensures expr { IfOk result (λ id. expr_of_id pool.new id ≡ expr_there (net_exprs pool.old ids.now) width net) }
{
    match net {
        Some(net) => Ok(value_at(ids, net)),
        None => pool.intern(alloc, Node::Const { width, value: 0 }),
    }
}

// A choice by a net of one bit between two nets of a width, or the constant 0 where there is none.
#[derive(Clone, Copy)]
struct Choice {
    sel: u32,
    one: Option<u32>,
    zero: Option<u32>,
    width: u8,
}

// The symbolic value of a choice.
fn select_id(
    alloc: Global,
    pool: &mut Pool,
    ids: &[ExprId],
    choice: Choice,
) -> Result<ExprId, NoMemory>
    requires low { 1 ≤ choice.width }
    requires high { choice.width ≤ 64 }
    requires sel { IsWide pool.old ids.now 1 choice.sel }
    requires one { IfSome choice.one (IsWide pool.old ids.now choice.width) }
    requires zero { IfSome choice.zero (IsWide pool.old ids.now choice.width) }
    ensures grows { Grows pool.old pool.new }
    ensures within { IfOk result (λ id. id < length pool.new) }
    ensures expr { IfOk result (λ id. expr_of_id pool.new id ≡ select (net_exprs pool.old ids.now choice.sel)
        (expr_there (net_exprs pool.old ids.now) choice.width choice.one)
        (expr_there (net_exprs pool.old ids.now) choice.width choice.zero)) }
{
    let test = value_at(ids, choice.sel);
    let on = id_there(alloc, pool, ids, choice.width, choice.one)?;
    let off = id_there(alloc, pool, ids, choice.width, choice.zero)?;
    pool.intern(alloc, Node::Select(test, on, off))
}

// The operand and the ends of a slice.
fn parts_of_slice(node: Node) -> Option<(ExprId, u8, u8)>
    ensures { result ≡ slice_parts node }
{
    match node {
        Node::Slice(a, hi, lo) => Some((a, hi, lo)),
        _ => None,
    }
}

// A slice, where a slice of a slice is one slice and a slice of the full width is its operand.
fn slice_id(alloc: Global, pool: &mut Pool, of: ExprId, hi: u8, lo: u8) -> Result<ExprId, NoMemory>
    requires of { of < length pool.old }
    requires ends { lo ≤ hi }
    requires high { hi < expr_width (expr_of_id pool.old of) }
    ensures grows { Grows pool.old pool.new }
    ensures within { IfOk result (λ id. id < length pool.new) }
    ensures expr { IfOk result (λ id. expr_of_id pool.new id ≡ sliced (expr_of_id pool.old of) hi lo) }
{
    match parts_of_slice(pool.node(of)) {
        Some((a, _, low)) => pool.intern(alloc, Node::Slice(a, low + hi, low + lo)),
        None => {
            let width = pool.width(of);
            if lo == 0 && hi + 1 == width {
                Ok(of)
            } else {
                pool.intern(alloc, Node::Slice(of, hi, lo))
            }
        }
    }
}
