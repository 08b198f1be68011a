//! What the expressions of a pool read, each told once.

ghost use Rattle.std.specs.Prelude.{◌≡◌, ℕ, ◌<◌, false, length, slice_index, IfOk};
ghost use Rattle.std.specs.List.{slice_index_or};
ghost use Rattle.sym_expr.specs.Pools.{expr_of_id};
ghost use Rattle.form_model.specs.Effects.{register, expr_reads};
ghost use Rattle.form_model.specs.Live.{regs_of};
ghost use Rattle.live_sets.specs.Reading.{AreReads, AreSeen, model_of_location};

use crate::locations::{Location, cell_at, may_see};
use crate::regs::{none, one, union};
use form_model::RegSet;
use net_model::Space;
use rec_bits::{Items, NoMemory};
use std::alloc::Global;
use sym_expr::{ExprId, Node, Pool};

// The set at an index, and none past the end.
pub(crate) fn set_at(sets: &[RegSet], id: ExprId) -> RegSet
    ensures { result ≡ slice_index sets.now id }
{
    match sets.get(id as usize) {
        Some(set) => *set,
        None => 0,
    }
}

// The registers that an expression reads, from those of its parts.
fn node_reads(pool: &Pool, sets: &[RegSet], id: ExprId) -> RegSet
    requires within { id < length pool.now }
    requires long { length sets.now ≡ id }
    requires reads { AreReads pool.now sets.now }
    ensures { (setting r : ℕ) → r < 16 → regs_of result r ≡ expr_reads setting (expr_of_id pool.now id) (register r) }
{
    match pool.node(id) {
        Node::Word(_) | Node::Const { .. } => none(),
        Node::Reg(register, _) => one(register),
        Node::Read(a, _)
        | Node::Cell(a, _)
        | Node::Un(_, a)
        | Node::Slice(a, ..)
        | Node::Zext(a, _)
        | Node::Sext(a, _) => set_at(sets, a),
        Node::Bin(_, a, b) | Node::Cat(a, b) => union(set_at(sets, a), set_at(sets, b)),
        Node::Select(c, a, b) => { union(set_at(sets, c), union(set_at(sets, a), set_at(sets, b))) }
    }
}

/// For each expression of a pool the registers below 16 that it reads.
pub fn reads_table(alloc: Global, pool: &Pool) -> Result<Items<RegSet>, NoMemory>
    ensures long { IfOk result (λ sets. length sets ≡ length pool.now) }
    ensures reads { IfOk result (λ sets. AreReads pool.now sets) }
{
    let mut sets = Items::new(alloc);
    for id in 0..pool.len() {
        let set = node_reads(pool, sets.as_slice(), id);
        sets.push(set)?;
    }
    Ok(sets)
}

/// What a table tells of an expression, and false of one past its end.
pub fn flag_at(flags: &[bool], id: ExprId) -> bool
    ensures { result ≡ slice_index_or flags.now id false }
{
    match flags.get(id as usize) {
        Some(flag) => *flag,
        None => false,
    }
}

// Whether an expression may see a write, from whether its parts may.
fn node_sees(pool: &Pool, setting: u64, location: Location, flags: &[bool], id: ExprId) -> bool
    requires within { id < length pool.now }
    requires long { length flags.now ≡ id }
    requires seen { AreSeen pool.now setting (model_of_location location) flags.now }
    ensures { result ≡ expr_reads setting (expr_of_id pool.now id) (model_of_location location) }
{
    match pool.node(id) {
        Node::Word(_) | Node::Const { .. } => false,
        Node::Reg(register, _) => location == Location::Register(register),
        Node::Read(a, _) => {
            may_see(cell_at(pool, Space::Memory, a, setting), location) || flag_at(flags, a)
        }
        Node::Cell(a, _) => {
            may_see(cell_at(pool, Space::File, a, setting), location) || flag_at(flags, a)
        }
        Node::Un(_, a) | Node::Slice(a, ..) | Node::Zext(a, _) | Node::Sext(a, _) => {
            flag_at(flags, a)
        }
        Node::Bin(_, a, b) | Node::Cat(a, b) => flag_at(flags, a) || flag_at(flags, b),
        Node::Select(c, a, b) => { flag_at(flags, c) || (flag_at(flags, a) || flag_at(flags, b)) }
    }
}

// For each expression of a pool whether it may see a write.
pub(crate) fn seen_table(
    alloc: Global,
    pool: &Pool,
    setting: u64,
    location: Location,
) -> Result<Items<bool>, NoMemory>
    ensures long { IfOk result (λ flags. length flags ≡ length pool.now) }
    ensures seen { IfOk result (λ flags. AreSeen pool.now setting (model_of_location location) flags) }
{
    let mut flags = Items::new(alloc);
    for id in 0..pool.len() {
        let flag = node_sees(pool, setting, location, flags.as_slice(), id);
        flags.push(flag)?;
    }
    Ok(flags)
}
