//! Which forms a pattern gives.

ghost use Rattle.std.specs.Prelude.{◌↔◌, ◌<◌, length, IfOk, IfSome, IsTrue};
ghost use Rattle.bit_bdd.specs.Diagrams.{Extends};
ghost use Rattle.form_set.specs.Inner.Adding.{IsApt, IsBranchOr, IsClass, IsPlainOr, IsReachOf};
ghost use Rattle.form_set.specs.Inner.Copies.{AreBranchIds};
ghost use Rattle.form_set.specs.Listing.{IsJump};
ghost use Rattle.form_set.specs.Inner.PatternIds.{AreIdsIn, pattern_in};
ghost use Rattle.transfer_set.specs.Machines.{IsReadyFor, machine_netlist};
ghost use Rattle.transfer_set.specs.Entries.{IsAddrKnown, ids_transfer};
ghost use Rattle.transfer_set.specs.TextMarks.{IsTransferOf};

use crate::branches::{BranchIds, branch_at};
use crate::decide::has_all;
use crate::linear::{move_linear, one};
use crate::pattern_ids::PatternIds;
use crate::shapes::{has_shapes, is_shape_in, move_shaped, move_shown, reads_shown, shape_reach};
use crate::words::{can_jump, clobbers, is_file, step_words};
use bit_bdd::Book;
use net_model::Space;
use rec_bits::NoMemory;
use std::alloc::Global;
use transfer_set::Machine;

// What a pattern is: plain with its clobbers, a jump, a branch, or nothing that gives a form.
#[derive(Clone, Copy)]
pub(crate) enum Class {
    Plain(u16),
    Jump,
    Branch(BranchIds),
    Other,
}

// Whether the expressions of a pattern are those of a plain one: linear, with field shapes, and with
// addresses of the register file that show every cell.
fn is_apt(machine: &Machine<'_>, ids: PatternIds) -> bool
    requires addr { IsAddrKnown (length machine.now.pool.now) ids.addr }
    requires value { ids.value < length machine.now.pool.now }
    requires exprs { IsTransferOf (machine_netlist machine.now) (ids_transfer machine.now.pool.now ids.addr ids.value) }
    ensures { IsTrue result ↔ IsApt (machine_netlist machine.now) (pattern_in machine.now ids) }
{
    let filed = is_file(machine.checked, ids.storage);
    let edition = machine.checked.netlist().edition;
    let size = machine.checked.size(Space::File);
    move_linear(machine.checked, machine.pool, 0, filed, ids.addr, ids.value)
        && move_shaped(machine.pool, edition, ids.addr, ids.value)
        && move_shown(machine.pool, filed, size, ids.addr, ids.value)
}

// The clobbers of a plain pattern; `None` where it isn't plain.
fn plain(
    alloc: Global,
    machine: &Machine<'_>,
    book: &mut Book,
    ids: PatternIds,
) -> Result<Option<u16>, NoMemory>
    requires ready { IsReadyFor machine.now book.old }
    requires ids { AreIdsIn machine.now book.old ids }
    ensures grows { Extends book.old book.new }
    ensures plain { IfOk result (IsPlainOr (machine_netlist machine.now) (pattern_in machine.now ids)) }
{
    if !is_apt(machine, ids) {
        return Ok(None);
    }
    let words = step_words(alloc, machine, book, ids)?;
    let ok = has_all(alloc, book, words, ids.fields)?;
    if !ok {
        return Ok(None);
    }
    let clobbers = clobbers(alloc, machine, book, ids, words)?;
    Ok(Some(clobbers))
}

// Whether a pattern gives a jump form.
fn is_jump(
    alloc: Global,
    machine: &Machine<'_>,
    book: &mut Book,
    ids: PatternIds,
) -> Result<bool, NoMemory>
    requires ready { IsReadyFor machine.now book.old }
    requires ids { AreIdsIn machine.now book.old ids }
    ensures grows { Extends book.old book.new }
    ensures jump { IfOk result (λ jump.
        IsTrue jump ↔ IsJump (machine_netlist machine.now) (pattern_in machine.now ids)) }
{
    if ids.storage != machine.checked.pc() {
        return Ok(false);
    }
    if let Some(_) = ids.addr {
        return Ok(false);
    }
    if !is_shape_in(machine.pool, machine.checked.netlist().edition, ids.value) {
        return Ok(false);
    }
    let can = can_jump(alloc, machine, book, ids)?;
    Ok(can)
}

// The parts of a pattern that gives branch forms; `None` where it gives none.
fn branch(
    alloc: Global,
    machine: &Machine<'_>,
    book: &mut Book,
    ids: PatternIds,
    reach: u64,
) -> Result<Option<BranchIds>, NoMemory>
    requires ready { IsReadyFor machine.now book.old }
    requires ids { AreIdsIn machine.now book.old ids }
    ensures grows { Extends book.old book.new }
    ensures branch { IfOk result (IsBranchOr (machine_netlist machine.now) machine.now.pool.now reach
        (pattern_in machine.now ids)) }
    ensures known { IfOk result (λ parts. IfSome parts (AreBranchIds (length machine.now.pool.now))) }
{
    if ids.storage != machine.checked.pc() {
        return Ok(None);
    }
    if let Some(_) = ids.addr {
        return Ok(None);
    }
    if !move_linear(
        machine.checked,
        machine.pool,
        one(ids.storage),
        false,
        ids.addr,
        ids.value,
    ) {
        return Ok(None);
    }
    match branch_at(machine.checked, machine.pool, reach, ids.value) {
        None => Ok(None),
        Some(parts) => {
            if !has_shapes(machine.pool, machine.checked.netlist().edition, parts.test) {
                return Ok(None);
            }
            if !reads_shown(machine.pool, machine.checked.size(Space::File), parts.test) {
                return Ok(None);
            }
            let can = can_jump(alloc, machine, book, ids)?;
            if can { Ok(Some(parts)) } else { Ok(None) }
        }
    }
}

// What a pattern is.
pub(crate) fn classify(
    alloc: Global,
    machine: &Machine<'_>,
    book: &mut Book,
    ids: PatternIds,
    reach: u64,
) -> Result<Class, NoMemory>
    requires ready { IsReadyFor machine.now book.old }
    requires ids { AreIdsIn machine.now book.old ids }
    ensures grows { Extends book.old book.new }
    ensures class { IfOk result (IsClass (machine_netlist machine.now) machine.now.pool.now reach
        (pattern_in machine.now ids)) }
{
    if let Some(clobbers) = plain(alloc, machine, book, ids)? {
        return Ok(Class::Plain(clobbers));
    }
    let jump = is_jump(alloc, machine, book, ids)?;
    if jump {
        return Ok(Class::Jump);
    }
    match branch(alloc, machine, book, ids, reach)? {
        Some(parts) => Ok(Class::Branch(parts)),
        None => Ok(Class::Other),
    }
}

// How far a jump form of a pattern reaches, and 0 where it gives none.
pub(crate) fn jump_reach(
    alloc: Global,
    machine: &Machine<'_>,
    book: &mut Book,
    ids: PatternIds,
) -> Result<u64, NoMemory>
    requires ready { IsReadyFor machine.now book.old }
    requires ids { AreIdsIn machine.now book.old ids }
    ensures grows { Extends book.old book.new }
    ensures reach { IfOk result (IsReachOf (machine_netlist machine.now) (pattern_in machine.now ids)) }
{
    let jump = is_jump(alloc, machine, book, ids)?;
    if !jump {
        return Ok(0);
    }
    Ok(shape_reach(machine.pool, ids.value))
}
