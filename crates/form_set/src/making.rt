//! Forms, made of patterns.

ghost use Rattle.std.specs.Prelude.{◌≡◌, ◌<◌, ◌≤◌, ◌++◌, ◌==◌, true, None, length, IfOk, OnOk};
ghost use Rattle.form_model.specs.Forms.{model_of_target, model_of_goal, model_of_form, models_of_forms};
ghost use Rattle.form_model.specs.Shapes.{is_shape as is_shape_of};
ghost use Rattle.form_set.specs.Inner.Copies.{AreBranchIds, id_target, ids_branch};
ghost use Rattle.form_set.specs.Listing.{branch_form_model, branch_form_models, goal_at as goal_at_of, jump_form_model, plain_form_model, plain_form_models};
ghost use Rattle.form_set.specs.Inner.PatternIds.{pattern_in};
ghost use Rattle.net_model.specs.Exprs.{expr_width};
ghost use Rattle.sym_expr.specs.Pools.{expr_of_id};
ghost use Rattle.transfer_set.specs.Entries.{IsAddrKnown};
ghost use Rattle.transfer_set.specs.Machines.{machine_netlist};
ghost use Rattle.net_model.specs.Fields.{transfer_fields};

use crate::branches::{BranchIds, TargetId};
use crate::copies::{count_at, expr_at, swapped_at};
use crate::pattern_ids::Known;
use crate::shapes::shape_reach;
use crate::tied::tied_of;
use crate::words::{all_registers, is_file};
use form_model::{Form, Goal, Target};
use net_model::Checked;
use rec_bits::NoMemory;
use std::alloc::Global;
use sym_expr::Pool;
use transfer_set::Machine;

// What a transfer of a storage goes to.
fn goal_at(checked: &Checked, storage: u32) -> Goal
    ensures { model_of_goal result ≡ goal_at_of checked.now.netlist storage }
{
    if storage == checked.memory() {
        Goal::Memory
    } else if is_file(checked, storage) {
        Goal::File
    } else {
        Goal::Reg(storage)
    }
}

// The form of a plain pattern with the swaps of a choice.
fn plain_form(
    alloc: Global,
    machine: &Machine<'_>,
    known: Known,
    clobbers: u16,
    choice: u16,
) -> Result<Form, NoMemory>
    requires addr { IsAddrKnown (length machine.now.pool.now) known.ids.addr }
    requires value { known.ids.value < length machine.now.pool.now }
    requires fields { known.ids.fields ≡ transfer_fields (pattern_in machine.now known.ids).move }
    ensures { IfOk result (λ form. model_of_form form
        ≡ plain_form_model (machine_netlist machine.now) known.number
        (pattern_in machine.now known.ids) clobbers choice) }
{
    let sides = swapped_at(alloc, machine.pool, known.ids.addr, known.ids.value, choice)?;
    let tied = tied_of(is_file(machine.checked, known.ids.storage), &sides)?;
    Ok(Form {
        pattern: known.number,
        goal: goal_at(machine.checked, known.ids.storage),
        addr: sides.addr,
        value: sides.value,
        fields: known.ids.fields,
        clobbers,
        tied,
    })
}

// Adds the forms of a plain pattern, one for each choice of swaps.
pub(crate) fn add_plain(
    alloc: Global,
    machine: &Machine<'_>,
    list: &mut Vec<Form>,
    known: Known,
    clobbers: u16,
) -> Result<(), NoMemory>
    requires addr { IsAddrKnown (length machine.now.pool.now) known.ids.addr }
    requires value { known.ids.value < length machine.now.pool.now }
    requires fields { known.ids.fields ≡ transfer_fields (pattern_in machine.now known.ids).move }
    ensures { OnOk result (models_of_forms list.new.items ≡ models_of_forms list.old.items
        ++ plain_form_models (machine_netlist machine.now) known.number (pattern_in machine.now known.ids) clobbers) }
{
    let count = count_at(alloc, machine.pool, known.ids.addr, known.ids.value)?;
    let choices: u16 = 1 << count;
    for choice in 0..choices {
        let form = plain_form(alloc, machine, known, clobbers, choice)?;
        list.push(form)?;
    }
    Ok(())
}

// The form of a pattern PC := shape.
pub(crate) fn jump_form(
    alloc: Global,
    machine: &Machine<'_>,
    known: Known,
) -> Result<Form, NoMemory>
    requires value { known.ids.value < length machine.now.pool.now }
    requires narrow { expr_width (expr_of_id machine.now.pool.now known.ids.value) ≤ 16 }
    requires shape { is_shape_of (expr_of_id machine.now.pool.now known.ids.value) ≡ true }
    ensures { IfOk result (λ form. model_of_form form ≡ jump_form_model (machine_netlist machine.now)
        known.number (expr_of_id machine.now.pool.now known.ids.value) known.ids.fields) }
{
    let value = expr_at(alloc, machine.pool, known.ids.value)?;
    Ok(Form {
        pattern: known.number,
        goal: Goal::Jump {
            reach: shape_reach(machine.pool, known.ids.value),
        },
        addr: None,
        value,
        fields: known.ids.fields,
        clobbers: all_registers(machine.checked),
        tied: None,
    })
}

// Where a branch goes.
fn target_of(alloc: Global, pool: &Pool, target: TargetId) -> Result<Target, NoMemory>
    requires { target.expr < length pool.now }
    ensures { IfOk result (λ made. model_of_target made ≡ id_target pool.now target) }
{
    let expr = expr_at(alloc, pool, target.expr)?;
    if target.relative {
        Ok(Target::Relative(expr))
    } else {
        Ok(Target::Absolute(expr))
    }
}

// The form of a branch with the swaps of a choice in its condition.
fn branch_form(
    alloc: Global,
    machine: &Machine<'_>,
    known: Known,
    parts: BranchIds,
    choice: u16,
) -> Result<Form, NoMemory>
    requires parts { AreBranchIds (length machine.now.pool.now) parts }
    requires fields { known.ids.fields ≡ transfer_fields (pattern_in machine.now known.ids).move }
    ensures { IfOk result (λ form. model_of_form form
        ≡ branch_form_model (machine_netlist machine.now) known.number
        (pattern_in machine.now known.ids) (ids_branch machine.now.pool.now parts) choice) }
{
    let target = target_of(alloc, machine.pool, parts.target)?;
    let sides = swapped_at(alloc, machine.pool, None, parts.test, choice)?;
    Ok(Form {
        pattern: known.number,
        goal: Goal::Branch {
            when_one: parts.when_one,
            target,
        },
        addr: None,
        value: sides.value,
        fields: known.ids.fields,
        clobbers: all_registers(machine.checked),
        tied: None,
    })
}

// Adds the forms of a branch, one for each choice of swaps in its condition.
pub(crate) fn add_branches(
    alloc: Global,
    machine: &Machine<'_>,
    list: &mut Vec<Form>,
    known: Known,
    parts: BranchIds,
) -> Result<(), NoMemory>
    requires parts { AreBranchIds (length machine.now.pool.now) parts }
    requires fields { known.ids.fields ≡ transfer_fields (pattern_in machine.now known.ids).move }
    ensures { OnOk result (models_of_forms list.new.items ≡ models_of_forms list.old.items
        ++ branch_form_models (machine_netlist machine.now) known.number
        (pattern_in machine.now known.ids) (ids_branch machine.now.pool.now parts)) }
{
    let count = count_at(alloc, machine.pool, None, parts.test)?;
    let choices: u16 = 1 << count;
    for choice in 0..choices {
        let form = branch_form(alloc, machine, known, parts, choice)?;
        list.push(form)?;
    }
    Ok(())
}
