//! The jobs of a self-test, with the cells of their operands and of their values.

ghost use Rattle.std.specs.Prelude.{◌≡◌, ◌+◌, ◌^◌, ◌<◌, ◌≤◌, [], ◌∷◌, length, IfErr, IfOk};
ghost use Rattle.rec_bits.specs.Counts.{capped};
ghost use Rattle.binding.specs.Refusals.{IsBindFault};
ghost use Rattle.form_model.specs.Forms.{cell, models_of_forms};
ghost use Rattle.net_model.specs.Nets.{memory_size};
ghost use Rattle.src_trees.specs.Jobs.{model_of_job, models_of_jobs};
ghost use Rattle.sym_expr.specs.Pools.{expr_of_id};
ghost use Rattle.transfer_set.specs.Machines.{machine_netlist, machine_patterns};
ghost use Rattle.self_test.specs.Cells.{all_operands as all_operands_of, test_need, test_temps, test_jobs, jobs_from};
ghost use Rattle.self_test.specs.Inner.Values.{AreBelow, AreKnown, IsKnown, greatest_inner, exprs_at};
ghost use Rattle.self_test.specs.Told.{IsTold};
ghost use Rattle.self_test.specs.Trees.{operands as operands_of, tree_from, widths_of};

use crate::parts::{inner, operands};
use crate::select::values;
use crate::trees::tree;
use binding::BindFault;
use form_model::{Aim, Blocks, Forms, Job};
use net_model::Checked;
use rec_bits::{Items, NoMemory};
use std::alloc::Global;
use sym_expr::{ExprId, Pool};
use transfer_set::Machine;

/// The jobs of a self-test.
#[derive(Drop)]
pub struct TestJobs {
    /// How many temporary cells stand before the cells of the jobs.
    pub temps: u32,
    /// The jobs in their order, each with one tree; no flow.
    pub blocks: Blocks,
}

// How many cells the operands of all values take.
fn all_operands(pool: &Pool, values: &[ExprId]) -> u64
    requires { AreBelow (length pool.now) values.now }
    ensures { result ≡ capped (all_operands_of (exprs_at pool.now values.now)) }
{
    let mut count = 0u64;
    for value in values {
        count = count.saturating_add(operands(pool, *value));
    }
    count
}

// How many temporary cells the trees of all values may need.
fn all_temps(pool: &Pool, values: &[ExprId], width: u8) -> u64
    requires { AreBelow (length pool.now) values.now }
    ensures { result ≡ capped (greatest_inner width (exprs_at pool.now values.now)) }
{
    let mut most = 0u64;
    for value in values {
        let count = inner(pool, *value, width);
        if count > most {
            most = count;
        }
    }
    most
}

// The job of a value whose operands stand from one address on, and whose cell is another.
fn job(
    alloc: Global,
    checked: &Checked,
    pool: &Pool,
    value: ExprId,
    at: u32,
    out: u32,
) -> Result<Job, NoMemory>
    requires known { IsKnown checked.now.netlist pool.now value }
    requires room { at + operands_of (expr_of_id pool.now value) < 2 ^ 32 }
    ensures { IfOk result (λ job. model_of_job job
        ≡ record { destination = cell out; trees = tree_from (widths_of checked.now.netlist) at (expr_of_id pool.now value) ∷ [] }) }
{
    let tree = tree(alloc, checked, pool, at, value)?;
    let trees = vec![in alloc; tree]?;
    Ok(Job {
        aim: Aim::Cell(out),
        trees,
    })
}

// The jobs of values whose operands stand from one address on, and whose cells from another.
fn jobs(
    alloc: Global,
    checked: &Checked,
    pool: &Pool,
    values: &[ExprId],
    first: u32,
    outputs: u32,
) -> Result<Vec<Job>, NoMemory>
    requires known { AreKnown checked.now.netlist pool.now values.now }
    requires operands { first + all_operands_of (exprs_at pool.now values.now) < 2 ^ 32 }
    requires outputs { outputs + length values.now < 2 ^ 32 }
    ensures { IfOk result (λ jobs. models_of_jobs jobs.items
        ≡ jobs_from (widths_of checked.now.netlist) first outputs (exprs_at pool.now values.now)) }
{
    let mut jobs = Vec::new(alloc);
    let mut at = first;
    let mut out = outputs;
    for value in values {
        let job = job(alloc, checked, pool, *value, at, out)?;
        jobs.push(job)?;
        at += operands(pool, *value) as u32;
        out += 1;
    }
    Ok(jobs)
}

/// The jobs of a netlist's self-test: of each candidate among the patterns that give a form, in
/// their order, its value over cells of its own, to a cell of its own. The temporary cells stand
/// first, then the operands of all jobs, then their values; `DataFull` comes exactly where these are
/// more than the memory has. Its `need` stands at 2^64 - 1 for more.
pub fn candidates(
    alloc: Global,
    machine: &Machine<'_>,
    forms: &Forms,
) -> Result<TestJobs, BindFault>
    requires ready { IsTold (machine_netlist machine.now) machine.now.pool.now machine.now.patterns.now }
    ensures temps { IfOk result (λ tests. tests.temps
        ≡ test_temps (machine_netlist machine.now) (models_of_forms forms.now.list.items) (machine_patterns machine.now)) }
    ensures flow { IfOk result (λ tests. tests.blocks.flow ≡ []) }
    ensures jobs { IfOk result (λ tests. models_of_jobs tests.blocks.jobs.items
        ≡ test_jobs (machine_netlist machine.now) (models_of_forms forms.now.list.items) (machine_patterns machine.now)) }
    ensures enough { IfOk result (λ _. test_need (machine_netlist machine.now) (models_of_forms forms.now.list.items)
        (machine_patterns machine.now) ≤ memory_size (machine_netlist machine.now).storages) }
    ensures refused { IfErr result (IsBindFault
        (capped (test_need (machine_netlist machine.now) (models_of_forms forms.now.list.items) (machine_patterns machine.now)))
        (memory_size (machine_netlist machine.now).storages)) }
{
    let Machine {
        checked,
        pool,
        patterns,
    } = *machine;
    let values = values(alloc, checked, pool, patterns, &forms.list)?;
    let values = values.as_slice();
    let temps = all_temps(pool, values, checked.memory_width());
    let operands = all_operands(pool, values);
    let first_output = temps.saturating_add(operands);
    let need = first_output.saturating_add(values.len() as u64);
    let have = u64::from(checked.memory_size());
    if need > have {
        return Err(BindFault::DataFull { need, have });
    }
    let temps = temps as u32;
    let jobs = jobs(alloc, checked, pool, values, temps, first_output as u32)?;
    let flow = Items::new(alloc);
    Ok(TestJobs {
        temps,
        blocks: Blocks { flow, jobs },
    })
}
