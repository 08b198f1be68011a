//! The covers of a program's jobs, and their costs.

ghost use Rattle.std.specs.Prelude.{◌≡◌, ◌+◌, ◌<◌, ◌^◌, IfOk, IfErr, IfSome, length, map, option_map};
ghost use Rattle.std.specs.List.{AllByRecursion};
ghost use Rattle.code_model.specs.ImageFits.{CostFits};
ghost use Rattle.cover.specs.Best.{model_of_job_cover};
ghost use Rattle.form_model.specs.Covers.{stock_with, job_cost};
ghost use Rattle.src_trees.specs.Jobs.{model_of_job, models_of_jobs};
ghost use Rattle.mode_set.specs.Costs.{IsPlanned, mode_cost};
ghost use Rattle.mode_set.specs.Plans.{UsableAt, model_of_plan, stock_at};
ghost use Rattle.right_code.specs.Covered.{AllPlanned, numbered, plan_costs};
ghost use Rattle.code_gen.specs.Inner.Planning.{told_costs};
ghost use Rattle.code_gen.specs.Inner.Uncovered.{IsOneBare, IsUncovered};
ghost use Rattle.code_gen.specs.Trials.{IsTried};

use crate::fault::CodeFault;
use cover::{CoverFault, JobCover, cover};
use form_model::{Forms, Job};
use mode_set::{Plan, plan_job};
use rec_bits::{Items, NoMemory};
use std::alloc::Global;

/// The chosen cover of a job, with its cost, where so many temporary cells are used; None where no
/// cover of the job is orderly.
pub fn chosen_cover(
    alloc: Global,
    forms: &Forms,
    job: &Job,
    temps: u32,
) -> Result<Option<JobCover>, NoMemory>
    ensures tried { IfOk result (λ chosen.
        IsTried (stock_with forms.now.list.items temps forms.now.file) (model_of_job job.now) (option_map model_of_job_cover chosen)) }
    ensures cost { IfOk result (λ chosen. IfSome chosen (λ c.
        c.cost ≡ job_cost (model_of_job job.now).destination (model_of_job_cover c).cover)) }
{
    match cover(alloc, forms, job, temps) {
        Ok(chosen) => Ok(Some(chosen)),
        Err(CoverFault::NoCover) => Ok(None),
        Err(CoverFault::Memory) => Err(NoMemory),
    }
}

// The mode and the cover of the job of this number.
fn plan_one(
    alloc: Global,
    forms: &[Forms],
    usable: &[bool],
    job: &Job,
    temps: u32,
    number: u32,
) -> Result<Plan, CodeFault>
    requires { length usable.now ≡ length forms.now }
    ensures planned { IfOk result (λ plan. IsPlanned (stock_at forms.now temps) (UsableAt usable.now)
        (model_of_job job.now).destination (model_of_job job.now).trees (model_of_plan plan)) }
    ensures cost { IfOk result (λ plan.
        plan.cost ≡ mode_cost plan.mode (model_of_job job.now).destination (model_of_plan plan).choice.cover) }
    ensures refused { IfErr result (IsOneBare (stock_at forms.now temps) (UsableAt usable.now) (model_of_job job.now) number) }
{
    match plan_job(alloc, forms, usable, job, temps) {
        Ok(plan) => Ok(plan),
        Err(CoverFault::NoCover) => Err(CodeFault::NoCover(number)),
        Err(CoverFault::Memory) => Err(CodeFault::Memory),
    }
}

/// The mode of each job and its chosen cover there, in their order, where so many temporary cells
/// are used. `NoCover` comes exactly where a job has no orderly cover in a mode in which it may run,
/// with the number of the first; `Memory` is want of memory.
pub(crate) fn plans_of(
    alloc: Global,
    forms: &[Forms],
    usable: &[bool],
    jobs: &[Job],
    temps: u32,
) -> Result<Vec<Plan>, CodeFault>
    requires usable { length usable.now ≡ length forms.now }
    requires jobs { length jobs.now < 2 ^ 32 }
    ensures planned { IfOk result (λ plans. AllPlanned (stock_at forms.now temps) (UsableAt usable.now)
        (models_of_jobs jobs.now) (map model_of_plan plans.items)) }
    ensures costs { IfOk result (λ plans.
        told_costs plans.items ≡ plan_costs (models_of_jobs jobs.now) (map model_of_plan plans.items)) }
    ensures refused { IfErr result (IsUncovered (stock_at forms.now temps) (UsableAt usable.now) (models_of_jobs jobs.now)) }
{
    let mut plans = Vec::new(alloc);
    for job in jobs {
        let plan = plan_one(alloc, forms, usable, job, temps, plans.len() as u32)?;
        plans.push(plan)?;
    }
    Ok(plans)
}

// A number of 32 bits, or want of memory.
fn narrow(number: u64) -> Result<u32, NoMemory>
    ensures { IfOk result (λ n. n ≡ number) }
{
    match u32::try_from(number) {
        Ok(n) => Ok(n),
        Err(_) => Err(NoMemory),
    }
}

/// The costs of jobs in their modes. Want of memory stands for a cost past 32 bits, too.
pub(crate) fn costs_of(alloc: Global, plans: &[Plan]) -> Result<Items<u32>, NoMemory>
    ensures { IfOk result (λ costs. costs ≡ told_costs plans.now) }
{
    let mut costs = Items::new(alloc);
    for plan in plans {
        costs.push(narrow(plan.cost)?)?;
    }
    Ok(costs)
}

/// Costs, each with the number of its tree.
pub(crate) fn cost_lines(alloc: Global, costs: &[u32]) -> Result<Items<(u32, u32)>, NoMemory>
    requires { length costs.now < 2 ^ 32 }
    ensures lines { IfOk result (λ lines. lines ≡ numbered 0 costs.now) }
    ensures fits { IfOk result (λ lines. AllByRecursion CostFits lines) }
{
    let mut lines = Items::new(alloc);
    for (number, cost) in costs.iter().enumerate() {
        lines.push((number as u32, *cost))?;
    }
    Ok(lines)
}
