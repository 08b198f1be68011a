//! The mode of a job, and its cover there.

ghost use Rattle.std.specs.Prelude.{◌≡◌, ◌+◌, ◌<◌, ◌↔◌, Err, IfOk, IsTrue, length};
ghost use Rattle.cover.specs.Jobs.{trees_of};
ghost use Rattle.form_model.specs.Covers.{job_cost, stock_with};
ghost use Rattle.form_model.specs.Forms.{aim_destination};
ghost use Rattle.mode_set.specs.Costs.{HasNoPlan, IsPlanned, MayRunIn, mode_cost, mode_words};
ghost use Rattle.mode_set.specs.Inner.Best.{IsBestBelow, IsPlanIn, IsPriceBy, better_of};
ghost use Rattle.mode_set.specs.Plans.{UsableAt, model_of_plan, stock_at};

use cover::{CoverFault, JobCover, cover};
use form_model::{Aim, Forms, Job};
use rec_bits::NoMemory;
use std::alloc::Global;

/// The mode of a job, the cover that is chosen for it by the forms of that mode, and what it costs
/// there: 2 more than its cover in a mode other than 0, its mode words.
#[derive(Drop)]
pub struct Plan {
    pub mode: u64,
    pub cover: JobCover,
    pub cost: u64,
}

// Whether a job may run in a mode; a test runs in mode 0.
fn may_run(job: &Job, mode: usize) -> bool
    ensures { IsTrue result ↔ MayRunIn (aim_destination job.now.aim) mode }
{
    match job.aim {
        Aim::Test => mode == 0,
        Aim::Cell(_) | Aim::Store(_) | Aim::Temp => true,
    }
}

// Whether a mode can be used.
fn is_usable(usable: &[bool], mode: usize) -> bool
    ensures { IsTrue result ↔ UsableAt usable.now mode }
{
    match usable.get(mode) {
        Some(can) => *can,
        None => false,
    }
}

// The cost of a cover with the mode words of its mode, or want of memory past 64 bits.
fn with_mode_words(mode: usize, cost: u64) -> Result<u64, NoMemory>
    ensures { IfOk result (λ sum. sum ≡ cost + mode_words mode) }
{
    if mode == 0 {
        return Ok(cost);
    }
    match cost.checked_add(2) {
        Some(sum) => Ok(sum),
        None => Err(NoMemory),
    }
}

// The plan of a job by the forms of a mode, if it has a cover by them.
fn priced_in(
    alloc: Global,
    forms: &Forms,
    job: &Job,
    temps: u32,
    mode: usize,
) -> Result<Option<Plan>, NoMemory>
    ensures { IfOk result (IsPriceBy (stock_with forms.now.list.items temps forms.now.file)
        (aim_destination job.now.aim) (trees_of job.now.trees.items) mode) }
{
    match cover(alloc, forms, job, temps) {
        Ok(chosen) => {
            let cost = with_mode_words(mode, chosen.cost)?;
            Ok(Some(Plan {
                mode: mode as u64,
                cover: chosen,
                cost,
            }))
        }
        Err(CoverFault::NoCover) => Ok(None),
        Err(CoverFault::Memory) => Err(NoMemory),
    }
}

// The plan of a job in a mode, if it may run there and has a cover.
fn plan_in(
    alloc: Global,
    forms: &[Forms],
    usable: &[bool],
    job: &Job,
    temps: u32,
    mode: usize,
) -> Result<Option<Plan>, NoMemory>
    requires { mode < length forms.now }
    ensures { IfOk result (IsPlanIn (stock_at forms.now temps) (UsableAt usable.now)
        (aim_destination job.now.aim) (trees_of job.now.trees.items) mode) }
{
    if !is_usable(usable, mode) {
        return Ok(None);
    }
    if !may_run(job, mode) {
        return Ok(None);
    }
    priced_in(alloc, &forms[mode], job, temps, mode)
}

// The plan that is known, or that of a later mode where it is cheaper.
fn better(best: Option<Plan>, next: Option<Plan>) -> Option<Plan>
    ensures { result ≡ better_of best next }
{
    let Some(later) = next else {
        return best;
    };
    if let Some(known) = best {
        if known.cost <= later.cost {
            return Some(known);
        }
    }
    Some(later)
}

// The best plan of a job over all modes, if it has a plan.
fn best_of(
    alloc: Global,
    forms: &[Forms],
    usable: &[bool],
    job: &Job,
    temps: u32,
) -> Result<Option<Plan>, NoMemory>
    ensures { IfOk result (IsBestBelow (stock_at forms.now temps) (UsableAt usable.now)
        (aim_destination job.now.aim) (trees_of job.now.trees.items) (length forms.now)) }
{
    let mut best = None;
    for mode in 0..forms.len() {
        let next = plan_in(alloc, forms, usable, job, temps, mode)?;
        best = better(best, next);
    }
    Ok(best)
}

/// The least mode of least cost among those that can be used, and the cover that is chosen for the
/// job by the forms of that mode, which stand in `forms` by modes; a test has mode 0. In a mode
/// other than 0 a job costs 2 more, its mode words. `NoCover` comes exactly where the job has no
/// orderly cover in a mode in which it may run. Want of memory stands also for a cost, a tree or a
/// setting of a form past 64 bits.
pub fn plan_job(
    alloc: Global,
    forms: &[Forms],
    usable: &[bool],
    job: &Job,
    temps: u32,
) -> Result<Plan, CoverFault>
    requires { length usable.now ≡ length forms.now }
    ensures planned { IfOk result (λ plan. IsPlanned (stock_at forms.now temps) (UsableAt usable.now)
        (aim_destination job.now.aim) (trees_of job.now.trees.items) (model_of_plan plan)) }
    ensures cost { IfOk result (λ plan.
        plan.cost ≡ mode_cost plan.mode (aim_destination job.now.aim) (model_of_plan plan).choice.cover) }
    ensures cover { IfOk result (λ plan.
        plan.cover.cost ≡ job_cost (aim_destination job.now.aim) (model_of_plan plan).choice.cover) }
    ensures none { result ≡ Err CoverFault.NoCover → HasNoPlan (stock_at forms.now temps)
        (UsableAt usable.now) (aim_destination job.now.aim) (trees_of job.now.trees.items) }
{
    match best_of(alloc, forms, usable, job, temps) {
        Ok(Some(best)) => Ok(best),
        Ok(None) => Err(CoverFault::NoCover),
        Err(_) => Err(CoverFault::Memory),
    }
}
