//! The steps of blocks and of tests.

ghost use Rattle.std.specs.Prelude.{◌≡◌, ◌<◌, ◌≤◌, ◌+◌, ◌++◌, IfOk, OnOk, Some, length, slice_get, true, false};
ghost use Rattle.branch_fix.specs.Entered.{entered_places};
ghost use Rattle.src_trees.specs.Blocks.{IsAssignBlock, continues, is_assign, job_at, job_list, jobs_at};
ghost use Rattle.right_code.specs.Cuts.{plan_at, plans_at, plans_of};
ghost use Rattle.code_gen.specs.Inner.Planning.{ArePlannedIn, planned_steps, plans_in, jobs_in};
ghost use Rattle.code_gen.specs.Inner.Views.{place_mode};

use crate::views::PlannedProgram;
use branch_fix::continues;
use emit_seq::emit;
use form_model::{Flow, Step};
use rec_bits::{Items, NoMemory};
use std::alloc::Global;

// Adds the steps of the job of this number, which are none where there is none.
fn push_job(
    alloc: Global,
    program: &PlannedProgram<'_>,
    tree: u32,
    steps: &mut Vec<Step>,
) -> Result<(), NoMemory>
    requires { ArePlannedIn program.now.modes program.now }
    ensures { OnOk result (steps.new.items ≡ steps.old.items
        ++ planned_steps program.now.modes program.now.temps (job_list (slice_get (jobs_in program.now) tree))
        (plans_of (slice_get (plans_in program.now) tree))) }
{
    let modes = &program.modes;
    let Some(job) = program.jobs.get(tree as usize) else {
        return Ok(());
    };
    let Some(plan) = program.plans.get(tree as usize) else {
        return Ok(());
    };
    let emitted = emit(
        alloc,
        &modes.forms[plan.mode as usize],
        job,
        plan.cover.which,
        &plan.cover.cover,
        program.temps,
    )?;
    steps.extend_from_slice(emitted.steps.as_slice())?;
    Ok(())
}

// Adds the steps of the job at a place of the flow, which are none where no assignment stands
// there.
fn push_place(
    alloc: Global,
    program: &PlannedProgram<'_>,
    at: usize,
    steps: &mut Vec<Step>,
) -> Result<(), NoMemory>
    requires { ArePlannedIn program.now.modes program.now }
    ensures { OnOk result (steps.new.items ≡ steps.old.items
        ++ planned_steps program.now.modes program.now.temps
        (job_at (jobs_in program.now) (slice_get program.now.flow.now at))
        (plan_at (plans_in program.now) (slice_get program.now.flow.now at))) }
{
    let Some(place) = program.flow.get(at) else {
        return Ok(());
    };
    match place {
        Flow::Assign(tree) => push_job(alloc, program, *tree, steps),
        _ => Ok(()),
    }
}

/// The steps of the jobs at so many places from one on.
pub(crate) fn block_steps(
    alloc: Global,
    program: &PlannedProgram<'_>,
    at: usize,
    count: usize,
) -> Result<Items<Step>, NoMemory>
    requires within { at + count ≤ length program.now.flow.now }
    requires planned { ArePlannedIn program.now.modes program.now }
    ensures { IfOk result (λ steps. steps
        ≡ planned_steps program.now.modes program.now.temps
        (jobs_at program.now.flow.now (jobs_in program.now) at count)
        (plans_at program.now.flow.now (plans_in program.now) at count)) }
{
    let mut steps = Vec::new(alloc);
    for k in 0..count {
        push_place(alloc, program, at + k, &mut steps)?;
    }
    Ok(Items::from_vec(steps))
}

/// The mode of the job at a place of the flow, and 0 where no assignment stands there.
pub(crate) fn mode_at(program: &PlannedProgram<'_>, at: usize) -> usize
    ensures { result ≡ place_mode program.now at }
{
    match program.flow.get(at) {
        Some(Flow::Assign(tree)) => match program.plans.get(*tree as usize) {
            Some(plan) => plan.mode as usize,
            None => 0,
        },
        _ => 0,
    }
}

/// How many places the block has that begins at this place.
pub(crate) fn block_length(flow: &[Flow], entered: &[bool], at: usize) -> usize
    requires within { at < length flow.now }
    requires begins { continues flow.now at ≡ false }
    requires assigns { is_assign (slice_get flow.now at) ≡ true }
    requires entered { entered.now ≡ entered_places flow.now }
    ensures block { IsAssignBlock flow.now at result }
    ensures within { at + result ≤ length flow.now }
{
    for place in at + 1..flow.len() {
        if !continues(flow, entered, place) {
            return place - at;
        }
    }
    flow.len() - at
}
