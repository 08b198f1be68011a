//! The jobs of a program by equal trees that cost less.

ghost use Rattle.std.specs.Prelude.{◌≡◌, ◌<◌, ◌^◌, IfOk, IsTrue, false, get_or, length, map};
ghost use Rattle.rec_bits.specs.Operators.{IsWidth};
ghost use Rattle.form_model.specs.declared.flow.Flow.{Flow as Place};
ghost use Rattle.mode_set.specs.Plans.{UsableAt, stock_at};
ghost use Rattle.respell.specs.Kept.{AreSpelled, KeepsOrGains};
ghost use Rattle.right_code.specs.FlowJobs.{node_limit};
ghost use Rattle.src_trees.specs.Jobs.{model_of_job, models_of_jobs};
ghost use Rattle.src_trees.specs.Turned.{Turns, turned_flow as exchanged, turned_place as exchanged_place};
ghost use Rattle.code_gen.specs.Inner.Spelling.{turns_of};

use form_model::{Blocks, Flow, Forms, Job};
use rec_bits::{Items, NoMemory};
use respell::{Limits, Respelled, Speller};
use std::alloc::Global;

/// How the jobs of a program are spelled: as they are, or by equal trees.
#[derive(Clone, Copy)]
pub(crate) enum Spelling {
    Own,
    Equal,
}

/// How many leaves and operators the trees of a job have at most.
pub const TREE_NODES: u64 = 1020;

// A job, and whether it is a test whose targets are exchanged.
#[derive(Drop)]
struct SpelledJob {
    job: Job,
    turned: bool,
}

// Jobs, and for each whether it is such a test.
#[derive(Drop)]
struct SpelledList {
    jobs: Vec<Job>,
    turned: Vec<bool>,
}

// The job as it is, or another that stands for it at less cost.
fn spelled_job(alloc: Global, speller: &Speller<'_>, job: Job) -> Result<SpelledJob, NoMemory>
    requires cell { IsWidth speller.now.limits.cell }
    requires modes { length speller.now.usable.now ≡ length speller.now.forms.now }
    ensures { IfOk result (λ next. KeepsOrGains (stock_at speller.now.forms.now speller.now.limits.temps)
        (UsableAt speller.now.usable.now) speller.now.limits.cell speller.now.limits.temps speller.now.limits.nodes
        next.turned (model_of_job job) (model_of_job next.job)) }
{
    match speller.respell(alloc, &job)? {
        Respelled::Kept => Ok(SpelledJob { job, turned: false }),
        Respelled::Changed { job, turned } => Ok(SpelledJob { job, turned }),
    }
}

// Each job as it is, or another that stands for it at less cost.
fn spelled_jobs(
    alloc: Global,
    speller: &Speller<'_>,
    jobs: Vec<Job>,
) -> Result<SpelledList, NoMemory>
    requires cell { IsWidth speller.now.limits.cell }
    requires modes { length speller.now.usable.now ≡ length speller.now.forms.now }
    ensures { IfOk result (λ list. AreSpelled (stock_at speller.now.forms.now speller.now.limits.temps)
        (UsableAt speller.now.usable.now) speller.now.limits.cell speller.now.limits.temps speller.now.limits.nodes
        (turns_of list.turned.items) (models_of_jobs jobs.items) (models_of_jobs list.jobs.items)) }
{
    let mut list = SpelledList {
        jobs: Vec::new(alloc),
        turned: Vec::new(alloc),
    };
    for job in jobs {
        let next = spelled_job(alloc, speller, job)?;
        list.jobs.push(next.job)?;
        list.turned.push(next.turned)?;
    }
    Ok(list)
}

// Whether the test of this number is turned.
fn is_turned(turned: &[bool], number: u32) -> bool
    ensures { result ≡ turns_of turned.now number }
{
    match turned.get(number as usize) {
        Some(is) => *is,
        None => false,
    }
}

// A place of the flow, where the targets of a turned test are exchanged.
fn turned_place(place: Flow, turned: &[bool]) -> Flow
    ensures { result ≡ exchanged_place (turns_of turned.now) place }
{
    match place {
        Flow::Test {
            tree,
            when_one,
            when_zero,
        } if is_turned(turned, tree) => Flow::Test {
            tree,
            when_one: when_zero,
            when_zero: when_one,
        },
        _ => place,
    }
}

// The flow, where the targets of turned tests are exchanged.
fn turned_flow(alloc: Global, flow: &[Flow], turned: &[bool]) -> Result<Items<Flow>, NoMemory>
    ensures { IfOk result (λ places. places ≡ exchanged (turns_of turned.now) flow.now) }
{
    let mut places = Items::new(alloc);
    for place in flow {
        places.push(turned_place(*place, turned))?;
    }
    Ok(places)
}

/// The flow and the jobs of a program, by equal trees where these cost less by the forms of a mode
/// that can be used. The only error is want of memory.
pub(crate) fn respelled(
    alloc: Global,
    forms: &[Forms],
    usable: &[bool],
    temps: u32,
    cell: u8,
    blocks: Blocks,
) -> Result<Blocks, NoMemory>
    requires cell { IsWidth cell }
    requires modes { length usable.now ≡ length forms.now }
    ensures { IfOk result (λ other. (turned : Turns)
        × AreSpelled (stock_at forms.now temps) (UsableAt usable.now) cell temps node_limit turned
        (models_of_jobs blocks.jobs.items) (models_of_jobs other.jobs.items)
        × (other.flow ≡ exchanged turned blocks.flow)) }
{
    let limits = Limits {
        cell,
        temps,
        nodes: TREE_NODES,
    };
    let speller = Speller::new(alloc, forms, usable, limits)?;
    let list = spelled_jobs(alloc, &speller, blocks.jobs)?;
    let flow = turned_flow(alloc, blocks.flow.as_slice(), &list.turned)?;
    Ok(Blocks {
        flow,
        jobs: list.jobs,
    })
}
