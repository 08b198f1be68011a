//! The flow of statements.

ghost use Rattle.std.specs.Prelude.{◌≡◌, ◌+◌, ◌<◌, ◌≤◌, ◌^◌, ◌++◌, ◌∷◌, [], IfOk, OnOk, map, length};
ghost use Rattle.form_model.specs.declared.flow.Flow.TheVariants.{Assign as AssignAt, Jump as JumpTo, End};
ghost use Rattle.src_model.specs.Written.{model_of_stmt, stmts_of, model_of_src_test, model_of_program, choice, while, count, without, otherwise};
ghost use Rattle.src_model.specs.Sizes.{statements, statements_in};
ghost use Rattle.src_model.specs.declared.program.Cmp.TheVariants.{Ne};
ghost use Rattle.src_trees.specs.Lowered.{holds_at_one, jobs_in};
ghost use Rattle.src_trees.specs.Flows.{asked, flow_in, program_flow, program_jobs};
ghost use Rattle.src_trees.specs.Held.{HoldsVars, LieWithin};
ghost use Rattle.src_trees.specs.Jobs.{models_of_jobs};
ghost use Rattle.src_trees.specs.Inner.Lowering.{IsPlain, ArePlain, IsReady, IsLowered, AreLowered};

use crate::jobs::{assign_job, counting_job, start_job, step_job, test_job};
use crate::memory::DataMemory;
use code_model::Places;
use form_model::{Blocks, Flow, Job};
use rec_bits::{Items, Name, NoMemory};
use src_model::{Cmp, SrcTest, Stmt, Typed};
use std::alloc::Global;

fn holds_at_one(cmp: Cmp) -> bool
    ensures { result ≡ holds_at_one cmp }
{
    match cmp {
        Cmp::Eq | Cmp::Lt | Cmp::Gt | Cmp::Slt | Cmp::Sgt => true,
        Cmp::Ne | Cmp::Ge | Cmp::Le | Cmp::Sge | Cmp::Sle => false,
    }
}

// A test that goes on at one place where it holds, and at another where it doesn't.
fn asked(cmp: Cmp, tree: u32, on_true: u32, on_false: u32) -> Flow
    ensures { result ≡ asked cmp tree on_true on_false }
{
    let (when_one, when_zero) = if holds_at_one(cmp) {
        (on_true, on_false)
    } else {
        (on_false, on_true)
    };
    Flow::Test {
        tree,
        when_one,
        when_zero,
    }
}

// A test with what stands behind it, up to a jump.
fn tested(alloc: Global, test: Flow, inner: &[Flow], back: u32) -> Result<Vec<Flow>, NoMemory>
    ensures { IfOk result (λ flow. flow.items ≡ test ∷ (inner.now ++ JumpTo back ∷ [])) }
{
    let mut flow = Vec::new(alloc);
    flow.push(test)?;
    flow.extend_from_slice(inner)?;
    flow.push(Flow::Jump(back))?;
    Ok(flow)
}

// The flow of a `while` whose test stands at `at`, from that of its body.
fn while_flow(
    alloc: Global,
    cmp: Cmp,
    tree: u32,
    at: u32,
    inner: &[Flow],
) -> Result<Items<Flow>, NoMemory>
    requires { at + length inner.now + 8 < 2 ^ 32 }
    ensures { IfOk result (λ flow. flow
        ≡ asked cmp tree (at + 1) (at + 1 + length inner.now + 1) ∷ (inner.now ++ JumpTo at ∷ [])) }
{
    let test = asked(cmp, tree, at + 1, at + 1 + inner.len() as u32 + 1);
    let flow = tested(alloc, test, inner, at)?;
    Ok(Items::from_vec(flow))
}

// The flow of an `if` without an else part.
fn if_flow(
    alloc: Global,
    cmp: Cmp,
    tree: u32,
    at: u32,
    taken: &[Flow],
) -> Result<Items<Flow>, NoMemory>
    requires { at + length taken.now + 8 < 2 ^ 32 }
    ensures { IfOk result (λ flow. flow ≡ asked cmp tree (at + 1) (at + 1 + length taken.now) ∷ (taken.now ++ [])) }
{
    let test = asked(cmp, tree, at + 1, at + 1 + taken.len() as u32);
    let mut flow = Vec::new(alloc);
    flow.push(test)?;
    flow.extend_from_slice(taken)?;
    Ok(Items::from_vec(flow))
}

// The flow of an `if` with an else part.
fn else_flow(
    alloc: Global,
    cmp: Cmp,
    tree: u32,
    at: u32,
    taken: &[Flow],
    other: &[Flow],
) -> Result<Items<Flow>, NoMemory>
    requires { at + length taken.now + length other.now + 8 < 2 ^ 32 }
    ensures { IfOk result (λ flow. flow
        ≡ asked cmp tree (at + 1) (at + 1 + length taken.now + 1)
        ∷ (taken.now ++ JumpTo (at + 1 + length taken.now + 1 + length other.now) ∷ other.now)) }
{
    let over = at + 1 + taken.len() as u32 + 1;
    let test = asked(cmp, tree, at + 1, over);
    let mut flow = tested(alloc, test, taken, over + other.len() as u32)?;
    flow.extend_from_slice(other)?;
    Ok(Items::from_vec(flow))
}

// The flow of a `for` whose start stands at `at`, from that of its body; the start's tree and the
// step's have these numbers.
fn for_flow(
    alloc: Global,
    tree: u32,
    step: u32,
    at: u32,
    inner: &[Flow],
) -> Result<Items<Flow>, NoMemory>
    requires few { at + length inner.now + 8 < 2 ^ 32 }
    requires tree { tree + 1 < 2 ^ 32 }
    ensures { IfOk result (λ flow. flow ≡ AssignAt tree
        ∷ (asked Ne (tree + 1) (at + 2) (at + 2 + length inner.now + 2)
        ∷ (inner.now ++ AssignAt step ∷ (JumpTo (at + 1) ∷ [])))) }
{
    let mut flow = Vec::new(alloc);
    flow.push(Flow::Assign(tree))?;
    flow.push(asked(Cmp::Ne, tree + 1, at + 2, at + 2 + inner.len() as u32 + 2))?;
    flow.extend_from_slice(inner)?;
    flow.push(Flow::Assign(step))?;
    flow.push(Flow::Jump(at + 1))?;
    Ok(Items::from_vec(flow))
}

// Adds a job, and gives its number.
fn push_job(jobs: &mut Items<Job>, job: Job) -> Result<u32, NoMemory>
    requires { length jobs.old < 65536 }
    ensures pushed { OnOk result (jobs.new ≡ jobs.old ++ job ∷ []) }
    ensures number { IfOk result (λ number. number ≡ length jobs.old) }
{
    let number = jobs.len() as u32;
    jobs.push(job)?;
    Ok(number)
}

// The flow of a statement that stands at `at`. Its jobs are added to the jobs.
#[cycle(lower)]
fn lower_statement(
    alloc: Global,
    memory: &DataMemory<'_>,
    jobs: &mut Items<Job>,
    statement: &Stmt,
    at: u32,
) -> Result<Items<Flow>, NoMemory>
    requires ready { IsReady at jobs.old (statements (model_of_stmt statement.now)) }
    requires plain { IsPlain memory.now.word memory.now.places (model_of_stmt statement.now) }
    ensures { IfOk result (IsLowered memory.now (model_of_stmt statement.now) at jobs.old jobs.new) }
{
    match statement {
        Stmt::Assign { place, value } => {
            let job = assign_job(alloc, memory, place, value)?;
            let tree = push_job(jobs, job)?;
            let mut flow = Items::new(alloc);
            flow.push(Flow::Assign(tree))?;
            Ok(flow)
        }
        Stmt::If { test, yes, no } => match no {
            None => lower_if(alloc, memory, jobs, test, yes, at),
            Some(other) => {
                let branches = Branches { taken: yes, other };
                lower_else(alloc, memory, jobs, test, &branches, at)
            }
        },
        Stmt::While { test, body } => lower_while(alloc, memory, jobs, test, body, at),
        Stmt::For {
            counter,
            at: _,
            from,
            to,
            body,
        } => {
            let counting = Counting {
                counter,
                from: *from,
                to: *to,
            };
            lower_for(alloc, memory, jobs, &counting, body, at)
        }
    }
}

// An `if` without an else part.
#[cycle(lower)]
fn lower_if(
    alloc: Global,
    memory: &DataMemory<'_>,
    jobs: &mut Items<Job>,
    test: &SrcTest,
    taken: &[Stmt],
    at: u32,
) -> Result<Items<Flow>, NoMemory>
    requires ready { IsReady at jobs.old (1 + statements_in (stmts_of (map model_of_stmt taken.now)) + 0) }
    requires plain { IsPlain memory.now.word memory.now.places
        (choice (model_of_src_test test.now) (stmts_of (map model_of_stmt taken.now)) without) }
    ensures { IfOk result (IsLowered memory.now
        (choice (model_of_src_test test.now) (stmts_of (map model_of_stmt taken.now)) without) at jobs.old jobs.new) }
{
    let job = test_job(alloc, memory, test)?;
    let tree = push_job(jobs, job)?;
    let inner = lower_block(alloc, memory, jobs, taken, at + 1)?;
    if_flow(alloc, test.cmp, tree, at, inner.as_slice())
}

// The statements of an `if` where its test holds, and where it doesn't.
#[derive(Clone, Copy)]
struct Branches<'a> {
    taken: &'a [Stmt],
    other: &'a [Stmt],
}

// An `if` with an else part.
#[cycle(lower)]
fn lower_else(
    alloc: Global,
    memory: &DataMemory<'_>,
    jobs: &mut Items<Job>,
    test: &SrcTest,
    branches: &Branches<'_>,
    at: u32,
) -> Result<Items<Flow>, NoMemory>
    requires ready { IsReady at jobs.old (1 + statements_in (stmts_of (map model_of_stmt branches.now.taken.now))
        + statements_in (stmts_of (map model_of_stmt branches.now.other.now))) }
    requires plain { IsPlain memory.now.word memory.now.places (choice (model_of_src_test test.now)
        (stmts_of (map model_of_stmt branches.now.taken.now))
        (otherwise (stmts_of (map model_of_stmt branches.now.other.now)))) }
    ensures { IfOk result (IsLowered memory.now (choice (model_of_src_test test.now)
        (stmts_of (map model_of_stmt branches.now.taken.now))
        (otherwise (stmts_of (map model_of_stmt branches.now.other.now)))) at jobs.old jobs.new) }
{
    let job = test_job(alloc, memory, test)?;
    let tree = push_job(jobs, job)?;
    let inner = lower_block(alloc, memory, jobs, branches.taken, at + 1)?;
    let over = at + 1 + inner.len() as u32 + 1;
    let after = lower_block(alloc, memory, jobs, branches.other, over)?;
    else_flow(
        alloc,
        test.cmp,
        tree,
        at,
        inner.as_slice(),
        after.as_slice(),
    )
}

#[cycle(lower)]
fn lower_while(
    alloc: Global,
    memory: &DataMemory<'_>,
    jobs: &mut Items<Job>,
    test: &SrcTest,
    body: &[Stmt],
    at: u32,
) -> Result<Items<Flow>, NoMemory>
    requires ready { IsReady at jobs.old (1 + statements_in (stmts_of (map model_of_stmt body.now))) }
    requires plain { IsPlain memory.now.word memory.now.places
        (while (model_of_src_test test.now) (stmts_of (map model_of_stmt body.now))) }
    ensures { IfOk result (IsLowered memory.now
        (while (model_of_src_test test.now) (stmts_of (map model_of_stmt body.now))) at jobs.old jobs.new) }
{
    let job = test_job(alloc, memory, test)?;
    let tree = push_job(jobs, job)?;
    let inner = lower_block(alloc, memory, jobs, body, at + 1)?;
    while_flow(alloc, test.cmp, tree, at, inner.as_slice())
}

// A counter, and the numbers from which and to which it counts.
#[derive(Clone, Copy)]
struct Counting<'a> {
    counter: &'a Name,
    from: u64,
    to: u64,
}

// A `for`.
#[cycle(lower)]
fn lower_for(
    alloc: Global,
    memory: &DataMemory<'_>,
    jobs: &mut Items<Job>,
    counting: &Counting<'_>,
    body: &[Stmt],
    at: u32,
) -> Result<Items<Flow>, NoMemory>
    requires ready { IsReady at jobs.old (3 + statements_in (stmts_of (map model_of_stmt body.now))) }
    requires plain { IsPlain memory.now.word memory.now.places
        (count counting.now.counter.now 0 counting.now.from counting.now.to (stmts_of (map model_of_stmt body.now))) }
    ensures { IfOk result (IsLowered memory.now
        (count counting.now.counter.now 0 counting.now.from counting.now.to (stmts_of (map model_of_stmt body.now)))
        at jobs.old jobs.new) }
{
    let start = start_job(alloc, memory, counting.counter, counting.from)?;
    let tree = push_job(jobs, start)?;
    let test = counting_job(alloc, memory, counting.counter, counting.to)?;
    let _test = push_job(jobs, test)?;
    let inner = lower_block(alloc, memory, jobs, body, at + 2)?;
    let last = step_job(alloc, memory, counting.counter)?;
    let step = push_job(jobs, last)?;
    for_flow(alloc, tree, step, at, inner.as_slice())
}

// The flow of statements, of which the first stands at `at`.
#[cycle(lower)]
fn lower_block(
    alloc: Global,
    memory: &DataMemory<'_>,
    jobs: &mut Items<Job>,
    block: &[Stmt],
    at: u32,
) -> Result<Items<Flow>, NoMemory>
    requires ready { IsReady at jobs.old (statements_in (stmts_of (map model_of_stmt block.now))) }
    requires plain { ArePlain memory.now.word memory.now.places (stmts_of (map model_of_stmt block.now)) }
    ensures { IfOk result (AreLowered memory.now (stmts_of (map model_of_stmt block.now)) at jobs.old jobs.new) }
{
    let mut flow = Vec::new(alloc);
    let mut place = at;
    for statement in block {
        let more = lower_statement(alloc, memory, jobs, statement, place)?;
        flow.extend_from_slice(more.as_slice())?;
        place += more.len() as u32;
    }
    Ok(Items::from_vec(flow))
}

/// The flow and the jobs of a program whose variables stand at these places, for addresses of
/// `addr_width` bits, 1 to the program's width. The variables' cells lie below 2 to the address
/// width and below 2^32, and no two places share one. The only error is want of memory.
pub fn lower(
    alloc: Global,
    typed: &Typed,
    places: &Places,
    addr_width: u8,
) -> Result<Blocks, NoMemory>
    requires held { HoldsVars places.now.temps (model_of_program typed.now.program).vars
        (record { word = typed.now.width; addr = addr_width; places = places.now.list }) }
    requires few { LieWithin places.now.temps (2 ^ 32) places.now.list }
    ensures flow { IfOk result (λ blocks. blocks.flow ≡ program_flow (model_of_program typed.now.program)) }
    ensures jobs { IfOk result (λ blocks. models_of_jobs blocks.jobs.items
        ≡ program_jobs
        (record { word = typed.now.width; addr = addr_width; places = places.now.list })
        (model_of_program typed.now.program)) }
{
    let memory = DataMemory::new(typed.width(), addr_width, places.list.as_slice());
    lower_body(alloc, &memory, typed.program().body.as_slice())
}

// The whole flow of a program with this body.
fn lower_body(alloc: Global, memory: &DataMemory<'_>, body: &[Stmt]) -> Result<Blocks, NoMemory>
    requires few { statements_in (stmts_of (map model_of_stmt body.now)) ≤ 65536 }
    requires plain { ArePlain memory.now.word memory.now.places (stmts_of (map model_of_stmt body.now)) }
    ensures flow { IfOk result (λ blocks. blocks.flow ≡ flow_in (stmts_of (map model_of_stmt body.now)) 0 0 ++ End ∷ []) }
    ensures jobs { IfOk result (λ blocks.
        models_of_jobs blocks.jobs.items ≡ jobs_in memory.now (stmts_of (map model_of_stmt body.now))) }
{
    let mut jobs = Items::new(alloc);
    let mut flow = lower_block(alloc, memory, &mut jobs, body, 0)?;
    flow.push(Flow::End)?;
    Ok(Blocks {
        flow,
        jobs: jobs.into_vec(),
    })
}
