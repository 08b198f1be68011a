//! The places of jobs.

ghost use Rattle.std.specs.Prelude.{◌≡◌, ◌++◌, ◌∷◌, [], IfOk, OnOk, map};
ghost use Rattle.src_model.specs.Written.{model_of_stmt, stmts_of, model_of_src_test, choice, while, count, without, model_of_program};
ghost use Rattle.job_places.specs.Places.{model_of_role, program_job_places, job_place, model_of_job_place, places_of_jobs, places_of_jobs_in};

use rec_bits::{Name, NoMemory};
use src_model::{Program, SrcTest, Stmt};
use std::alloc::Global;

/// What a job is of its statement.
#[derive(Drop)]
pub enum Role<'a> {
    /// The assignment to this variable, or to an element of it.
    Assign(&'a Name),
    /// The test of an `if`.
    If,
    /// The test of a `while`.
    While,
    /// A `for` sets this counter.
    Start(&'a Name),
    /// It compares it with the number past the last one.
    Count(&'a Name),
    /// It adds 1 to it.
    Step(&'a Name),
}

/// Where a job stands in the text: the offset of the assigned variable's name, of the first token
/// of a test, or of the counter's name of a `for`.
#[derive(Drop)]
pub struct JobPlace<'a> {
    pub at: u64,
    pub role: Role<'a>,
}

fn add<'a>(places: &mut Vec<JobPlace<'a>>, at: u64, role: Role<'a>) -> Result<(), NoMemory>
    ensures { OnOk result (map model_of_job_place places.new.items
        ≡ map model_of_job_place places.old.items ++ job_place at (model_of_role role.entry) ∷ []) }
{
    places.push(JobPlace { at, role })?;
    Ok(())
}

// Adds the places of a statement's jobs.
#[cycle(add)]
fn add_statement<'a>(places: &mut Vec<JobPlace<'a>>, statement: &'a Stmt) -> Result<(), NoMemory>
    ensures { OnOk result (map model_of_job_place places.new.items
        ≡ map model_of_job_place places.old.items ++ places_of_jobs (model_of_stmt statement.now)) }
{
    match statement {
        Stmt::Assign { place, .. } => add(places, place.at, Role::Assign(&place.name)),
        Stmt::If { test, yes, no } => match no {
            None => add_if(places, test, yes),
            Some(other) => {
                add_if(places, test, yes)?;
                add_block(places, other)
            }
        },
        Stmt::While { test, body } => add_while(places, test, body),
        Stmt::For {
            counter,
            at,
            from: _,
            to: _,
            body,
        } => add_for(places, counter, *at, body),
    }
}

// Those of an `if` without an else part.
#[cycle(add)]
fn add_if<'a>(
    places: &mut Vec<JobPlace<'a>>,
    test: &'a SrcTest,
    taken: &'a [Stmt],
) -> Result<(), NoMemory>
    ensures { OnOk result (map model_of_job_place places.new.items ≡ map model_of_job_place places.old.items
        ++ places_of_jobs (choice (model_of_src_test test.now) (stmts_of (map model_of_stmt taken.now)) without)) }
{
    add(places, test.left.at, Role::If)?;
    add_block(places, taken)
}

#[cycle(add)]
fn add_while<'a>(
    places: &mut Vec<JobPlace<'a>>,
    test: &'a SrcTest,
    body: &'a [Stmt],
) -> Result<(), NoMemory>
    ensures { OnOk result (map model_of_job_place places.new.items ≡ map model_of_job_place places.old.items
        ++ places_of_jobs (while (model_of_src_test test.now) (stmts_of (map model_of_stmt body.now)))) }
{
    add(places, test.left.at, Role::While)?;
    add_block(places, body)
}

// Those of a `for` with this counter, whatever the numbers are.
#[cycle(add)]
fn add_for<'a>(
    places: &mut Vec<JobPlace<'a>>,
    counter: &'a Name,
    at: u64,
    body: &'a [Stmt],
) -> Result<(), NoMemory>
    ensures { OnOk result (map model_of_job_place places.new.items
        ≡ map model_of_job_place places.old.items ++ places_of_jobs (count counter.now at 0 0 (stmts_of (map model_of_stmt body.now)))) }
{
    add(places, at, Role::Start(counter))?;
    add(places, at, Role::Count(counter))?;
    add_block(places, body)?;
    add(places, at, Role::Step(counter))
}

// Adds those of statements.
#[cycle(add)]
fn add_block<'a>(places: &mut Vec<JobPlace<'a>>, block: &'a [Stmt]) -> Result<(), NoMemory>
    ensures { OnOk result (map model_of_job_place places.new.items
        ≡ map model_of_job_place places.old.items ++ places_of_jobs_in (stmts_of (map model_of_stmt block.now))) }
{
    for statement in block {
        add_statement(places, statement)?;
    }
    Ok(())
}

/// The places of a program's jobs, in the order of the jobs. The only error is want of memory.
pub fn places_of(alloc: Global, program: &Program) -> Result<Vec<JobPlace<'_>>, NoMemory>
    ensures { IfOk result (λ places. map model_of_job_place places.items ≡ program_job_places (model_of_program program.now)) }
{
    let mut places = Vec::new(alloc);
    add_block(&mut places, program.body.as_slice())?;
    Ok(places)
}
