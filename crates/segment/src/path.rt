//! The jobs of a path, and the test at its end.

ghost use Rattle.std.specs.Prelude.{◌≡◌, true, IfOk, IfSome, OnOk, option_copied, slice_get};
ghost use Rattle.tree_laws.specs.Classes.{Grows};
ghost use Rattle.src_trees.specs.Jobs.{model_of_job, models_of_jobs};
ghost use Rattle.segment.specs.Runs.{AreDone, IsDone, IsOverPath, IsPut, IsPutIn, TestReads};
ghost use Rattle.mark_start.specs.Runs.{IsGathered};

use crate::run::Segment;
use class_values::{Fact, number_of};
use form_model::{Aim, Job};
use mark_start::Run;
use rec_bits::{Items, NoMemory};
use std::alloc::Global;
use sym_run::{Cell, Known, Put, Store, written};
use tree_laws::Classes;

// The job of a number.
pub(crate) fn job_at(jobs: &[Job], number: u32) -> Option<&Job>
    ensures { option_copied result ≡ slice_get jobs.now number }
{
    jobs.get(number as usize)
}

// What is known of the cells behind a job, or None where it goes to an address that isn't known or
// is an array's.
fn put(
    alloc: Global,
    table: &mut Classes,
    facts: &[Fact],
    known: &Known,
    job: &Job,
) -> Result<Option<Items<Cell>>, NoMemory>
    ensures { IfOk result (λ found. IfSome found (IsPut (model_of_job job.now) table.old table.new facts.now known.now)) }
{
    let Some(tree) = job.trees.first() else {
        return Ok(None);
    };
    let store = Store { facts, known };
    match &job.aim {
        Aim::Cell(address) => {
            let value = store.tree(table, tree)?;
            written(alloc, known, u64::from(*address), value)
        }
        Aim::Store(addr) => {
            let at = store.tree(table, addr)?;
            let value = store.tree(table, tree)?;
            let Some(at) = at else {
                return Ok(None);
            };
            let Some(address) = number_of(table, facts, at) else {
                return Ok(None);
            };
            written(alloc, known, address, value)
        }
        Aim::Test | Aim::Temp => Ok(None),
    }
}

// What was written to arrays behind a job that goes to an element, or None where it goes elsewhere.
fn put_in_array(
    alloc: Global,
    table: &mut Classes,
    facts: &[Fact],
    known: &Known,
    width: u8,
    job: &Job,
) -> Result<Option<Items<Put>>, NoMemory>
    ensures grows { OnOk result (Grows table.old table.new) }
    ensures is { IfOk result (λ found. IfSome found (IsPutIn (model_of_job job.now) table.old table.new facts.now known.now)) }
{
    let Some(tree) = job.trees.first() else {
        return Ok(None);
    };
    let store = Store { facts, known };
    match &job.aim {
        Aim::Store(addr) => store.put(alloc, table, addr, tree),
        Aim::Cell(address) => store.put_at(alloc, table, width, u64::from(*address), tree),
        Aim::Test | Aim::Temp => Ok(None),
    }
}

impl Segment<'_> {
    // Does a job in what is known, and says whether it could: where it goes is known.
    fn after(
        &self,
        alloc: Global,
        table: &mut Classes,
        run: &mut Run,
        job: &Job,
    ) -> Result<bool, NoMemory>
        ensures { IfOk result (λ could. could ≡ true → IsDone self.now (model_of_job job.now) table.old table.new run.old run.new) }
    {
        self.start.all_elements(table, run, job.trees.as_slice())?;
        self.start.aim_elements(table, run, &job.aim)?;
        let elements = put_in_array(
            alloc,
            table,
            run.facts.as_slice(),
            &run.vars,
            self.start.addr,
            job,
        )?;
        if let Some(puts) = elements {
            run.vars.puts = puts;
            return Ok(true);
        }
        let Some(cells) = put(alloc, table, run.facts.as_slice(), &run.vars, job)? else {
            return Ok(false);
        };
        run.vars.cells = cells;
        Ok(true)
    }

    // Does the jobs of these numbers.
    fn behind(
        &self,
        alloc: Global,
        table: &mut Classes,
        run: &mut Run,
        path: &[u32],
    ) -> Result<bool, NoMemory>
        ensures { IfOk result (λ could. could ≡ true → AreDone self.now path.now table.old table.new run.old run.new) }
    {
        let Some((number, rest)) = path.split_first() else {
            return Ok(true);
        };
        let Some(job) = job_at(self.jobs, *number) else {
            return Ok(false);
        };
        if !self.after(alloc, table, run, job)? {
            return Ok(false);
        }
        self.behind(alloc, table, run, rest)
    }

    // The addresses of arrays in the test at the path's end.
    fn test_elements(&self, table: &mut Classes, run: &mut Run) -> Result<(), NoMemory>
        ensures { OnOk result (IsGathered self.now.start (TestReads self.now.start.from.now.spots (models_of_jobs self.now.jobs.now) self.now.label)
            table.old table.new run.old run.new) }
    {
        let Some(number) = self.label else {
            return Ok(());
        };
        let Some(job) = job_at(self.jobs, number) else {
            return Ok(());
        };
        self.start.all_elements(table, run, job.trees.as_slice())
    }

    // Does the jobs of the path, and gathers what the test at its end reads.
    pub(crate) fn over_path(
        &self,
        alloc: Global,
        table: &mut Classes,
        run: &mut Run,
    ) -> Result<bool, NoMemory>
        ensures { IfOk result (λ could. could ≡ true → IsOverPath self.now table.old table.new run.old run.new) }
    {
        if !self.behind(alloc, table, run, self.path)? {
            return Ok(false);
        }
        self.test_elements(table, run)?;
        Ok(true)
    }
}
