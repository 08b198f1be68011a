//! The code of a self-test.

ghost use Rattle.std.specs.Prelude.{◌≡◌, ◌+◌, ◌-◌, ◌^◌, ◌<◌, IfOk, OnOk};
ghost use Rattle.std.specs.List.{AllByRecursion};
ghost use Rattle.bit_bdd.specs.Diagrams.{Extends};
ghost use Rattle.compaction.specs.Tables.{KnowsReads};
ghost use Rattle.cover.specs.Best.{model_of_job_cover};
ghost use Rattle.net_model.specs.declared.hardware.Space.TheVariants.{File as InFile};
ghost use Rattle.net_model.specs.Nets.{memory_width, size_in};
ghost use Rattle.net_model.specs.Patterns.{ArePatterns};
ghost use Rattle.net_model.specs.Widths.{WordFits};
ghost use Rattle.form_model.specs.Covers.{IsChosen};
ghost use Rattle.form_model.specs.Forms.{models_of_forms};
ghost use Rattle.form_set.specs.Listing.{AreForms};
ghost use Rattle.src_trees.specs.Jobs.{model_of_job, models_of_jobs};
ghost use Rattle.transfer_set.specs.Machines.{IsReadyFor};
ghost use Rattle.code_gen.specs.Machines.{known_netlist, known_patterns};
ghost use Rattle.self_test.specs.Cells.{test_temps, test_jobs};
ghost use Rattle.test_code.specs.Codes.{IsCodeOf};
ghost use Rattle.test_code.specs.Inner.Adding.{HasAdded};
ghost use Rattle.test_code.specs.Inner.Jobs.{IsCellJob};
ghost use Rattle.test_code.specs.Inner.Stocks.{stock_in};
ghost use Rattle.test_code.specs.Tried.{AreJobWords, test_stock};

use bit_bdd::Book;
use code_gen::{chosen_cover, pack_block};
use compaction::{KnownMachine, PackedBlock};
use cover::JobCover;
use emit_seq::emit;
use form_model::{Forms, Job};
use rec_bits::NoMemory;
use self_test::TestJobs;
use std::alloc::Global;

/// The code of a self-test.
#[derive(Drop)]
pub struct TestCode {
    /// How many jobs have a cover.
    pub tested: u64,
    /// How many have none.
    pub skipped: u64,
    /// What the covers cost together; it stands at 2^64 - 1 for more.
    pub cost: u64,
    /// The words of the jobs that have a cover, one after the other.
    pub words: Vec<u64>,
}

// What covers are made of: the forms of a netlist, and so many temporary cells.
#[derive(Clone, Copy)]
struct Stock<'a> {
    forms: &'a Forms,
    temps: u32,
}

// The block of a job, by its chosen cover. No register is live behind it.
fn job_block(
    alloc: Global,
    known: &KnownMachine<'_>,
    book: &mut Book,
    stock: &Stock<'_>,
    job: &Job,
    chosen: &JobCover,
) -> Result<PackedBlock, NoMemory>
    requires file { stock.now.forms.now.file ≡ size_in InFile (known_netlist known.now).storages }
    requires ready { IsReadyFor known.now.machine book.old }
    requires tables { KnowsReads known.now }
    requires patterns { ArePatterns (known_netlist known.now) (known_patterns known.now) }
    requires forms { AreForms (known_netlist known.now) (known_patterns known.now)
        (models_of_forms stock.now.forms.now.list.items) stock.now.forms.now.reach }
    requires job { IsCellJob (memory_width (known_netlist known.now).storages) stock.now.temps (model_of_job job.now) }
    requires chosen { IsChosen (stock_in stock.now) (model_of_job job.now).destination
        (model_of_job job.now).trees (model_of_job_cover chosen.now) }
    ensures grows { Extends book.old book.new }
    ensures ready { IsReadyFor known.now.machine book.new }
    ensures words { IfOk result (λ block. AreJobWords (known_netlist known.now) (known_patterns known.now)
        (stock_in stock.now) (model_of_job job.now) (model_of_job_cover chosen.now) block.words) }
    ensures fit { IfOk result (λ block. AllByRecursion (WordFits (known_netlist known.now)) block.words) }
{
    // the rules of the netlist say that each step has a word
    let _netlist = known.machine.checked.netlist();
    let emitted = emit(
        alloc,
        stock.forms,
        job,
        chosen.which,
        &chosen.cover,
        stock.temps,
    )?;
    let block = pack_block(alloc, known, book, emitted.steps.as_slice(), 0)?;
    Ok(block)
}

// Adds the words of a job, or counts it as skipped where it has no cover.
fn add_job(
    alloc: Global,
    known: &KnownMachine<'_>,
    book: &mut Book,
    stock: &Stock<'_>,
    job: &Job,
    code: &mut TestCode,
) -> Result<(), NoMemory>
    requires file { stock.now.forms.now.file ≡ size_in InFile (known_netlist known.now).storages }
    requires ready { IsReadyFor known.now.machine book.old }
    requires tables { KnowsReads known.now }
    requires patterns { ArePatterns (known_netlist known.now) (known_patterns known.now) }
    requires forms { AreForms (known_netlist known.now) (known_patterns known.now)
        (models_of_forms stock.now.forms.now.list.items) stock.now.forms.now.reach }
    requires job { IsCellJob (memory_width (known_netlist known.now).storages) stock.now.temps (model_of_job job.now) }
    requires few { code.old.tested + code.old.skipped < 2 ^ 64 - 1 }
    ensures grows { Extends book.old book.new }
    ensures ready { IsReadyFor known.now.machine book.new }
    ensures added { OnOk result (HasAdded (known_netlist known.now) (known_patterns known.now)
        (stock_in stock.now) (model_of_job job.now) code.old code.new) }
{
    let Some(chosen) = chosen_cover(alloc, stock.forms, job, stock.temps)? else {
        code.skipped += 1;
        return Ok(());
    };
    let block = job_block(alloc, known, book, stock, job, &chosen)?;
    code.words.extend_from_slice(block.words.as_slice())?;
    code.tested += 1;
    code.cost = code.cost.saturating_add(chosen.cost);
    Ok(())
}

/// The code of the jobs of a netlist's self-test, by its forms.
pub fn code_of(
    alloc: Global,
    known: &KnownMachine<'_>,
    book: &mut Book,
    forms: &Forms,
    tests: &TestJobs,
) -> Result<TestCode, NoMemory>
    requires ready { IsReadyFor known.now.machine book.old }
    requires tables { KnowsReads known.now }
    requires patterns { ArePatterns (known_netlist known.now) (known_patterns known.now) }
    requires forms { AreForms (known_netlist known.now) (known_patterns known.now)
        (models_of_forms forms.now.list.items) forms.now.reach }
    requires file { forms.now.file ≡ size_in InFile (known_netlist known.now).storages }
    requires temps { tests.now.temps
        ≡ test_temps (known_netlist known.now) (models_of_forms forms.now.list.items) (known_patterns known.now) }
    requires jobs { models_of_jobs tests.now.blocks.jobs.items
        ≡ test_jobs (known_netlist known.now) (models_of_forms forms.now.list.items) (known_patterns known.now) }
    ensures grows { Extends book.old book.new }
    ensures ready { IsReadyFor known.now.machine book.new }
    ensures code { IfOk result (IsCodeOf (known_netlist known.now) (known_patterns known.now)
        (test_stock (known_netlist known.now) (models_of_forms forms.now.list.items) (known_patterns known.now))
        (test_jobs (known_netlist known.now) (models_of_forms forms.now.list.items) (known_patterns known.now))) }
{
    let mut code = TestCode {
        tested: 0,
        skipped: 0,
        cost: 0,
        words: Vec::new(alloc),
    };
    let stock = Stock {
        forms,
        temps: tests.temps,
    };
    for job in &tests.blocks.jobs {
        add_job(alloc, known, book, &stock, job, &mut code)?;
    }
    Ok(code)
}
