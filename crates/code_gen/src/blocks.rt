//! The blocks of a program and of its tests, packed.

ghost use Rattle.std.specs.Prelude.{◌≡◌, ◌<◌, ◌+◌, IfOk, OnOk, Some, false, length, slice_get, true};
ghost use Rattle.std.specs.List.{AllByRecursion};
ghost use Rattle.bit_bdd.specs.Diagrams.{Extends};
ghost use Rattle.branch_fix.specs.Entered.{entered_places};
ghost use Rattle.cover.specs.Best.{model_of_job_cover};
ghost use Rattle.form_model.specs.Live.{regs_of, singles};
ghost use Rattle.form_model.specs.Forms.{FormModel, models_of_forms};
ghost use Rattle.live_sets.specs.Listed.{AreListed};
ghost use Rattle.compaction.specs.Tables.{KnowsReads};
ghost use Rattle.compaction.specs.Words.{HaveWords};
ghost use Rattle.src_trees.specs.Blocks.{continues, is_assign};
ghost use Rattle.src_trees.specs.Jobs.{model_of_job};
ghost use Rattle.transfer_set.specs.Machines.{IsReadyFor};
ghost use Rattle.mode_set.specs.Keeping.{Isas};
ghost use Rattle.right_code.specs.Tasks.{Task};
ghost use Rattle.code_gen.specs.Blocks.{IsOnce, IsPackedBlock};
ghost use Rattle.code_gen.specs.Machines.{known_netlist, known_patterns};
ghost use Rattle.code_gen.specs.Inner.Coded.{AreCodedTo, IsTestCode};
ghost use Rattle.code_gen.specs.Inner.Planning.{ArePlannedIn, AreReady, IsPlanning};
ghost use Rattle.code_gen.specs.Inner.Registers.{AreConditionReads};
ghost use Rattle.code_gen.specs.Inner.Views.{IsTestAt, IsTestJob};

use crate::cuts::{cut_block, mode_set};
use crate::registers::condition_registers;
use crate::steps::block_length;
use crate::views::PlannedProgram;
use bit_bdd::Book;
use branch_fix::{Branch, continues, entered};
use compaction::{KnownMachine, PackedBlock, pack_with};
use cover::JobCover;
use emit_seq::emit;
use form_model::{Flow, Forms, Job, RegSet, Step};
use rec_bits::NoMemory;
use std::alloc::Global;

/// The blocks of a flow, a test's operands among them, and the branch of each test.
#[derive(Drop)]
pub(crate) struct BlockCode {
    pub blocks: Vec<PackedBlock>,
    pub branches: Vec<Branch>,
}

/// The block of these steps, each of which has a word, where the registers `after` are live behind
/// it.
pub fn pack_block(
    alloc: Global,
    known: &KnownMachine<'_>,
    book: &mut Book,
    steps: &[Step],
    after: RegSet,
) -> Result<PackedBlock, NoMemory>
    requires ready { IsReadyFor known.now.machine book.old }
    requires tables { KnowsReads known.now }
    requires words { HaveWords known.now.machine (singles steps.now) (regs_of after) }
    ensures grows { Extends book.old book.new }
    ensures ready { IsReadyFor known.now.machine book.new }
    ensures packed { IfOk result (IsPackedBlock (known_netlist known.now)
        (known_patterns known.now) steps.now (regs_of after)) }
    ensures once { IfOk result IsOnce }
{
    let block = pack_with(alloc, known, book, steps, after)?;
    Ok(block)
}

// The registers that the condition of a cover's branch form reads.
fn branch_registers(known: &KnownMachine<'_>, forms: &Forms, form: usize) -> RegSet
    requires tables { KnowsReads known.now }
    requires listed { AreListed known.now.machine }
    ensures { (model : FormModel) → slice_get (models_of_forms forms.now.list.items) form ≡ Some model →
        AreConditionReads (known_patterns known.now) model.pattern result }
{
    match forms.list.get(form) {
        Some(form) => condition_registers(known, form.pattern),
        None => 0,
    }
}

// The block of a test's operands, and its branch.
fn test_block(
    alloc: Global,
    program: &PlannedProgram<'_>,
    books: &mut [Book],
    job: &Job,
    chosen: &JobCover,
) -> Result<(PackedBlock, Branch), NoMemory>
    requires ready { AreReady program.now.modes books.old }
    requires planned { ArePlannedIn program.now.modes program.now }
    requires job { IsTestJob program.now (model_of_job job.now)
        (record { mode = 0; choice = model_of_job_cover chosen.now }) }
    ensures ready { AreReady program.now.modes books.new }
    ensures code { IfOk result (λ made. (task : Task) (isas : Isas task.netlist) →
        IsPlanning program.now.modes program.now task isas →
        IsTestCode task isas (model_of_job job.now) (record { mode = 0; choice = model_of_job_cover chosen.now })
        made.0 made.1) }
    ensures once { IfOk result (λ made. IsOnce made.0) }
{
    let modes = &program.modes;
    let known = &modes.machines[0];
    let forms = &modes.forms[0];
    let emitted = emit(
        alloc,
        forms,
        job,
        chosen.which,
        &chosen.cover,
        program.temps,
    )?;
    let after = branch_registers(known, forms, chosen.cover.form) | mode_set(modes);
    let block = pack_block(alloc, known, &mut books[0], emitted.steps.as_slice(), after)?;
    let branch = Branch {
        form: chosen.cover.form,
        setting: emitted.branch.unwrap_or(0),
    };
    Ok((block, branch))
}

// Adds the code of the block that begins at a place.
fn push_run(
    alloc: Global,
    program: &PlannedProgram<'_>,
    books: &mut [Book],
    entered: &[bool],
    at: usize,
    code: &mut BlockCode,
) -> Result<(), NoMemory>
    requires ready { AreReady program.now.modes books.old }
    requires planned { ArePlannedIn program.now.modes program.now }
    requires within { at < length program.now.flow.now }
    requires begins { continues program.now.flow.now at ≡ false }
    requires assigns { is_assign (slice_get program.now.flow.now at) ≡ true }
    requires entered { entered.now ≡ entered_places program.now.flow.now }
    requires once { AllByRecursion IsOnce code.old.blocks.items }
    requires code { AreCodedTo program.now.modes program.now at code.old.blocks.items code.old.branches.items }
    ensures ready { AreReady program.now.modes books.new }
    ensures once { OnOk result (AllByRecursion IsOnce code.new.blocks.items) }
    ensures code { OnOk result (AreCodedTo program.now.modes program.now (at + 1)
        code.new.blocks.items code.new.branches.items) }
{
    let count = block_length(program.flow, entered, at);
    let block = cut_block(alloc, program, books, at, count)?;
    code.blocks.push(block)?;
    Ok(())
}

// Adds the code of the test of the tree with this number.
fn push_test(
    alloc: Global,
    program: &PlannedProgram<'_>,
    books: &mut [Book],
    at: usize,
    tree: u32,
    code: &mut BlockCode,
) -> Result<(), NoMemory>
    requires ready { AreReady program.now.modes books.old }
    requires planned { ArePlannedIn program.now.modes program.now }
    requires once { AllByRecursion IsOnce code.old.blocks.items }
    requires code { AreCodedTo program.now.modes program.now at code.old.blocks.items code.old.branches.items }
    requires place { IsTestAt program.now at tree }
    ensures ready { AreReady program.now.modes books.new }
    ensures once { OnOk result (AllByRecursion IsOnce code.new.blocks.items) }
    ensures code { OnOk result (AreCodedTo program.now.modes program.now (at + 1)
        code.new.blocks.items code.new.branches.items) }
{
    let job = &program.jobs[tree as usize];
    let chosen = &program.plans[tree as usize].cover;
    let (block, branch) = test_block(alloc, program, books, job, chosen)?;
    code.blocks.push(block)?;
    code.branches.push(branch)?;
    Ok(())
}

// Adds the code of the block or test that begins at a place of the flow, if one does.
fn push_code(
    alloc: Global,
    program: &PlannedProgram<'_>,
    books: &mut [Book],
    entered: &[bool],
    at: usize,
    code: &mut BlockCode,
) -> Result<(), NoMemory>
    requires ready { AreReady program.now.modes books.old }
    requires planned { ArePlannedIn program.now.modes program.now }
    requires within { at < length program.now.flow.now }
    requires entered { entered.now ≡ entered_places program.now.flow.now }
    requires once { AllByRecursion IsOnce code.old.blocks.items }
    requires code { AreCodedTo program.now.modes program.now at code.old.blocks.items code.old.branches.items }
    ensures ready { AreReady program.now.modes books.new }
    ensures once { OnOk result (AllByRecursion IsOnce code.new.blocks.items) }
    ensures code { OnOk result (AreCodedTo program.now.modes program.now (at + 1)
        code.new.blocks.items code.new.branches.items) }
{
    match program.flow[at] {
        Flow::Assign(_) => {
            if continues(program.flow, entered, at) {
                return Ok(());
            }
            push_run(alloc, program, books, entered, at, code)?;
            Ok(())
        }
        Flow::Test { tree, .. } => {
            push_test(alloc, program, books, at, tree, code)?;
            Ok(())
        }
        Flow::Jump(_) | Flow::End => Ok(()),
    }
}

/// The code of all blocks and tests of a program.
pub(crate) fn block_code(
    alloc: Global,
    program: &PlannedProgram<'_>,
    books: &mut [Book],
) -> Result<BlockCode, NoMemory>
    requires ready { AreReady program.now.modes books.old }
    requires planned { ArePlannedIn program.now.modes program.now }
    ensures ready { AreReady program.now.modes books.new }
    ensures once { IfOk result (λ code. AllByRecursion IsOnce code.blocks.items) }
    ensures code { IfOk result (λ code. AreCodedTo program.now.modes program.now
        (length program.now.flow.now) code.blocks.items code.branches.items) }
{
    let entered = entered(alloc, program.flow)?;
    let mut code = BlockCode {
        blocks: Vec::new(alloc),
        branches: Vec::new(alloc),
    };
    for at in 0..program.flow.len() {
        push_code(alloc, program, books, &entered, at, &mut code)?;
    }
    Ok(code)
}
