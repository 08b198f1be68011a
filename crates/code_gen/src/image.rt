//! The image of a program for a netlist.

ghost use Rattle.std.specs.Prelude.{◌≡◌, ◌+◌, ◌≤◌, ◌<◌, ◌^◌, [], ◌∷◌, ◌++◌, IfOk, IfErr, OnOk, length, map};
ghost use Rattle.std.specs.List.{AllByRecursion};
ghost use Rattle.code_model.specs.ImageFits.{CostFits, IsFitting, PlaceFits, limits_of};
ghost use Rattle.branch_fix.specs.Bounds.{bound_of, control_words, sum_of};
ghost use Rattle.branch_fix.specs.Laid.{IsLaid, outline};
ghost use Rattle.compaction.specs.declared.packer.PackedBlock.{PackedBlock as TheBlock};
ghost use Rattle.right_code.specs.Images.{IsRightImage};
ghost use Rattle.right_code.specs.Tasks.{IsChecked, Task};
ghost use Rattle.isa_extract.specs.Extraction.{AreIsas};
ghost use Rattle.isa_extract.specs.declared.netlists.Isa.{Isa as TheIsa};
ghost use Rattle.code_gen.specs.Inner.Planning.{AddsOperations, AreMachinesOf, AreOperations, AreReady, AreReadyAll, AreViews, IsView, costs_in, reach_at};
ghost use Rattle.code_gen.specs.Inner.Imaged.{AreCodedIn, HasTask, IsImageMade, IsLengthFault, IsTaskImage, OfCoded, OfTask, placed_task};
ghost use Rattle.code_gen.specs.Inner.Spelling.{AreBlocksIn, IsSpelledFault, MayBeSpelled, MaySpell, OfSpelled, SpelledSo};
ghost use Rattle.code_gen.specs.Refusals.{IsCodeFault, IsReached};
ghost use Rattle.code_gen.specs.Spelled.{HasSpelling, IsPlain, IsRightByEqualTrees, IsTunedFault};
ghost use Rattle.code_gen.specs.Tasks.{coded_task};

use crate::blocks::block_code;
use crate::covers::{cost_lines, costs_of, plans_of};
use crate::cuts::mode_set;
use crate::fault::CodeFault;
use crate::modes::{forms_by_mode, passages, usable_modes};
use crate::spelling::{Spelling, respelled};
use crate::views::{Modes, Operations, PlacedProgram, PlannedProgram};
use crate::words::words_of_items;
use bit_bdd::Book;
use branch_fix::{Branch, Laid, LayFault, Outline, bound, lay_out};
use code_model::{Image, Place, Places};
use compaction::{KnownMachine, PackedBlock, tables_of};
use form_model::{Blocks, Forms};
use isa_extract::Isa as Extracted;
use net_model::{Checked, Modes as NetModes};
use rec_bits::{Items, NoMemory};
use src_model::Typed;
use std::alloc::Global;
use transfer_set::Machine;

// How many words each block has.
fn sizes_of(alloc: Global, blocks: &[PackedBlock]) -> Result<Items<u32>, NoMemory>
    ensures { IfOk result (λ sizes. sizes ≡ map (λ (block : TheBlock). length block.words) blocks.now) }
{
    let mut sizes = Items::new(alloc);
    for block in blocks {
        match u32::try_from(block.words.len()) {
            Ok(size) => sizes.push(size)?,
            Err(_) => return Err(NoMemory),
        }
    }
    Ok(sizes)
}

// The layout of blocks with these numbers of words and of tests with these branches, where jumps
// reach as far as the bound.
fn laid(
    alloc: Global,
    forms: &Forms,
    program: &PlannedProgram<'_>,
    sizes: &[u32],
    branches: &[Branch],
    bound: u64,
) -> Result<Laid, NoMemory>
    requires within { sum_of sizes.now + control_words program.now.flow.now ≤ bound }
    requires reach { bound ≤ forms.now.reach }
    ensures { IfOk result (IsLaid (outline program.now.flow.now sizes.now branches.now
        forms.now 18446744073709551615 bound)) }
{
    let outline = Outline {
        flow: program.flow,
        sizes,
        branches,
        forms,
        // How long the code may be is asked of the image, so there is room here for every length.
        words: u64::MAX,
        bound,
    };
    match lay_out(alloc, &outline) {
        Ok(laid) => Ok(laid),
        Err(LayFault::Memory) => Err(NoMemory),
        Err(_) => unreachable!(),
    }
}

// The image of a program whose jumps reach as far as its bound.
fn laid_image(
    alloc: Global,
    program: &PlannedProgram<'_>,
    books: &mut [Book],
    places: Places,
    costs: &[u32],
    bound: u64,
) -> Result<Image, NoMemory>
    requires ready { AreReady program.now.modes books.old }
    requires task { HasTask program.now.modes program.now places }
    requires costs { costs.now ≡ costs_in program.now }
    requires few { length costs.now < 2 ^ 32 }
    requires bound { bound ≡ bound_of program.now.flow.now costs.now }
    requires reach { bound ≤ reach_at program.now.modes 0 }
    ensures made { IfOk result (λ image. OfTask program.now.modes program.now places (IsImageMade image)) }
    ensures costs { IfOk result (λ image. AllByRecursion CostFits image.costs) }
{
    let modes = &program.modes;
    let code = block_code(alloc, program, books)?;
    let sizes = sizes_of(alloc, &code.blocks)?;
    let laid = laid(
        alloc,
        &modes.forms[0],
        program,
        sizes.as_slice(),
        &code.branches,
        bound,
    )?;
    let known = &modes.machines[0];
    let words = words_of_items(
        alloc,
        known,
        &mut books[0],
        &code.blocks,
        mode_set(modes),
        laid.items.as_slice(),
    )?;
    let costs = cost_lines(alloc, costs)?;
    Ok(Image {
        bits: known.machine.checked.netlist().word_width(),
        temps: places.temps,
        places: places.list,
        costs,
        marks: laid.marks,
        words,
    })
}

// The image of a program whose jobs are covered, where jumps reach far enough and the code has room
// for it.
fn covered_image(
    alloc: Global,
    program: &PlannedProgram<'_>,
    books: &mut [Book],
    places: Places,
) -> Result<Image, CodeFault>
    requires ready { AreReady program.now.modes books.old }
    requires task { HasTask program.now.modes program.now places }
    requires few { length program.now.plans.now < 2 ^ 31 }
    requires places { length program.now.flow.now ≤ 2 ^ 32 }
    requires named { AllByRecursion PlaceFits places.list }
    ensures right { IfOk result (λ image. OfTask program.now.modes program.now places (IsTaskImage image)) }
    ensures fits { IfOk result (λ image. OfTask program.now.modes program.now places
        (λ (task : Task). IsFitting (limits_of task.netlist) image)) }
    ensures refused { IfErr result (λ fault. OfTask program.now.modes program.now places (IsLengthFault fault)) }
{
    let modes = &program.modes;
    let costs = costs_of(alloc, program.plans)?;
    let bound = bound(program.flow, costs.as_slice());
    let reach = modes.forms[0].reach;
    if bound > reach {
        return Err(CodeFault::NoReach { bound, reach });
    }
    let image = laid_image(alloc, program, books, places, costs.as_slice(), bound)?;
    let len = image.words.len() as u64;
    let known = &modes.machines[0];
    let size = u64::from(known.machine.checked.netlist().code_size());
    if len > size {
        // as one step, where its parts would be let go one by one
        drop(image);
        return Err(CodeFault::ImageFull { len, size, bound });
    }
    Ok(image)
}

// Adds the book of a mode to those of the modes before, and apart from it its patterns with what
// they read.
fn push_apart(
    alloc: Global,
    isa: Extracted,
    books: &mut Vec<Book>,
    rest: &mut Vec<Operations>,
) -> Result<(), NoMemory>
    ensures book { OnOk result (books.new.items ≡ books.old.items ++ isa.book ∷ []) }
    ensures rest { OnOk result (AddsOperations isa rest.old.items rest.new.items) }
{
    let tables = tables_of(alloc, &isa.pool)?;
    books.push(isa.book)?;
    rest.push(Operations {
        pool: isa.pool,
        patterns: isa.patterns,
        tables,
    })?;
    Ok(())
}

// The parts of what is extracted in each mode: the books apart from the rest.
fn apart(
    alloc: Global,
    extracted: Items<Extracted>,
) -> Result<(Vec<Book>, Vec<Operations>), NoMemory>
    ensures books { IfOk result (λ both. both.0.items ≡ map (λ (isa : TheIsa). isa.book) extracted) }
    ensures rest { IfOk result (λ both. AreOperations extracted both.1.items) }
{
    let mut books = Vec::new(alloc);
    let mut rest = Vec::new(alloc);
    for isa in extracted.into_vec() {
        push_apart(alloc, isa, &mut books, &mut rest)?;
    }
    Ok((books, rest))
}

// What a netlist is in a mode, as code is made for it.
fn machine_of<'a>(checked: &'a Checked, operations: &'a Operations) -> KnownMachine<'a>
    ensures { IsView checked.now operations.now result }
{
    KnownMachine {
        machine: Machine {
            checked,
            pool: &operations.pool,
            patterns: &operations.patterns,
        },
        registers: operations.tables.registers.as_slice(),
        memory: operations.tables.memory.as_slice(),
    }
}

// What a netlist is in its modes.
fn machines_of<'a>(
    alloc: Global,
    bases: &'a [Checked],
    rest: &'a [Operations],
) -> Result<Vec<KnownMachine<'a>>, NoMemory>
    requires { length bases.now ≡ length rest.now }
    ensures { IfOk result (λ machines. AreViews bases.now rest.now machines.items) }
{
    let mut machines = Vec::new(alloc);
    for (checked, operations) in bases.iter().zip(rest) {
        machines.push(machine_of(checked, operations))?;
    }
    Ok(machines)
}

// The image of a program with these jobs, for what a netlist is in its modes.
fn planned_image(
    alloc: Global,
    modes: &Modes<'_>,
    books: &mut [Book],
    places: Places,
    blocks: &Blocks,
) -> Result<Image, CodeFault>
    requires ready { AreReady modes.now books.old }
    requires coded { AreCodedIn modes.now modes.now.usable.now places blocks.now }
    requires named { AllByRecursion PlaceFits places.list }
    ensures right { IfOk result (λ image. OfCoded modes.now modes.now.usable.now places blocks.now
        (λ (task : Task). IsRightImage task image)) }
    ensures fits { IfOk result (λ image. OfCoded modes.now modes.now.usable.now places blocks.now
        (λ (task : Task). IsFitting (limits_of task.netlist) image)) }
    ensures reached { IfOk result (λ _. OfCoded modes.now modes.now.usable.now places blocks.now IsReached) }
    ensures refused { IfErr result (λ fault. OfCoded modes.now modes.now.usable.now places blocks.now
        (λ (task : Task). IsCodeFault task fault)) }
{
    let plans = plans_of(alloc, modes.forms, modes.usable, &blocks.jobs, places.temps)?;
    let program = PlannedProgram {
        modes: *modes,
        temps: places.temps,
        flow: blocks.flow.as_slice(),
        jobs: &blocks.jobs,
        plans: &plans,
    };
    covered_image(alloc, &program, books, places)
}

// The flow and the jobs of a program in this spelling.
fn spelled(
    alloc: Global,
    modes: &Modes<'_>,
    temps: u32,
    blocks: Blocks,
    spelling: Spelling,
) -> Result<Blocks, NoMemory>
    requires modes { length modes.now.usable.now ≡ length modes.now.forms.now }
    requires machines { 0 < length modes.now.machines.now }
    ensures { IfOk result (AreBlocksIn spelling modes.now modes.now.usable.now temps blocks) }
{
    match spelling {
        Spelling::Own => Ok(blocks),
        Spelling::Equal => {
            let known = &modes.machines[0];
            let cell = known.machine.checked.memory_width();
            respelled(alloc, modes.forms, modes.usable, temps, cell, blocks)
        }
    }
}

// The image of a program with these jobs in this spelling, for what a netlist is in its modes.
fn spelled_image(
    alloc: Global,
    modes: &Modes<'_>,
    books: &mut [Book],
    places: Places,
    blocks: Blocks,
    spelling: Spelling,
) -> Result<Image, CodeFault>
    requires ready { AreReady modes.now books.old }
    requires coded { MayBeSpelled spelling modes.now modes.now.usable.now places blocks }
    requires named { AllByRecursion PlaceFits places.list }
    ensures right { IfOk result (λ image. OfSpelled spelling modes.now modes.now.usable.now places blocks
        (SpelledSo spelling (λ (task : Task). IsRightImage task image))) }
    ensures fits { IfOk result (λ image. OfSpelled spelling modes.now modes.now.usable.now places blocks
        (λ (task : Task). IsFitting (limits_of task.netlist) image)) }
    ensures reached { IfOk result (λ _. OfSpelled spelling modes.now modes.now.usable.now places blocks
        (SpelledSo spelling IsReached)) }
    ensures refused { IfErr result (λ fault. OfSpelled spelling modes.now modes.now.usable.now places blocks
        (IsSpelledFault spelling fault)) }
{
    let blocks = spelled(alloc, modes, places.temps, blocks, spelling)?;
    planned_image(alloc, modes, books, places, &blocks)
}

// The image of a program for what a netlist is in its modes.
fn image_for(
    alloc: Global,
    modes: &NetModes,
    machines: &[KnownMachine<'_>],
    books: &mut [Book],
    program: PlacedProgram<'_>,
    spelling: Spelling,
) -> Result<Image, CodeFault>
    requires machines { AreMachinesOf machines.now modes.now.netlist }
    requires ready { AreReadyAll machines.now books.old }
    requires checked { IsChecked (placed_task modes.now.netlist program) }
    requires plain { MaySpell spelling (placed_task modes.now.netlist program) }
    requires named { AllByRecursion PlaceFits program.places }
    ensures right { IfOk result (λ image. SpelledSo spelling (λ (task : Task). IsRightImage task image)
        (placed_task modes.now.netlist program.entry)) }
    ensures fits { IfOk result (IsFitting (limits_of modes.now.netlist)) }
    ensures reached { IfOk result (λ _. SpelledSo spelling IsReached (placed_task modes.now.netlist program.entry)) }
    ensures refused { IfErr result (λ fault. IsSpelledFault spelling fault
        (placed_task modes.now.netlist program.entry)) }
{
    let netlist = modes.netlist();
    let forms = forms_by_mode(alloc, machines, books, netlist)?;
    let usable = usable_modes(alloc, &forms, netlist)?;
    let passages = passages(alloc, machines, books, &forms, netlist)?;
    let view = Modes {
        machines,
        forms: &forms.kept,
        special: netlist.special,
        usable: &usable,
        passages: &passages,
    };
    let PlacedProgram {
        typed,
        places,
        blocks,
    } = program;
    let places = Places {
        temps: typed.temps(),
        list: places,
    };
    spelled_image(alloc, &view, books, places, blocks, spelling)
}

// The image of a program in this spelling, whose variables stand at these places.
fn coded_image(
    alloc: Global,
    modes: &NetModes,
    extracted: Items<Extracted>,
    program: PlacedProgram<'_>,
    spelling: Spelling,
) -> Result<Image, CodeFault>
    requires isas { AreIsas modes.now.bases extracted }
    requires checked { IsChecked (placed_task modes.now.netlist program) }
    requires plain { MaySpell spelling (placed_task modes.now.netlist program) }
    requires named { AllByRecursion PlaceFits program.places }
    ensures right { IfOk result (λ image. SpelledSo spelling (λ (task : Task). IsRightImage task image)
        (placed_task modes.now.netlist program.entry)) }
    ensures fits { IfOk result (IsFitting (limits_of modes.now.netlist)) }
    ensures reached { IfOk result (λ _. SpelledSo spelling IsReached (placed_task modes.now.netlist program.entry)) }
    ensures refused { IfErr result (λ fault. IsSpelledFault spelling fault
        (placed_task modes.now.netlist program.entry)) }
{
    let (mut books, rest) = apart(alloc, extracted)?;
    let machines = machines_of(alloc, modes.bases(), &rest)?;
    image_for(alloc, modes, &machines, &mut books, program, spelling)
}

/// The image of a program that was checked for the words of the netlist's data memory, whose
/// variables stand at these places behind its temporary cells, and whose flow and jobs are these.
/// `extracted` has the instruction set of each mode of the netlist, in their order.
pub fn image_of(
    alloc: Global,
    modes: &NetModes,
    extracted: Items<Extracted>,
    typed: &Typed,
    places: Items<Place>,
    blocks: Blocks,
) -> Result<Image, CodeFault>
    requires isas { AreIsas modes.now.bases extracted }
    requires checked { IsChecked (coded_task modes.now.netlist typed.now places blocks) }
    requires named { AllByRecursion PlaceFits places }
    ensures right { IfOk result (IsRightImage (coded_task modes.now.netlist typed.now places blocks)) }
    ensures fits { IfOk result (IsFitting (limits_of modes.now.netlist)) }
    ensures reached { IfOk result (λ _. IsReached (coded_task modes.now.netlist typed.now places blocks)) }
    ensures refused { IfErr result (IsCodeFault (coded_task modes.now.netlist typed.now places blocks)) }
{
    let program = PlacedProgram {
        typed,
        places,
        blocks,
    };
    coded_image(alloc, modes, extracted, program, Spelling::Own)
}

/// The image of such a program, whose flow and jobs are its own, by equal trees where these cost less
/// or have covers alone. Leastness isn't promised; no job costs more than in its own spelling.
pub fn tuned_image_of(
    alloc: Global,
    modes: &NetModes,
    extracted: Items<Extracted>,
    typed: &Typed,
    places: Items<Place>,
    blocks: Blocks,
) -> Result<Image, CodeFault>
    requires isas { AreIsas modes.now.bases extracted }
    requires checked { IsChecked (coded_task modes.now.netlist typed.now places blocks) }
    requires plain { IsPlain (coded_task modes.now.netlist typed.now places blocks) }
    requires named { AllByRecursion PlaceFits places }
    ensures right { IfOk result (λ image. IsRightByEqualTrees (coded_task modes.now.netlist typed.now places blocks) image) }
    ensures fits { IfOk result (IsFitting (limits_of modes.now.netlist)) }
    ensures reached { IfOk result (λ _. HasSpelling IsReached (coded_task modes.now.netlist typed.now places blocks)) }
    ensures refused { IfErr result (IsTunedFault (coded_task modes.now.netlist typed.now places blocks)) }
{
    let program = PlacedProgram {
        typed,
        places,
        blocks,
    };
    coded_image(alloc, modes, extracted, program, Spelling::Equal)
}
