//! From the three texts to the image's.

ghost use Rattle.std.specs.Prelude.{◌≡◌, ◌<◌, ◌≤◌, ◌-◌, ◌^◌, IfOk, IfErr, None, length};
ghost use Rattle.std.specs.List.{AllByRecursion};
ghost use Rattle.net_model.specs.Nets.{memory_width};
ghost use Rattle.isa_extract.specs.Extraction.{AreIsas};
ghost use Rattle.isa_extract.specs.Taken.{IsViewedModes};
ghost use Rattle.src_model.specs.Rules.{first_fault};
ghost use Rattle.src_model.specs.Written.{model_of_program};
ghost use Rattle.src_front.specs.Fronts.{AreNamed, IsSrcFile};
ghost use Rattle.code_model.specs.ImageFits.{IsFitting, PlaceFits, limits_of};
ghost use Rattle.src_trees.specs.Flows.{program_flow};
ghost use Rattle.src_trees.specs.Held.{HoldsVars, LieWithin};
ghost use Rattle.src_trees.specs.Jobs.{models_of_jobs};
ghost use Rattle.dual_bank.specs.Banked.{jobs_of_banked, joined_memory};
ghost use Rattle.dual_bank.specs.Layouts.{FitsBanks, bank_cells, bank_layout, memory_need, IsBankFault};
ghost use Rattle.dual_bank.specs.Parts.{IsPart};
ghost use Rattle.dual_command.specs.Code.{IsDualCode, IsDualTaskFault, IsRightDualFor};
ghost use Rattle.dual_command.specs.Compiled.{IsBankedNetFault, IsDualCompiled, IsDualFault};
ghost use Rattle.dual_command.specs.Inner.Faults.{IsToldFault};
ghost use Rattle.dual_command.specs.Inner.Viewed.{HasSeen, OfSeen, task_of, view_bank, view_bits};

use crate::fault::DualFault;
use binding::BindFault;
use code_gen::{addr_width, image_of};
use code_model::{Image, Places};
use compile_command::{CompileFault, program, text};
use dual_bank::{banked, bind_banks, part};
use form_model::Blocks;
use isa_extract::{Isa, read_viewed};
use net_model::Modes;
use rec_bits::{Items, NoMemory};
use src_model::Typed;
use src_trees::lower;
use std::alloc::Global;

/// The view of the netlist that `net` is, which has a bank and keeps all rules, and what is
/// extracted from it. The refusals are `NetText` and `Net`, and want of memory.
pub fn view(alloc: Global, net: &[u8]) -> Result<(Modes, Items<Isa>), CompileFault>
    requires { length net.now < 2 ^ 32 }
    ensures found { IfOk result (λ both. IsViewedModes net.now both.0) }
    ensures isas { IfOk result (λ both. AreIsas both.0.bases both.1) }
    ensures refused { IfErr result (IsBankedNetFault net.now) }
{
    let both = read_viewed(alloc, net)?;
    Ok(both)
}

// The program that `source` is, checked for words of `width` bits, and for each of its variables
// whether `named` has its name.
fn program_in_parts(
    alloc: Global,
    source: &[u8],
    named: &[u8],
    width: u8,
) -> Result<(Typed, Vec<bool>), DualFault>
    requires source { length source.now < 2 ^ 32 }
    requires named { length named.now < 2 ^ 32 }
    requires some { 1 ≤ width }
    requires most { width ≤ 64 }
    ensures found { IfOk result (λ both. IsSrcFile source.now width (model_of_program both.0.program)) }
    ensures width { IfOk result (λ both. both.0.width ≡ width) }
    ensures part { IfOk result (λ both. IsPart both.0.program.vars named.now both.1.items) }
    ensures refused { IfErr result (IsToldFault source.now named.now width) }
{
    let typed = program(alloc, source, width)?;
    let in_bank = part(alloc, named, &typed)?;
    Ok((typed, in_bank))
}

// The number of bits of an address of the memory, and the number of the bank's cells.
#[derive(Clone, Copy)]
struct Sizes {
    addr_width: u8,
    bank: u32,
}

// The sizes of both memories, where one in place of both has addresses of so many bits and so many
// cells.
fn sizes_in(addr_width: u8, cells: u32) -> Sizes
    requires some { 2 ≤ addr_width }
    requires narrow { addr_width ≤ 16 }
    requires first { 2 ^ (addr_width - 1) ≤ cells }
    ensures addr_width { result.addr_width ≡ addr_width - 1 }
    ensures bank { result.bank ≡ cells - 2 ^ (addr_width - 1) }
{
    let addr_width = addr_width - 1;
    Sizes {
        addr_width,
        bank: cells - (1 << addr_width),
    }
}

// Those of the netlist of which this is the view.
fn sizes_of(modes: &Modes) -> Sizes
    requires { HasSeen modes.now }
    ensures addr_width { result.addr_width ≡ view_bits modes.now.netlist }
    ensures bank { result.bank ≡ view_bank modes.now.netlist }
    ensures some { 1 ≤ result.addr_width }
    ensures narrow { result.addr_width ≤ 15 }
    ensures least { result.bank ≤ 2 ^ result.addr_width }
{
    let first = modes.first();
    sizes_in(addr_width(first), first.memory_size())
}

// The places of the program's variables in both memories.
fn places(
    alloc: Global,
    modes: &Modes,
    typed: &Typed,
    in_bank: &Vec<bool>,
) -> Result<Places, BindFault>
    requires seen { HasSeen modes.now }
    requires few { length typed.now.program.vars < 2 ^ 32 }
    requires flags { length in_bank.now.items ≡ length typed.now.program.vars }
    ensures places { IfOk result (λ places. places ≡ bank_layout typed.now.width (view_bits modes.now.netlist)
        in_bank.now.items (model_of_program typed.now.program)) }
    ensures memory { IfOk result (λ _. memory_need typed.now.width in_bank.now.items (model_of_program typed.now.program)
        ≤ 2 ^ view_bits modes.now.netlist) }
    ensures enough { IfOk result (λ _. bank_cells in_bank.now.items typed.now.program.vars
        ≤ view_bank modes.now.netlist) }
    ensures refused { IfErr result (IsBankFault
        (memory_need typed.now.width in_bank.now.items (model_of_program typed.now.program)) (2 ^ view_bits modes.now.netlist)
        (bank_cells in_bank.now.items typed.now.program.vars) (view_bank modes.now.netlist)) }
{
    let sizes = sizes_of(modes);
    bind_banks(alloc, typed, in_bank, sizes.addr_width, sizes.bank)
}

// The flow and the jobs of the program, whose variables stand at these places.
fn jobs(alloc: Global, modes: &Modes, typed: &Typed, places: &Places) -> Result<Blocks, NoMemory>
    requires seen { HasSeen modes.now }
    requires held { HoldsVars places.now.temps (model_of_program typed.now.program).vars
        (joined_memory typed.now.width (view_bits modes.now.netlist) places.now.list) }
    requires few { LieWithin places.now.temps (2 ^ 32) places.now.list }
    ensures flow { IfOk result (λ blocks. blocks.flow ≡ program_flow (model_of_program typed.now.program)) }
    ensures jobs { IfOk result (λ blocks. models_of_jobs blocks.jobs.items ≡ jobs_of_banked (view_bits modes.now.netlist)
        (joined_memory typed.now.width (view_bits modes.now.netlist) places.now.list) (model_of_program typed.now.program)) }
{
    let addr_width = sizes_of(modes).addr_width;
    let blocks = lower(alloc, typed, places, addr_width + 1)?;
    banked(alloc, blocks, addr_width)
}

// The image of the program for the netlist of which this is the view: right code.
fn image_for(
    alloc: Global,
    modes: &Modes,
    isas: Items<Isa>,
    typed: &Typed,
    in_bank: &Vec<bool>,
) -> Result<Image, CompileFault>
    requires seen { HasSeen modes.now }
    requires isas { AreIsas modes.now.bases isas }
    requires width { typed.now.width ≡ memory_width modes.now.netlist.storages }
    requires program { first_fault typed.now.width (model_of_program typed.now.program) ≡ None }
    requires few { length typed.now.program.vars < 2 ^ 32 }
    requires named { AreNamed typed.now.program.vars }
    requires flags { length in_bank.now.items ≡ length typed.now.program.vars }
    ensures image { IfOk result (λ image. OfSeen modes.now (λ n.
        IsRightDualFor image (task_of n typed.now in_bank.now.items))) }
    ensures fits { IfOk result (IsFitting (limits_of modes.now.netlist)) }
    ensures refused { IfErr result (λ fault. OfSeen modes.now (λ n.
        IsDualTaskFault (task_of n typed.now in_bank.now.items) fault)) }
{
    let places = places(alloc, modes, typed, in_bank)?;
    let blocks = jobs(alloc, modes, typed, &places)?;
    let image = image_of(alloc, modes, isas, typed, places.list, blocks)?;
    Ok(image)
}

// The text of that image.
fn text_for(
    alloc: Global,
    modes: &Modes,
    isas: Items<Isa>,
    typed: &Typed,
    in_bank: &Vec<bool>,
) -> Result<Vec<u8>, CompileFault>
    requires seen { HasSeen modes.now }
    requires isas { AreIsas modes.now.bases isas }
    requires width { typed.now.width ≡ memory_width modes.now.netlist.storages }
    requires program { first_fault typed.now.width (model_of_program typed.now.program) ≡ None }
    requires few { length typed.now.program.vars < 2 ^ 32 }
    requires named { AreNamed typed.now.program.vars }
    requires flags { length in_bank.now.items ≡ length typed.now.program.vars }
    ensures text { IfOk result (λ text. OfSeen modes.now (λ n.
        IsDualCode text.items (task_of n typed.now in_bank.now.items))) }
    ensures refused { IfErr result (λ fault. OfSeen modes.now (λ n.
        IsDualTaskFault (task_of n typed.now in_bank.now.items) fault)) }
{
    let image = image_for(alloc, modes, isas, typed, in_bank)?;
    let text = text(alloc, modes, &image)?;
    Ok(text)
}

/// The text of the image of the program that `src` is, for the netlist that `net` is, which has a
/// bank: right code for it, where the variables that `named` names stand in the bank.
pub fn dual(alloc: Global, net: &[u8], src: &[u8], named: &[u8]) -> Result<Vec<u8>, DualFault>
    requires net { length net.now < 2 ^ 32 }
    requires src { length src.now < 2 ^ 32 }
    requires named { length named.now < 2 ^ 32 }
    ensures right { IfOk result (λ text. IsDualCompiled net.now src.now named.now text.items) }
    ensures refused { IfErr result (IsDualFault net.now src.now named.now) }
{
    let (modes, isas) = view(alloc, net)?;
    let (typed, in_bank) = program_in_parts(alloc, src, named, modes.first().memory_width())?;
    let text = text_for(alloc, &modes, isas, &typed, &in_bank)?;
    Ok(text)
}
