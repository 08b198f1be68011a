//! From the two texts to the image's.

ghost use Rattle.std.specs.Prelude.{◌≡◌, ◌<◌, ◌≤◌, ◌^◌, IfOk, IfErr, length};
ghost use Rattle.std.specs.List.{AllByRecursion};
ghost use Rattle.net_model.specs.ModeRules.{KeepsModes};
ghost use Rattle.net_model.specs.Nets.{memory_size};
ghost use Rattle.isa_extract.specs.Extraction.{AreIsas};
ghost use Rattle.isa_extract.specs.Taken.{IsTakenModes};
ghost use Rattle.src_model.specs.Written.{model_of_program};
ghost use Rattle.src_front.specs.Fronts.{AreNamed, IsSrcFile};
ghost use Rattle.code_model.specs.ImageFits.{IsFitting, PlaceFits, limits_of};
ghost use Rattle.code_model.specs.ImageLines.{IsImageText};
ghost use Rattle.code_model.specs.Layout.{layout_of};
ghost use Rattle.code_model.specs.Places.{Apart};
ghost use Rattle.right_code.specs.Tasks.{IsChecked, read_task};
ghost use Rattle.code_gen.specs.Tasks.{coded_task};
ghost use Rattle.compile_command.specs.Code.{HasRoom, IsPlaceFault, IsRightFor, IsTaskFault};
ghost use Rattle.compile_command.specs.Read.{AreChecked, IsCompiledTo, IsRead};
ghost use Rattle.compile_command.specs.Compiled.{IsCompiled, IsCompileFault, IsNetFault, IsReadFault, IsSrcFault};
ghost use Rattle.compile_command.specs.Tasks.{compiled_edition};
ghost use Rattle.compile_command.specs.declared.fault.CompileFault.{CompileFault};

use crate::fault::CompileFault;
use binding::bind;
use code_gen::{blocks_of, image_of};
use code_model::{Image, Place, Places};
use form_model::Blocks;
use isa_extract::{Isa, read_extracted};
use net_model::Modes;
use rec_bits::{Items, NoMemory};
use src_front::read_src;
use src_model::Typed;
use std::alloc::Global;

// The newest edition of the netlist texts for which programs are compiled: those of a later one have
// a bank.
const NEWEST: u8 = 3;

/// The netlist that `net` is, which keeps all rules, in its modes, and what is extracted from each.
/// The refusals are the first two, and want of memory.
pub fn netlist(alloc: Global, net: &[u8]) -> Result<(Modes, Items<Isa>), CompileFault>
    requires { length net.now < 2 ^ 32 }
    ensures found { IfOk result (λ both. IsTakenModes compiled_edition net.now both.0) }
    ensures isas { IfOk result (λ both. AreIsas both.0.bases both.1) }
    ensures refused { IfErr result (IsNetFault net.now) }
{
    let both = read_extracted(alloc, net, NEWEST)?;
    Ok(both)
}

/// The program that `src` is, which was checked for words of `width` bits, 1 to 64. The refusals are
/// `SrcText` and `Src`, and want of memory.
pub fn program(alloc: Global, src: &[u8], width: u8) -> Result<Typed, CompileFault>
    requires short { length src.now < 2 ^ 32 }
    requires some { 1 ≤ width }
    requires most { width ≤ 64 }
    ensures found { IfOk result (λ typed. IsSrcFile src.now width (model_of_program typed.program)) }
    ensures width { IfOk result (λ typed. typed.width ≡ width) }
    ensures refused { IfErr result (IsSrcFault src.now width) }
{
    let typed = read_src(alloc, src, width)?;
    Ok(typed)
}

/// The places of the program's variables in the netlist's data memory. The refusals are `DataFull`
/// and want of memory.
pub fn places(alloc: Global, modes: &Modes, typed: &Typed) -> Result<Places, CompileFault>
    requires few { length typed.now.program.vars < 2 ^ 32 }
    requires named { AreNamed typed.now.program.vars }
    ensures places { IfOk result (λ places. places ≡ layout_of typed.now.width (model_of_program typed.now.program)) }
    ensures room { IfOk result (λ _. HasRoom (read_task modes.now typed.now)) }
    ensures apart { IfOk result (λ places. Apart places.temps places.list (memory_size modes.now.netlist.storages)) }
    ensures named { IfOk result (λ places. AllByRecursion PlaceFits places.list) }
    ensures refused { IfErr result (IsPlaceFault (read_task modes.now typed.now)) }
{
    let places = bind(alloc, typed, modes.first().memory_size())?;
    Ok(places)
}

/// A program and its image for a netlist.
#[derive(Drop)]
pub struct Compiled {
    pub modes: Modes,
    pub typed: Typed,
    pub image: Image,
}

/// The text of an image that fits the netlist. The only error is want of memory.
pub fn text(alloc: Global, modes: &Modes, image: &Image) -> Result<Vec<u8>, NoMemory>
    requires rules { KeepsModes modes.now.netlist }
    requires fits { IsFitting (limits_of modes.now.netlist) image.now }
    ensures { IfOk result (λ text. IsImageText (limits_of modes.now.netlist) text.items image.now) }
{
    image_text::write(alloc, image)
}

/// What code is made of: the places of a program's variables, and its flow and jobs.
#[derive(Drop)]
pub struct LoweredProgram {
    pub places: Items<Place>,
    pub blocks: Blocks,
}

/// What code of the program for the netlist is made of. The refusals are `DataFull` and want of
/// memory.
pub fn lowered(alloc: Global, modes: &Modes, typed: &Typed) -> Result<LoweredProgram, CompileFault>
    requires { AreChecked modes.now typed.now }
    ensures task { IfOk result (λ lowered. coded_task modes.now.netlist typed.now lowered.places lowered.blocks
        ≡ read_task modes.now typed.now) }
    ensures checked { IfOk result (λ lowered.
        IsChecked (coded_task modes.now.netlist typed.now lowered.places lowered.blocks)) }
    ensures room { IfOk result (λ _. HasRoom (read_task modes.now typed.now)) }
    ensures named { IfOk result (λ lowered. AllByRecursion PlaceFits lowered.places) }
    ensures refused { IfErr result (IsPlaceFault (read_task modes.now typed.now)) }
{
    let places = places(alloc, modes, typed)?;
    let blocks = blocks_of(alloc, modes, typed, &places)?;
    Ok(LoweredProgram {
        places: places.list,
        blocks,
    })
}

/// The image of the program for the netlist: right code. The refusals are those from `DataFull` on.
pub fn image_for(
    alloc: Global,
    modes: &Modes,
    isas: Items<Isa>,
    typed: &Typed,
) -> Result<Image, CompileFault>
    requires checked { AreChecked modes.now typed.now }
    requires isas { AreIsas modes.now.bases isas }
    ensures image { IfOk result (λ image. IsRightFor image (read_task modes.now typed.now)) }
    ensures refused { IfErr result (IsTaskFault (read_task modes.now typed.now)) }
{
    let lowered = lowered(alloc, modes, typed)?;
    let image = image_of(alloc, modes, isas, typed, lowered.places, lowered.blocks)?;
    Ok(image)
}

/// The netlist that `net` is, in its modes, with what is extracted from each, and the program that
/// `src` is, checked for its words. The refusals are the first four, and want of memory.
pub fn read(
    alloc: Global,
    net: &[u8],
    src: &[u8],
) -> Result<(Modes, Items<Isa>, Typed), CompileFault>
    requires net { length net.now < 2 ^ 32 }
    requires src { length src.now < 2 ^ 32 }
    ensures read { IfOk result (λ all. IsRead net.now src.now all.0 all.2) }
    ensures checked { IfOk result (λ all. AreChecked all.0 all.2) }
    ensures isas { IfOk result (λ all. AreIsas all.0.bases all.1) }
    ensures refused { IfErr result (IsReadFault net.now src.now) }
{
    let (modes, isas) = netlist(alloc, net)?;
    let typed = program(alloc, src, modes.first().memory_width())?;
    Ok((modes, isas, typed))
}

/// The program that `src` is, with its image for the netlist that `net` is: right code for it.
pub fn read_compiled(alloc: Global, net: &[u8], src: &[u8]) -> Result<Compiled, CompileFault>
    requires net { length net.now < 2 ^ 32 }
    requires src { length src.now < 2 ^ 32 }
    ensures compiled { IfOk result (IsCompiledTo net.now src.now) }
    ensures refused { IfErr result (IsCompileFault net.now src.now) }
{
    let (modes, isas, typed) = read(alloc, net, src)?;
    let image = image_for(alloc, &modes, isas, &typed)?;
    Ok(Compiled {
        modes,
        typed,
        image,
    })
}

/// The text of the image of the program that `src` is, for the netlist that `net` is: right code
/// for it.
pub fn compile(alloc: Global, net: &[u8], src: &[u8]) -> Result<Vec<u8>, CompileFault>
    requires net { length net.now < 2 ^ 32 }
    requires src { length src.now < 2 ^ 32 }
    ensures right { IfOk result (λ text. IsCompiled net.now src.now text.items) }
    ensures refused { IfErr result (IsCompileFault net.now src.now) }
{
    let compiled = read_compiled(alloc, net, src)?;
    let text = text(alloc, &compiled.modes, &compiled.image)?;
    Ok(text)
}
