//! What `compile` answers.

ghost use Rattle.std.specs.Prelude.{◌≡◌, ◌≢◌, ◌++◌, ◌<◌, ◌^◌, IfErr, None, OnOk, length};
ghost use Rattle.compile_command.specs.Code.{HasRightCode, HasRoom, IsTaskFault};
ghost use Rattle.compile_command.specs.declared.fault.CompileFault.TheVariants.{NoCover, NoReach, ImageFull, Memory};
ghost use Rattle.code_gen.specs.Refusals.{HasJumps};
ghost use Rattle.net_model.specs.Nets.{memory_width};
ghost use Rattle.isa_extract.specs.Extraction.{IsIsaOf};
ghost use Rattle.right_code.specs.Tasks.{read_task};
ghost use Rattle.src_front.specs.Fronts.{AreNamed};
ghost use Rattle.src_model.specs.Rules.{first_fault};
ghost use Rattle.src_model.specs.Written.{model_of_program};
ghost use Rattle.explain_command.specs.Explained.{IsEnding};
ghost use Rattle.explain_command.specs.Inner.Telling.{Adds, IsAlone};
ghost use Rattle.explain_command.specs.Lines.{end_line};

use compile_command::{CompileFault, image_for};
use isa_extract::Isa;
use net_model::Modes;
use rec_bits::{Items, NoMemory};
use src_model::Typed;
use std::alloc::Global;
use transfer_set::{add_bytes, add_number};

fn add_no_cover(text: &mut Vec<u8>, number: u32) -> Result<(), NoMemory>
    ensures { OnOk result (text.new.items ≡ text.old.items ++ end_line (NoCover number)) }
{
    add_bytes(text, b"error no cover ")?;
    add_number(text, u64::from(number))?;
    add_bytes(text, b"\n")
}

fn add_no_reach(text: &mut Vec<u8>, bound: u64, reach: u64) -> Result<(), NoMemory>
    ensures { OnOk result (text.new.items ≡ text.old.items ++ end_line (NoReach bound reach)) }
{
    add_bytes(text, b"error no reach ")?;
    add_number(text, bound)?;
    add_bytes(text, b" ")?;
    add_number(text, reach)?;
    add_bytes(text, b"\n")
}

fn add_image_full(text: &mut Vec<u8>, len: u64, size: u64, bound: u64) -> Result<(), NoMemory>
    ensures { OnOk result (text.new.items ≡ text.old.items ++ end_line (ImageFull len size bound)) }
{
    add_bytes(text, b"error image full ")?;
    add_number(text, len)?;
    add_bytes(text, b" ")?;
    add_number(text, size)?;
    add_bytes(text, b" ")?;
    add_number(text, bound)?;
    add_bytes(text, b"\n")
}

// The line of a refusal, but for want of memory.
fn add_refusal(text: &mut Vec<u8>, fault: CompileFault) -> Result<(), NoMemory>
    ensures { OnOk result ((text.new.items ≡ text.old.items ++ end_line fault) × (fault ≢ Memory)) }
{
    match fault {
        CompileFault::NoCover(number) => add_no_cover(text, number),
        CompileFault::NoReach { bound, reach } => add_no_reach(text, bound, reach),
        CompileFault::ImageFull { len, size, bound } => add_image_full(text, len, size, bound),
        CompileFault::Memory => Err(NoMemory),
        CompileFault::NetText(_)
        | CompileFault::Net(_)
        | CompileFault::SrcText(_)
        | CompileFault::Src(_)
        | CompileFault::DataFull { .. }
        | CompileFault::NoStep
        | CompileFault::NoJump => Ok(()),
    }
}

// Whether there is an image, or why there is none.
fn verdict(alloc: Global, modes: &Modes, isa: Isa, typed: &Typed) -> Result<(), CompileFault>
    requires alone { IsAlone modes.now }
    requires isa { IsIsaOf modes.now.netlist isa }
    requires width { typed.now.width ≡ memory_width modes.now.netlist.storages }
    requires program { first_fault typed.now.width (model_of_program typed.now.program) ≡ None }
    requires few { length typed.now.program.vars < 2 ^ 32 }
    requires named { AreNamed typed.now.program.vars }
    ensures right { OnOk result (HasRightCode (read_task modes.now typed.now)) }
    ensures refused { IfErr result (IsTaskFault (read_task modes.now typed.now)) }
{
    let mut isas = Items::new(alloc);
    isas.push(isa)?;
    let image = image_for(alloc, modes, isas, typed)?;
    drop(image);
    Ok(())
}

/// The line of what `compile` answers for a program that has room on a netlist with a step and a
/// jump.
pub(crate) fn add_ending(
    alloc: Global,
    text: &mut Vec<u8>,
    modes: &Modes,
    isa: Isa,
    typed: &Typed,
) -> Result<(), NoMemory>
    requires alone { IsAlone modes.now }
    requires isa { IsIsaOf modes.now.netlist isa }
    requires width { typed.now.width ≡ memory_width modes.now.netlist.storages }
    requires program { first_fault typed.now.width (model_of_program typed.now.program) ≡ None }
    requires few { length typed.now.program.vars < 2 ^ 32 }
    requires named { AreNamed typed.now.program.vars }
    requires room { HasRoom (read_task modes.now typed.now) }
    requires jumps { HasJumps (read_task modes.now typed.now) }
    ensures { OnOk result (Adds (IsEnding (read_task modes.now typed.now)) text.old.items text.new.items) }
{
    match verdict(alloc, modes, isa, typed) {
        Ok(()) => add_bytes(text, b"done\n"),
        Err(fault) => add_refusal(text, fault),
    }
}
