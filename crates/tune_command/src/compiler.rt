//! From the two texts to the image's.

ghost use Rattle.std.specs.Prelude.{◌<◌, ◌^◌, IfOk, IfErr, length};
ghost use Rattle.isa_extract.specs.Extraction.{AreIsas};
ghost use Rattle.right_code.specs.Tasks.{read_task};
ghost use Rattle.compile_command.specs.Read.{AreChecked};
ghost use Rattle.tune_command.specs.Tuned.{IsTuned, IsTunedFor, IsTunedTaskFault, IsTuneFault};

use code_gen::tuned_image_of;
use code_model::Image;
use compile_command::{CompileFault, lowered, read, text};
use isa_extract::Isa;
use net_model::Modes;
use rec_bits::Items;
use src_model::Typed;
use std::alloc::Global;

// The image of the program for the netlist, by equal trees.
fn image_for(
    alloc: Global,
    modes: &Modes,
    isas: Items<Isa>,
    typed: &Typed,
) -> Result<Image, CompileFault>
    requires checked { AreChecked modes.now typed.now }
    requires isas { AreIsas modes.now.bases isas }
    ensures image { IfOk result (λ image. IsTunedFor image (read_task modes.now typed.now)) }
    ensures refused { IfErr result (IsTunedTaskFault (read_task modes.now typed.now)) }
{
    let lowered = lowered(alloc, modes, typed)?;
    let image = tuned_image_of(alloc, modes, isas, typed, lowered.places, lowered.blocks)?;
    Ok(image)
}

/// The text of an image of the program that `src` is, for the netlist that `net` is, by equal trees:
/// right code for the program as it is written.
pub fn tune(alloc: Global, net: &[u8], src: &[u8]) -> Result<Vec<u8>, CompileFault>
    requires net { length net.now < 2 ^ 32 }
    requires src { length src.now < 2 ^ 32 }
    ensures right { IfOk result (λ text. IsTuned net.now src.now text.items) }
    ensures refused { IfErr result (IsTuneFault net.now src.now) }
{
    let (modes, isas, typed) = read(alloc, net, src)?;
    let image = image_for(alloc, &modes, isas, &typed)?;
    let text = text(alloc, &modes, &image)?;
    Ok(text)
}
