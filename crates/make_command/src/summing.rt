//! From an image to what is told of it.

ghost use Rattle.std.specs.Prelude.{IfOk};
ghost use Rattle.net_model.specs.ModeRules.{KeepsModes};
ghost use Rattle.right_code.specs.Tasks.{read_task};
ghost use Rattle.compile_command.specs.Code.{IsRightFor};
ghost use Rattle.make_command.specs.Summing.{ShowsSummary};

use crate::counting::count_checkpoints;
use crate::ends::{blank, run_image};
use crate::summary::{head_lines, summary};
use code_model::Image;
use net_model::Modes;
use rec_bits::NoMemory;
use src_model::Typed;
use std::alloc::Global;

// How many clocks there are at most, and how many checkpoints are counted.
const MOST: u32 = 1_000_000;

// The summary of an image, which is right code for the program on the netlist.
pub(crate) fn summarize(
    alloc: Global,
    number: u32,
    modes: &Modes,
    typed: &Typed,
    image: &Image,
) -> Result<Vec<u8>, NoMemory>
    requires rules { KeepsModes modes.now.netlist }
    requires image { IsRightFor image.now (read_task modes.now typed.now) }
    ensures { IfOk result (λ text. ShowsSummary number (read_task modes.now typed.now) image.now text.items) }
{
    let checkpoints = count_checkpoints(alloc, typed, MOST)?;
    let start = blank(alloc, modes)?;
    let (cycles, sim) = run_image(alloc, modes, image, start, MOST)?;
    let head = head_lines(alloc, number, image.words.len(), cycles, checkpoints)?;
    let text = summary(head, image.places.as_slice(), &sim)?;
    Ok(text)
}
