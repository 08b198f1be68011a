//! From nothing but zeros to the end mark.

ghost use Rattle.std.specs.Prelude.{◌≡◌, IfOk, None};
ghost use Rattle.std.specs.List.{AllByRecursion};
ghost use Rattle.net_model.specs.MemoryText.{blank};
ghost use Rattle.net_model.specs.Widths.{IsState, WordFits};
ghost use Rattle.code_model.specs.ImageFits.{AreMarksAfter};
ghost use Rattle.code_model.specs.Machine.{IsCalm};
ghost use Rattle.code_model.specs.Places.{words_of};
ghost use Rattle.make_command.specs.Stops.{IsAtEnd, RunsOn, StandsAt, StopsAt};

use crate::marks::end_address;
use code_model::{Image, words_of};
use cycle_sim::{Clocked, ModeSim};
use net_model::{Modes, State};
use rec_bits::{NoMemory, ParseFault};
use state_text::read_state;
use std::alloc::Global;

// Clocks until the program counter stands at an address, or `most` times where it doesn't, and
// tells how many clocks that took.
fn clock_to(sim: &mut ModeSim<'_>, address: Option<u64>, most: u32) -> u32
    requires { RunsOn sim.old.netlist sim.old.words (StandsAt sim.old.netlist address) most sim.old.state }
    ensures netlist { sim.new.netlist ≡ sim.old.netlist }
    ensures stops { StopsAt sim.old.netlist sim.old.words (StandsAt sim.old.netlist address)
        sim.old.state most result sim.new.state }
{
    for clocks in 0..most {
        if address == Some(sim.pc()) {
            return clocks;
        }
        match sim.clock() {
            Clocked::Stepped => {}
            Clocked::Clash(_) => unreachable!(),
        }
    }
    most
}

// The state that the empty memory text sets.
pub(crate) fn blank(alloc: Global, modes: &Modes) -> Result<State, NoMemory>
    ensures zeros { IfOk result (λ state. state ≡ blank modes.now.netlist.storages) }
    ensures starts { IfOk result (IsCalm modes.now.netlist 0) }
{
    match read_state(alloc, b"", modes.first(), None) {
        Ok(state) => Ok(state),
        Err(ParseFault::Memory) => Err(NoMemory),
        Err(ParseFault::Text(_)) => unreachable!(),
    }
}

// Clocks the netlist on an image's words up to the end mark, or `most` times where it doesn't come
// to it; how many clocks that took, and what they left.
pub(crate) fn run_image<'a>(
    alloc: Global,
    modes: &'a Modes,
    image: &Image,
    start: State,
    most: u32,
) -> Result<(u32, ModeSim<'a>), NoMemory>
    requires words { AllByRecursion (WordFits modes.now.netlist) (words_of image.now) }
    requires marks { AreMarksAfter None image.now.marks }
    requires start { IsState modes.now.netlist start }
    requires clean { RunsOn modes.now.netlist (words_of image.now)
        (IsAtEnd modes.now.netlist image.now) most start }
    ensures { IfOk result (λ ended. StopsAt modes.now.netlist (words_of image.now)
        (IsAtEnd modes.now.netlist image.now) start most ended.0 ended.1.state) }
{
    let words = words_of(alloc, image)?;
    let mut sim = ModeSim::new(alloc, modes, words, start)?;
    let clocks = clock_to(&mut sim, end_address(image.marks.as_slice()), most);
    Ok((clocks, sim))
}
