//! From the texts to the machine, and from its last state to the text.

ghost use Rattle.std.specs.Prelude.{◌≡◌, ◌<◌, ◌^◌, IfOk, IfErr, None, length};
ghost use Rattle.std.specs.List.{AllByRecursion};
ghost use Rattle.net_model.specs.NetFaults.{name_at};
ghost use Rattle.net_model.specs.Widths.{IsState, WordFits};
ghost use Rattle.viewed_text.specs.Texts.{IsImageRead};
ghost use Rattle.state_text.specs.Settings.{IsStartState};
ghost use Rattle.net_model.specs.MemoryText.{IsMemoryText};
ghost use Rattle.run_command.specs.Runs.{AreImageWords, IsNetRead, IsRunFault, ShowsState};
ghost use Rattle.run_command.specs.Inner.Runs.{IsEndFault, IsEndText, IsImageFault, IsNetFault, IsMemoryFaultOf, image_fault, memory_fault};
ghost use Rattle.run_command.specs.declared.machine.RunFault.{RunFault};

use crate::clocks::{Clash, clock_all};
use code_model::{Image, words_of};
use cycle_sim::ModeSim;
use net_front::{NetRefusal, read_net};
use net_model::{Modes, NetFault, State};
use rec_bits::{Items, NoMemory, ParseFault};
use state_text::{text_room, write_state};
use std::alloc::Global;

// The newest edition of the netlist texts that are run: those of a later one have a bank, and no
// clock.
const NEWEST: u8 = 3;

/// Why no state was reached.
#[derive(Clone, Copy, Debug, PartialEq, Eq)]
pub enum RunFault {
    /// The first bytes are no netlist text; the offset at which that shows.
    NetText(u64),
    /// They are one, and this is the first rule that it breaks. One with a bank is not run: it is
    /// refused by N6 where it breaks no rule that is tried before.
    Net(NetFault),
    /// The second bytes are no image text that fits the netlist; the offset of the line at fault.
    ImageText(u64),
    /// The third bytes are no memory text for the netlist; the offset of the line at fault.
    MemText(u64),
    /// Two drivers of a bus are enabled in this cycle, and in none before. The bus is told by its
    /// net, and by the offset of its name.
    Clash { cycle: u64, bus: u32, at: u64 },
    /// Want of memory.
    Memory,
}

impl From<NoMemory> for RunFault {
    ghost from_gives = { λ _ fault. fault ≡ RunFault.Memory };

    fn from(_cause: NoMemory) -> RunFault {
        RunFault::Memory
    }
}

impl From<NetRefusal> for RunFault {
    ghost from_gives = { λ refusal fault. fault ≡ net_fault refusal };

    ghost use Rattle.std.specs.Prelude.{◌≡◌};
    ghost use Rattle.run_command.specs.Inner.Runs.{net_fault};

    fn from(refusal: NetRefusal) -> RunFault {
        match refusal {
            NetRefusal::Text(at) => RunFault::NetText(at),
            NetRefusal::Fault(fault) => RunFault::Net(fault),
            NetRefusal::Memory => RunFault::Memory,
        }
    }
}

// The netlist.
fn netlist(alloc: Global, net: &[u8]) -> Result<Modes, RunFault>
    requires { length net.now < 2 ^ 32 }
    ensures found { IfOk result (IsNetRead net.now) }
    ensures refused { IfErr result (IsNetFault net.now) }
{
    let (_, modes) = read_net(alloc, net, NEWEST)?;
    Ok(modes)
}

// A fault of the image's text.
fn image_fault(fault: ParseFault) -> RunFault
    ensures { result ≡ image_fault fault }
{
    match fault {
        ParseFault::Text(at) => RunFault::ImageText(at),
        ParseFault::Memory => RunFault::Memory,
    }
}

// A fault of the memory's text.
fn memory_fault(fault: ParseFault) -> RunFault
    ensures { result ≡ memory_fault fault }
{
    match fault {
        ParseFault::Text(at) => RunFault::MemText(at),
        ParseFault::Memory => RunFault::Memory,
    }
}

// The image, whatever is remarked on it.
fn image_of(alloc: Global, bytes: &[u8], modes: &Modes) -> Result<Image, RunFault>
    requires { length bytes.now < 2 ^ 32 }
    ensures found { IfOk result (IsImageRead modes.now.netlist bytes.now) }
    ensures refused { IfErr result (IsImageFault modes.now.netlist bytes.now) }
{
    viewed_text::read_image(alloc, bytes, modes.first()).map_err(image_fault)
}

// The state that the netlist starts from.
fn start_of(alloc: Global, bytes: &[u8], modes: &Modes) -> Result<State, RunFault>
    requires { length bytes.now < 2 ^ 32 }
    ensures found { IfOk result (IsMemoryText modes.now.netlist None bytes.now) }
    ensures fits { IfOk result (IsStartState modes.now.netlist) }
    ensures refused { IfErr result (IsMemoryFaultOf modes.now.netlist bytes.now) }
{
    state_text::read_state(alloc, bytes, modes.first(), None).map_err(memory_fault)
}

// The words of the image that the bytes are.
fn words_in(alloc: Global, bytes: &[u8], modes: &Modes) -> Result<Items<u64>, RunFault>
    requires { length bytes.now < 2 ^ 32 }
    ensures found { IfOk result (AreImageWords modes.now.netlist bytes.now) }
    ensures refused { IfErr result (IsImageFault modes.now.netlist bytes.now) }
{
    let image = image_of(alloc, bytes, modes)?;
    let words = words_of(alloc, &image)?;
    Ok(words)
}

// Clocks the netlist so often, and writes the state.
fn clocked(
    alloc: Global,
    modes: &Modes,
    words: Items<u64>,
    start: State,
    clocks: u32,
) -> Result<Vec<u8>, RunFault>
    requires words { AllByRecursion (WordFits modes.now.netlist) words }
    requires start { IsState modes.now.netlist start }
    ensures text { IfOk result (λ text. IsEndText modes.now.netlist words start clocks text.items) }
    ensures refused { IfErr result (IsEndFault modes.now.netlist words start clocks) }
{
    // nothing is asked for once the first clock has passed
    let mut sim = ModeSim::new(alloc, modes, words, start)?;
    let mut text = text_room(alloc, modes.first())?;
    if let Err(Clash { cycle, bus }) = clock_all(&mut sim, clocks) {
        let at = modes.netlist().name_at(bus);
        return Err(RunFault::Clash { cycle, bus, at });
    }
    match write_state(&mut text, u64::from(clocks), sim.now()) {
        Ok(()) => Ok(text),
        Err(_) => unreachable!(),
    }
}

/// The text of the state after so many clocks of the netlist that `net` is, on the words of the
/// image that `image` is, from the state that `memory` is. Each refusal comes exactly where it is
/// the first that applies, in the order in which they are listed; a clash exactly where the clock
/// equation clashes in that cycle, below `clocks`, and in none before.
pub fn run(
    alloc: Global,
    net: &[u8],
    image: &[u8],
    memory: &[u8],
    clocks: u32,
) -> Result<Vec<u8>, RunFault>
    requires net { length net.now < 2 ^ 32 }
    requires image { length image.now < 2 ^ 32 }
    requires memory { length memory.now < 2 ^ 32 }
    ensures shows { IfOk result (λ text. ShowsState net.now image.now memory.now clocks text.items) }
    ensures refused { IfErr result (IsRunFault net.now image.now memory.now clocks) }
{
    let modes = netlist(alloc, net)?;
    let words = words_in(alloc, image, &modes)?;
    let start = start_of(alloc, memory, &modes)?;
    clocked(alloc, &modes, words, start, clocks)
}
