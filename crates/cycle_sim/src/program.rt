// A checked netlist decoded: what a simulator does at each clock.

ghost use Rattle.std.specs.Prelude.{◌≡◌, IfOk, OnOk, length};
ghost use Rattle.net_model.specs.Nets.{memory_width};
ghost use Rattle.cycle_sim.specs.Inner.Operations.{AreReady, AreWithin, filled, run_of};
ghost use Rattle.cycle_sim.specs.Inner.Ports.{HasPortWidth, memory_port_width};
ghost use Rattle.cycle_sim.specs.Inner.Programs.{added, AreSources, IsProgram, Runs};

use crate::decode::{buses, decode, inlets, latches, routed, source_of};
use crate::edge::{BusDrivers, Latch, Port, find_port};
use crate::operation::{Inlet, Instruction, Operation, fill, run};
use net_model::{Checked, Space, State};
use rec_bits::{Items, NoMemory};
use std::alloc::Global;

/// The nets as instructions, and where storages, buses and the ports of the data memory and of the
/// register file take their values.
#[derive(Drop)]
pub(crate) struct Program {
    pub inlets: Items<Inlet>,
    pub instructions: Items<Instruction>,
    pub latches: Items<Latch>,
    pub buses: Items<BusDrivers>,
    pub port: Option<Port>,
    pub file_port: Option<Port>,
}

impl Program {
    /// The numbers of all places, in a state under an instruction word.
    pub(crate) fn run(&self, state: &State, word: u64, values: &mut Vec<u64>)
        requires within { AreWithin (length values.old.items) self.now.inlets }
        requires ready { AreReady (length values.old.items) self.now.instructions }
        ensures { values.new.items ≡ run_of state.now self.now.instructions
            (filled state.now.regs word self.now.inlets values.old.items) }
    {
        let inlets = self.inlets.as_slice();
        let regs = state.regs.as_slice();
        let instructions = self.instructions.as_slice();
        let places = values.as_mut_slice();
        fill(inlets, regs, word, places);
        run(instructions, state, places);
    }
}

/// The program of a netlist.
pub(crate) fn program_of(alloc: Global, checked: &Checked) -> Result<Program, NoMemory>
    ensures program { IfOk result (λ program. IsProgram checked.now.netlist program) }
    ensures width { IfOk result (λ program.
        memory_port_width program.port ≡ memory_width checked.now.netlist.storages) }
    ensures fits { IfOk result (λ program. HasPortWidth program.port) }
{
    let netlist = checked.netlist();
    let nets = netlist.nets.as_slice();
    let found = sources(alloc, checked)?;
    let sources = found.as_slice();
    let inlets = inlets(alloc, nets)?;
    let instructions = instructions(alloc, checked, sources)?;
    let storages = netlist.storages.as_slice();
    let latches = latches(alloc, sources, storages)?;
    let buses = buses(alloc, sources, nets)?;
    let port = routed(sources, find_port(Space::Memory, storages));
    let file_port = routed(sources, find_port(Space::File, storages));
    Ok(Program {
        inlets,
        instructions,
        latches,
        buses,
        port,
        file_port,
    })
}

// The place of the value of each net: a wire has none of its own.
fn sources(alloc: Global, checked: &Checked) -> Result<Items<u32>, NoMemory>
    ensures { IfOk result (λ sources. AreSources checked.now.netlist checked.now.order sources) }
{
    let netlist = checked.netlist();
    let nets = netlist.nets.as_slice();
    let order = checked.order().as_slice();
    let mut sources = Items::from_vec(vec![in alloc; 0u32; nets.len()]?);
    for id in order {
        let at = *id as usize;
        let current = sources.as_slice();
        let source = source_of(current, *id, &nets[at].gate);
        sources.set(at, source);
    }
    Ok(sources)
}

// The instructions of all nets, in their order.
fn instructions(
    alloc: Global,
    checked: &Checked,
    sources: &[u32],
) -> Result<Items<Instruction>, NoMemory>
    requires { AreSources checked.now.netlist checked.now.order sources.now }
    ensures { IfOk result (λ instructions. Runs checked.now.netlist instructions) }
{
    let netlist = checked.netlist();
    let nets = netlist.nets.as_slice();
    let order = checked.order().as_slice();
    let mut instructions = Items::new(alloc);
    for id in order {
        let at = *id as usize;
        let operation = decode(alloc, netlist, sources, &nets[at])?;
        add(&mut instructions, *id, operation)?;
    }
    Ok(instructions)
}

// Adds the instruction of a net, where it has one.
fn add(
    instructions: &mut Items<Instruction>,
    place: u32,
    operation: Option<Operation>,
) -> Result<(), NoMemory>
    ensures { OnOk result (instructions.new ≡ added place operation instructions.old) }
{
    match operation {
        Some(operation) => instructions.push(Instruction { place, operation }),
        None => Ok(()),
    }
}
