//! The simulator of a netlist with a stuck bit.

ghost use Rattle.std.specs.Prelude.{◌≡◌, ◌<◌, ◌^◌, IfOk, length, slice_get};
ghost use Rattle.std.specs.List.{AllByRecursion};
ghost use Rattle.net_model.specs.Widths.{IsState, WordFits};
ghost use Rattle.net_model.specs.Clock.{word_at};
ghost use Rattle.fault_sim.specs.Faulty.{IsFault};
ghost use Rattle.fault_sim.specs.Clocks.{Clocks};

use crate::Fault;
use crate::edge::{clock_cells, clock_registers};
use crate::values::evaluate;
use cycle_sim::{Clocked, find_clash, number_at, value_at, zeros};
use net_model::{Checked, Netlist, Space, State};
use rec_bits::{Items, NoMemory};
use std::alloc::Global;
use std::marker::Model;

/// A netlist with a stuck bit, the words of its instruction memory, and what its storages hold.
#[derive(Drop)]
pub struct FaultSim<'a> {
    checked: &'a Checked,
    fault: Fault,
    words: Items<u64>,
    state: State,
    // what is seen of each net
    values: Items<u64>,
}

impl<'a> Model for FaultSim<'a> {
    ghost use Rattle.fault_sim.specs.Clocks.{Shown};
    ghost use Rattle.fault_sim.specs.Inner.Running.{IsRunning};

    ghost Value = { Shown };

    ghost view = { λ sim. record { netlist = sim.checked.now.netlist; fault = sim.fault; words = sim.words; state = sim.state } };

    ghost invariant = { λ sim. IsRunning sim.checked.now.netlist sim.fault sim.words sim.state sim.values };
}

impl<'a> FaultSim<'a> {
    /// A simulator of the netlist with this fault on these words, past which the instruction memory
    /// holds 0, from the state `start`.
    pub fn new(
        alloc: Global,
        checked: &'a Checked,
        fault: Fault,
        words: Items<u64>,
        start: State,
    ) -> Result<FaultSim<'a>, NoMemory>
        requires fault { IsFault checked.now.netlist fault }
        requires words { AllByRecursion (WordFits checked.now.netlist) words }
        requires start { IsState checked.now.netlist start }
        ensures { IfOk result (λ sim. sim
            ≡ record { netlist = checked.now.netlist; fault = fault; words = words; state = start }) }
    {
        let netlist = checked.netlist();
        let values = zeros(alloc, netlist.nets.len())?;
        Ok(FaultSim {
            checked,
            fault,
            words,
            state: start,
            values,
        })
    }

    /// One clock edge under the word at the program counter. All storages take their next values
    /// together, from the old ones. Where two drivers of a bus are enabled, nothing changes, and
    /// the first such bus is told.
    pub fn clock(&mut self) -> Clocked
        ensures netlist { self.new.netlist ≡ self.old.netlist }
        ensures fault { self.new.fault ≡ self.old.fault }
        ensures words { self.new.words ≡ self.old.words }
        ensures clocks { Clocks self.old self.new result }
        ensures state { IsState self.new.netlist self.new.state }
    {
        let words = self.words.as_slice();
        let word = word_of(self.checked, words, &self.state);
        evaluate(
            self.checked,
            self.fault,
            &self.state,
            word,
            &mut self.values,
        );
        let netlist = self.checked.netlist();
        let values = self.values.as_slice();
        if let Some(bus) = find_clash(values, netlist.nets.as_slice()) {
            return Clocked::Clash(bus as u32);
        }
        let storages = netlist.storages.as_slice();
        clock_registers(values, storages, &mut self.state.regs);
        clock_cells(values, Space::Memory, storages, &mut self.state.cells);
        clock_cells(values, Space::File, storages, &mut self.state.file);
        Clocked::Stepped
    }

    /// Puts another fault in the place of the simulator's own, and the storages back to `start`.
    pub fn restart(&mut self, fault: Fault, start: &State)
        requires fault { IsFault self.old.netlist fault }
        requires start { IsState self.old.netlist start.now }
        ensures { self.new ≡ record self.old { fault = fault; state = start.now } }
    {
        self.fault = fault;
        copy(start.regs.as_slice(), &mut self.state.regs);
        copy(start.cells.as_slice(), &mut self.state.cells);
        copy(start.file.as_slice(), &mut self.state.file);
    }

    /// The netlist, without the fault.
    pub fn netlist(&self) -> &'a Netlist
        ensures value { result.now ≡ self.now.netlist }
        ensures few { length result.now.nets < 2 ^ 32 }
    {
        self.checked.netlist()
    }

    /// The words of the instruction memory.
    pub fn words(&self) -> &[u64]
        ensures { result.now ≡ self.now.words }
    {
        self.words.as_slice()
    }

    /// What the data memory's cells hold.
    pub fn cells(&self) -> &[u64]
        ensures held { result.now ≡ self.now.state.cells }
        ensures few { length result.now < 2 ^ 32 }
    {
        self.state.cells.as_slice()
    }

    /// The value of the data memory's cell at this address, or None where there is no such cell.
    pub fn cell(&self, address: u32) -> Option<u64>
        ensures { result ≡ slice_get self.now.state.cells address }
    {
        self.state.cells.get(address as usize).copied()
    }
}

// The instruction word at the program counter.
fn word_of(checked: &Checked, words: &[u64], state: &State) -> u64
    ensures { result ≡ word_at checked.now.netlist words.now state.now }
{
    let counter = value_at(state.regs.as_slice(), checked.pc());
    number_at(words, counter)
}

// Gives a list the numbers of another.
fn copy(from: &[u64], to: &mut Items<u64>)
    requires { length to.old ≡ length from.now }
    ensures { to.new ≡ from.now }
{
    for (place, number) in from.iter().enumerate() {
        to.set(place, *number);
    }
}
