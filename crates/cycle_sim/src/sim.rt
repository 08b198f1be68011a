//! The simulator of a netlist.

ghost use Rattle.std.specs.Prelude.{◌≡◌, ◌<◌, ◌^◌, ◌↔◌, IsTrue, IfOk, None, length, slice_get, slice_set};
ghost use Rattle.std.specs.List.{AllByRecursion};
ghost use Rattle.std.specs.Bool.{OnTrue, OnFalse};
ghost use Rattle.net_model.specs.Nets.{held, memory_width};
ghost use Rattle.net_model.specs.Widths.{IsState, WordFits};
ghost use Rattle.net_model.specs.Clock.{counter_in, word_at};
ghost use Rattle.cycle_sim.specs.Clocks.{Clocks, register_in};
ghost use Rattle.cycle_sim.specs.Inner.Ports.{HasPortWidth, memory_port_width};
ghost use Rattle.cycle_sim.specs.Trades.{AreAlike, holding};

use crate::decode::constants;
use crate::edge::{Port, clock_cells, clock_registers, first_clash};
use crate::program::{Program, program_of};
use crate::values::{number_at, value_at};
use net_model::{Checked, Netlist, Space, State, Storage};
use rec_bits::{Items, NoMemory, mask};
use std::alloc::Global;
use std::marker::Model;
use std::mem::swap;

/// What a clock leads to.
#[derive(Clone, Copy, PartialEq, Eq)]
pub enum Clocked {
    /// All storages have changed together.
    Stepped,
    /// Two drivers of the bus with this net's number are enabled, and nothing has changed.
    Clash(u32),
}

/// A netlist with the words of its instruction memory, what its storages hold, and the cell that
/// the last clock wrote.
#[derive(Drop)]
pub struct Sim<'a> {
    checked: &'a Checked,
    words: Items<u64>,
    state: State,
    last_write: Option<u32>,
    // what a clock does, over the places of `values`
    program: Program,
    values: Vec<u64>,
}

impl<'a> Model for Sim<'a> {
    ghost use Rattle.cycle_sim.specs.Shown.{Shown};
    ghost use Rattle.cycle_sim.specs.Inner.Running.{IsRunning};

    ghost Value = { Shown };

    ghost view = { λ sim. record { netlist = sim.checked.now.netlist; words = sim.words; state = sim.state; last_write = sim.last_write } };

    ghost invariant = { λ sim. IsRunning sim.checked.now.netlist sim.words sim.state sim.program sim.values.items };
}

impl<'a> Sim<'a> {
    /// A simulator of the netlist on these words, past which the instruction memory holds 0, from
    /// the state `start`.
    pub fn new(
        alloc: Global,
        checked: &'a Checked,
        words: Items<u64>,
        start: State,
    ) -> Result<Sim<'a>, NoMemory>
        requires words { AllByRecursion (WordFits checked.now.netlist) words }
        requires start { IsState checked.now.netlist start }
        ensures { IfOk result (λ sim. sim
            ≡ record { netlist = checked.now.netlist; words = words; state = start; last_write = None }) }
    {
        let netlist = checked.netlist();
        let program = program_of(alloc, checked)?;
        let values = constants(alloc, netlist.nets.as_slice())?;
        Ok(Sim {
            checked,
            words,
            state: start,
            last_write: None,
            program,
            values,
        })
    }

    /// One clock edge under the word at the program counter. All storages take their next values
    /// together, from the old ones. Where two drivers of a bus are enabled, nothing changes, and
    /// the first such bus is told.
    pub fn clock(&mut self) -> Clocked
        ensures netlist { self.new.netlist ≡ self.old.netlist }
        ensures words { self.new.words ≡ self.old.words }
        ensures clocks { Clocks self.old self.new result }
        ensures state { IsState self.new.netlist self.new.state }
    {
        let words = self.words.as_slice();
        let word = word_of(self.checked, words, &self.state);
        self.program.run(&self.state, word, &mut self.values);
        let values = self.values.as_slice();
        let buses = self.program.buses.as_slice();
        match first_clash(values, buses) {
            Some(bus) => {
                self.last_write = None;
                Clocked::Clash(bus)
            }
            None => {
                let storages = self.program.latches.as_slice();
                clock_registers(values, storages, &mut self.state.regs);
                let port = self.program.port;
                self.last_write = clock_cells(values, port, &mut self.state.cells);
                let file_port = self.program.file_port;
                let _written = clock_cells(values, file_port, &mut self.state.file);
                Clocked::Stepped
            }
        }
    }

    /// The program counter's value.
    pub fn pc(&self) -> u64
        ensures { result ≡ counter_in self.now.netlist self.now.state }
    {
        value_at(self.state.regs.as_slice(), self.checked.pc())
    }

    /// The value of the register with this storage's number, or None where there is no such
    /// register.
    pub fn reg(&self, storage: u32) -> Option<u64>
        ensures { result ≡ register_in self.now.netlist self.now.state storage }
    {
        match self.checked.netlist().storage(storage) {
            Some(Storage::Register { .. }) => Some(value_at(self.state.regs.as_slice(), storage)),
            _ => None,
        }
    }

    /// The value of the cell at this address of the data memory or of the register file, or None
    /// where there is no such cell.
    pub fn cell_in(&self, space: Space, address: u32) -> Option<u64>
        ensures { result ≡ slice_get (held self.now.state space) address }
    {
        self.state.cells_in(space).get(address as usize).copied()
    }

    /// The value of the data memory's cell at this address, or None where there is no such cell.
    pub fn cell(&self, address: u32) -> Option<u64>
        ensures { result ≡ slice_get self.now.state.cells address }
    {
        self.cell_in(Space::Memory, address)
    }

    /// The value of the register file's cell at this address, or None where there is no such cell.
    pub fn file(&self, address: u32) -> Option<u64>
        ensures { result ≡ slice_get self.now.state.file address }
    {
        self.cell_in(Space::File, address)
    }

    /// Puts a value into a cell of the data memory and answers true; answers false, and changes
    /// nothing, where there is no such cell or the value is too wide for it.
    pub fn set_cell(&mut self, address: u32, value: u64) -> bool
        ensures fits { IsTrue result ↔ ((address < length self.old.state.cells)
            × (value < 2 ^ memory_width self.old.netlist.storages)) }
        ensures set { OnTrue result (self.new ≡ record self.old {
          state = record self.old.state { cells = slice_set self.old.state.cells address value };
        }) }
        ensures kept { OnFalse result (self.new ≡ self.old) }
        ensures state { IsState self.new.netlist self.new.state }
    {
        let at = address as usize;
        if at >= self.state.cells.len() {
            return false;
        }
        if !is_cell_value(self.program.port, value) {
            return false;
        }
        self.state.cells.set(at, value);
        true
    }

    /// Exchanges what two simulators hold, and which cells they wrote last. Their netlists have
    /// storages of the same kinds, widths and sizes.
    pub fn trade(&mut self, other: &mut Sim<'a>)
        requires { AreAlike self.old.netlist other.old.netlist }
        ensures here { self.new ≡ holding self.old other.old }
        ensures there { other.new ≡ holding other.old self.old }
    {
        swap(&mut self.state, &mut other.state);
        swap(&mut self.last_write, &mut other.last_write);
    }

    /// Puts a state in the place of what the simulator holds.
    pub(crate) fn put(&mut self, state: State)
        requires { IsState self.old.netlist state }
        ensures { self.new ≡ record self.old { state = state } }
    {
        self.state = state;
    }

    /// The netlist.
    pub fn checked(&self) -> &'a Checked
        ensures { result.now.netlist ≡ self.now.netlist }
    {
        self.checked
    }

    /// What the storages hold.
    pub(crate) fn state(&self) -> &State
        ensures value { result.now ≡ self.now.state }
        ensures fits { IsState self.now.netlist result.now }
    {
        &self.state
    }

    /// The cell that the last clock wrote, or None where it wrote none, where it clashed, and where
    /// there was none.
    pub fn last_write(&self) -> Option<u32>
        ensures { result ≡ self.now.last_write }
    {
        self.last_write
    }
}

// The instruction word at the program counter.
fn word_of(checked: &Checked, words: &[u64], state: &State) -> u64
    ensures { result ≡ word_at checked.now.netlist words.now state.now }
{
    let counter = value_at(state.regs.as_slice(), checked.pc());
    number_at(words, counter)
}

// Whether a value fits a cell of the data memory.
fn is_cell_value(port: Option<Port>, value: u64) -> bool
    requires { HasPortWidth port }
    ensures { IsTrue result ↔ (value < 2 ^ memory_port_width port) }
{
    match port {
        Some(port) => value <= mask(port.width),
        None => value == 0,
    }
}
