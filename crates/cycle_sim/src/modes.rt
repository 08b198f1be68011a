//! The simulators of a netlist in its modes.

ghost use Rattle.std.specs.Prelude.{◌≡◌, ◌≢◌, ◌<◌, IfOk, None, length, map, slice_get, vec_len};
ghost use Rattle.std.specs.List.{AllByRecursion};
ghost use Rattle.net_model.specs.Clock.{counter_in};
ghost use Rattle.net_model.specs.Fixed.{mode_in};
ghost use Rattle.net_model.specs.MemoryText.{blank};
ghost use Rattle.net_model.specs.ModeRules.{bases_of};
ghost use Rattle.net_model.specs.Nets.{held};
ghost use Rattle.net_model.specs.Widths.{IsState, WordFits};
ghost use Rattle.cycle_sim.specs.Clocks.{Clocks, register_in};
ghost use Rattle.cycle_sim.specs.Moded.{IsHeldBy};
ghost use Rattle.cycle_sim.specs.Shown.{Shown};
ghost use Rattle.cycle_sim.specs.Trades.{AreAlike};
ghost use Rattle.cycle_sim.specs.Moding.{sim_at, traded};

use crate::sim::{Clocked, Sim};
use crate::values::{value_at, zeros};
use net_model::{Checked, Modes, Space, State};
use rec_bits::{Items, NoMemory};
use std::alloc::Global;
use std::marker::Model;

/// A netlist that was checked in its modes, with the words of its instruction memory, what its
/// storages hold, and the cell that the last clock wrote. It has a simulator for each mode, and the
/// one of the mode that the state has holds the state.
#[derive(Drop)]
pub struct ModeSim<'a> {
    modes: &'a Modes,
    sims: Vec<Sim<'a>>,
    mode: usize,
    // one more, by which two of them trade
    spare: Sim<'a>,
}

impl<'a> Model for ModeSim<'a> {
    ghost use Rattle.cycle_sim.specs.Shown.{Shown};
    ghost use Rattle.cycle_sim.specs.Trades.{AreAlike};
    ghost use Rattle.cycle_sim.specs.Moding.{AreSims, shown_by};

    ghost Value = { Shown };

    ghost view = { λ sim. shown_by sim.modes.now.netlist sim.sims.items sim.mode };

    ghost invariant = { λ sim. AreSims sim.modes.now.netlist sim.sims.items sim.mode
        × AreAlike sim.spare.netlist sim.modes.now.netlist };
}

impl<'a> ModeSim<'a> {
    /// The simulators of the netlist on these words, past which the instruction memory holds 0,
    /// from the state `start`.
    pub fn new(
        alloc: Global,
        modes: &'a Modes,
        words: Items<u64>,
        start: State,
    ) -> Result<ModeSim<'a>, NoMemory>
        requires words { AllByRecursion (WordFits modes.now.netlist) words }
        requires start { IsState modes.now.netlist start }
        ensures { IfOk result (λ sim. sim
            ≡ record { netlist = modes.now.netlist; words = words; state = start; last_write = None }) }
    {
        let mode = mode_of(modes, &start);
        let spare = blank_sim(alloc, modes.first(), words.as_slice())?;
        let mut sims = blank_sims(alloc, modes, words.as_slice())?;
        sims[mode].put(start);
        Ok(ModeSim {
            modes,
            sims,
            mode,
            spare,
        })
    }

    /// One clock edge under the word at the program counter, as a simulator makes it, of what the
    /// netlist is in the mode that the state has.
    pub fn clock(&mut self) -> Clocked
        ensures netlist { self.new.netlist ≡ self.old.netlist }
        ensures words { self.new.words ≡ self.old.words }
        ensures clocks { Clocks self.old self.new result }
        ensures state { IsState self.new.netlist self.new.state }
    {
        let clocked = self.sims[self.mode].clock();
        let mode = mode_of(self.modes, self.sims[self.mode].state());
        if mode != self.mode {
            trade(&mut self.sims, &mut self.spare, self.mode, mode);
            self.mode = mode;
        }
        clocked
    }

    /// The simulator that holds the state.
    pub fn now(&self) -> &Sim<'a>
        ensures { IsHeldBy self.now result.now }
    {
        &self.sims[self.mode]
    }

    /// The netlist, with what it is in its modes.
    pub fn modes(&self) -> &'a Modes
        ensures { result.now.netlist ≡ self.now.netlist }
    {
        self.modes
    }

    /// The program counter's value.
    pub fn pc(&self) -> u64
        ensures { result ≡ counter_in self.now.netlist self.now.state }
    {
        self.now().pc()
    }

    /// The value of the register with this storage's number, or None where there is no such
    /// register.
    pub fn reg(&self, storage: u32) -> Option<u64>
        ensures { result ≡ register_in self.now.netlist self.now.state storage }
    {
        self.now().reg(storage)
    }

    /// The value of the cell at this address of the data memory or of the register file, or None
    /// where there is no such cell.
    pub fn cell_in(&self, space: Space, address: u32) -> Option<u64>
        ensures { result ≡ slice_get (held self.now.state space) address }
    {
        self.now().cell_in(space, address)
    }

    /// The value of the data memory's cell at this address, or None where there is no such cell.
    pub fn cell(&self, address: u32) -> Option<u64>
        ensures { result ≡ slice_get self.now.state.cells address }
    {
        self.now().cell(address)
    }

    /// The cell that the last clock wrote, or None where it wrote none, where it clashed, and where
    /// there was none.
    pub fn last_write(&self) -> Option<u32>
        ensures { result ≡ self.now.last_write }
    {
        self.now().last_write()
    }
}

// The mode of a state.
fn mode_of(modes: &Modes, state: &State) -> usize
    requires { IsState modes.now.netlist state.now }
    ensures mode { result ≡ mode_in modes.now.netlist.special state.now }
    ensures within { result < length modes.now.bases }
{
    match modes.netlist().special {
        Some(id) => value_at(state.regs.as_slice(), id) as usize,
        None => 0,
    }
}

// A state in which everything is 0.
fn blank(alloc: Global, checked: &Checked) -> Result<State, NoMemory>
    ensures { IfOk result (λ s. s ≡ blank checked.now.netlist.storages) }
{
    Ok(State {
        regs: zeros(alloc, checked.netlist().storages.len())?,
        cells: zeros(alloc, checked.size(Space::Memory) as usize)?,
        file: zeros(alloc, checked.size(Space::File) as usize)?,
    })
}

// A simulator in a state in which everything is 0.
fn blank_sim<'a>(alloc: Global, base: &'a Checked, words: &[u64]) -> Result<Sim<'a>, NoMemory>
    requires { AllByRecursion (WordFits base.now.netlist) words.now }
    ensures { IfOk result (λ sim. sim
        ≡ record { netlist = base.now.netlist; words = words.now; state = blank base.now.netlist.storages; last_write = None }) }
{
    let words = Items::from_slice(alloc, words)?;
    let state = blank(alloc, base)?;
    Sim::new(alloc, base, words, state)
}

// A simulator for each mode, in a state in which everything is 0.
fn blank_sims<'a>(alloc: Global, modes: &'a Modes, words: &[u64]) -> Result<Vec<Sim<'a>>, NoMemory>
    requires { AllByRecursion (WordFits modes.now.netlist) words.now }
    ensures bases { IfOk result (λ sims. map (λ (sim : Shown). sim.netlist) sims.items ≡ bases_of modes.now.netlist) }
    ensures words { IfOk result (λ sims. AllByRecursion (λ (sim : Shown). sim.words ≡ words.now) sims.items) }
    ensures unwritten { IfOk result (λ sims. AllByRecursion (λ (sim : Shown). sim.last_write ≡ None) sims.items) }
{
    let mut sims = Vec::new(alloc);
    for base in modes.bases() {
        sims.push(blank_sim(alloc, base, words)?)?;
    }
    Ok(sims)
}

// Exchanges what two of the simulators hold, by a third one.
fn trade<'a>(sims: &mut Vec<Sim<'a>>, spare: &mut Sim<'a>, from: usize, to: usize)
    requires from { from < vec_len sims.old }
    requires to { to < vec_len sims.old }
    requires apart { to ≢ from }
    requires alike { AreAlike (sim_at sims.old.items from).netlist (sim_at sims.old.items to).netlist }
    requires spare { AreAlike spare.old.netlist (sim_at sims.old.items from).netlist }
    ensures sims { sims.new.items ≡ traded sims.old.items from to }
    ensures spare { spare.new ≡ spare.old }
{
    spare.trade(&mut sims[from]);
    spare.trade(&mut sims[to]);
    spare.trade(&mut sims[from]);
}
