//! The lines of checkpoints, put one after the other.

ghost use Rattle.std.specs.Prelude.{◌≡◌, ◌+◌, ◌<◌, ◌≤◌, ◌^◌, ℕ, OnOk, IfOk, drop, length, slice_index, take, vec_capacity};
ghost use Rattle.src_model.specs.Meaning.{cell_count};
ghost use Rattle.checkpoint_watch.specs.Rooms.{CheckpointFits, line_room};
ghost use Rattle.checkpoint_watch.specs.Texts.{checkpoint_line, trace_entry, store_from};
ghost use Rattle.src_model.specs.Meaning.{zeros};
ghost use Rattle.checkpoint_watch.specs.Puts.{Puts};

use crate::line::{SeenCheckpoint, write_line};
use crate::room::line_room;
use cycle_sim::{Sim, zeros};
use rec_bits::{Items, NoMemory};
use rec_io::{Sink, WriteFault, put_all};
use src_model::Var;
use std::alloc::Global;

/// The variables of a program, what the last line told of them, and the room of a line.
#[derive(Drop)]
pub(crate) struct LineWriter<'a> {
    pub vars: &'a [Var],
    /// The address of the first of their cells; the others stand behind it in a row.
    pub address: u32,
    /// Their cells as the last line told them, and zeros before the first.
    pub last_cells: Items<u64>,
    pub line: Vec<u8>,
    ghost whole: { length last_cells ≡ cell_count vars.now },
    ghost room: { line_room vars.now ≤ vec_capacity line },
}

// How many cells variables have together.
fn cell_count(vars: &[Var]) -> usize
    requires { cell_count vars.now < 2 ^ 32 }
    ensures { result ≡ cell_count vars.now }
{
    let mut count = 0;
    for var in vars {
        count += var.len.unwrap_or(1) as usize;
    }
    count
}

// Copies cells, the first of which has this address.
fn copy_cells(last_cells: &mut Items<u64>, address: u32, sim: &Sim<'_>)
    requires within { address + length last_cells.old ≤ length sim.now.state.cells }
    requires few { length sim.now.state.cells < 2 ^ 32 }
    ensures { last_cells.new ≡ take (length last_cells.old) (drop address sim.now.state.cells) }
{
    for index in 0..last_cells.len() {
        let value = sim.cell(address + index as u32).unwrap_or(0);
        last_cells.set(index, value);
    }
}

impl<'a> LineWriter<'a> {
    /// Takes the room of the longest line, and of one copy of the variables' cells.
    pub fn new(alloc: Global, vars: &'a [Var], address: u32) -> Result<LineWriter<'a>, NoMemory>
        requires { cell_count vars.now < 2 ^ 32 }
        ensures vars { IfOk result (λ writer. writer.vars.now ≡ vars.now) }
        ensures address { IfOk result (λ writer. writer.address ≡ address) }
        ensures last_cells { IfOk result (λ writer. writer.last_cells ≡ zeros vars.now) }
    {
        let last_cells = zeros(alloc, cell_count(vars))?;
        let line = line_room(alloc, vars)?;
        Ok(LineWriter {
            vars,
            address,
            last_cells,
            line,
        })
    }

    // Sets the line to that of a checkpoint, which fits its room.
    fn set_line(&mut self, seen: SeenCheckpoint, sim: &Sim<'_>)
        requires within { self.old.address + cell_count self.old.vars.now ≤ length sim.now.state.cells }
        requires few { length sim.now.state.cells < 2 ^ 32 }
        requires values { (cell : ℕ) → slice_index sim.now.state.cells cell < 2 ^ 64 }
        requires label { CheckpointFits seen.label }
        ensures line { self.new.line.items
            ≡ checkpoint_line self.old.vars.now self.old.last_cells
            (trace_entry seen.cycle seen.label (store_from self.old.vars.now self.old.address sim.now.state.cells)) }
        ensures vars { self.new.vars.now ≡ self.old.vars.now }
        ensures address { self.new.address ≡ self.old.address }
        ensures last_cells { self.new.last_cells ≡ self.old.last_cells }
    {
        self.line.clear();
        let last_cells = self.last_cells.as_slice();
        match write_line(
            &mut self.line,
            self.vars,
            last_cells,
            seen,
            self.address,
            sim,
        ) {
            Ok(()) => {}
            Err(_) => unreachable!(),
        }
    }

    /// Puts the line of a checkpoint, as it is seen in the simulator's state.
    pub fn write<S: Sink>(
        &mut self,
        seen: SeenCheckpoint,
        sim: &Sim<'_>,
        sink: &mut S,
    ) -> Result<(), WriteFault>
        requires within { self.old.address + cell_count self.old.vars.now ≤ length sim.now.state.cells }
        requires few { length sim.now.state.cells < 2 ^ 32 }
        requires values { (cell : ℕ) → slice_index sim.now.state.cells cell < 2 ^ 64 }
        requires label { CheckpointFits seen.label }
        ensures puts { Puts (S.state sink.old) (S.state sink.new)
            (checkpoint_line self.old.vars.now self.old.last_cells
            (trace_entry seen.cycle seen.label (store_from self.old.vars.now self.old.address sim.now.state.cells))) result }
        ensures last_cells { OnOk result (self.new.last_cells
            ≡ store_from self.old.vars.now self.old.address sim.now.state.cells) }
        ensures vars { self.new.vars.now ≡ self.old.vars.now }
        ensures address { self.new.address ≡ self.old.address }
    {
        self.set_line(seen, sim);
        put_all(sink, &self.line)?;
        copy_cells(&mut self.last_cells, self.address, sim);
        Ok(())
    }
}
