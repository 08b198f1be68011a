//! What the run without a fault leaves in the memory.

ghost use Rattle.std.specs.Prelude.{◌≡◌, None, Some, if◌then◌else◌, length, IfOk, IfSome};
ghost use Rattle.std.specs.List.{AllByRecursion};
ghost use Rattle.net_model.specs.Clock.{run as run_of};
ghost use Rattle.net_model.specs.Nets.{memory_size};
ghost use Rattle.net_model.specs.Widths.{IsState, WordFits};
ghost use Rattle.fault_sim.specs.Reports.{cells_after};

use crate::starting::copied;
use cycle_sim::{Clocked, Sim};
use net_model::{Checked, State};
use rec_bits::{Items, NoMemory};
use std::alloc::Global;

// So many clocks, or fewer where a bus clashes; whether none does.
fn run(sim: &mut Sim<'_>, clocks: usize) -> bool
    requires state { IsState sim.old.netlist sim.old.state }
    ensures netlist { sim.new.netlist ≡ sim.old.netlist }
    ensures state { IsState sim.new.netlist sim.new.state }
    ensures cells { cells_after (run_of sim.old.netlist sim.old.words sim.old.state clocks)
        ≡ (if result then Some sim.new.state.cells else None) }
{
    for _ in 0..clocks {
        match sim.clock() {
            Clocked::Stepped => {}
            Clocked::Clash(_) => return false,
        }
    }
    true
}

// What the simulator's cells hold.
fn held(alloc: Global, sim: &Sim<'_>, size: u32) -> Result<Items<u64>, NoMemory>
    requires { length sim.now.state.cells ≡ size }
    ensures { IfOk result (λ cells. cells ≡ sim.now.state.cells) }
{
    let mut cells = Items::new(alloc);
    for address in 0..size {
        if let Some(number) = sim.cell(address) {
            cells.push(number)?;
        }
    }
    Ok(cells)
}

/// The memory after as many clocks as there are words, or None where a bus clashes.
pub(crate) fn good_cells(
    alloc: Global,
    checked: &Checked,
    words: &[u64],
    start: &State,
) -> Result<Option<Items<u64>>, NoMemory>
    requires words { AllByRecursion (WordFits checked.now.netlist) words.now }
    requires start { IsState checked.now.netlist start.now }
    ensures cells { IfOk result (λ cells. cells
        ≡ cells_after (run_of checked.now.netlist words.now start.now (length words.now))) }
    ensures size { IfOk result (λ cells. IfSome cells
        (λ cells. length cells ≡ memory_size checked.now.netlist.storages)) }
{
    let copy = copied(alloc, start)?;
    let list = Items::from_slice(alloc, words)?;
    let mut sim = Sim::new(alloc, checked, list, copy)?;
    if !run(&mut sim, words.len()) {
        return Ok(None);
    }
    let cells = held(alloc, &sim, checked.memory_size())?;
    Ok(Some(cells))
}
