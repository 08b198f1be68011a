//! What the storages hold when a self-test starts.

ghost use Rattle.std.specs.Prelude.{◌≡◌, ◌+◌, ◌^◌, ◌%◌, ◌≤◌, ◌<◌, IfOk};
ghost use Rattle.net_model.specs.Widths.{IsState};
ghost use Rattle.test_run.specs.Starts.{cells_from, test_start};

use cycle_sim::zeros;
use net_model::{Checked, Space, State};
use rec_bits::{Items, NoMemory, mask};
use std::alloc::Global;

// The number after an address, as far as so many bits go.
#[tactic(auto, using(rec_bits::proofs::Masks::masks))]
fn number_after(address: u32, width: u8) -> u64
    requires low { 1 ≤ width }
    requires high { width ≤ 64 }
    ensures { result ≡ (address + 1) % 2 ^ width }
{
    (u64::from(address) + 1) & mask(width)
}

// So many cells, each with the number after its address.
fn cells(alloc: Global, size: u32, width: u8) -> Result<Items<u64>, NoMemory>
    requires low { 1 ≤ width }
    requires high { width ≤ 64 }
    ensures { IfOk result (λ cells. cells ≡ cells_from width 0 size) }
{
    let mut cells = Items::new(alloc);
    for address in 0..size {
        cells.push(number_after(address, width))?;
    }
    Ok(cells)
}

/// The state in which a self-test starts.
pub(crate) fn start(alloc: Global, checked: &Checked) -> Result<State, NoMemory>
    ensures start { IfOk result (λ state. state ≡ test_start checked.now.netlist) }
    ensures fits { IfOk result (IsState checked.now.netlist) }
{
    let netlist = checked.netlist();
    let regs = zeros(alloc, netlist.storages.len())?;
    let cells = cells(alloc, checked.memory_size(), checked.memory_width())?;
    let file = zeros(alloc, checked.size(Space::File) as usize)?;
    Ok(State { regs, cells, file })
}

/// Another state of the same numbers.
pub(crate) fn copied(alloc: Global, state: &State) -> Result<State, NoMemory>
    ensures { IfOk result (λ copy. copy ≡ state.now) }
{
    let regs = Items::from_slice(alloc, state.regs.as_slice())?;
    let cells = Items::from_slice(alloc, state.cells.as_slice())?;
    let file = Items::from_slice(alloc, state.file.as_slice())?;
    Ok(State { regs, cells, file })
}
