//! What a run of words shows of a fault.

ghost use Rattle.std.specs.Prelude.{◌≡◌, ◌<◌, ◌^◌, None, Some, if◌then◌else◌, length};
ghost use Rattle.net_model.specs.Nets.{memory_size};
ghost use Rattle.net_model.specs.Widths.{IsState};
ghost use Rattle.fault_sim.specs.Faulty.{IsFault, faulty_run};
ghost use Rattle.fault_sim.specs.Reports.{cells_after, finding as finding_in, finding_of, first_difference as first_difference_of};

use crate::{Fault, FaultSim};
use cycle_sim::Clocked;
use net_model::State;

/// What a run shows of a fault.
#[derive(Clone, Copy, PartialEq, Eq)]
pub enum Finding {
    /// The cell of this address is the least that the fault changes.
    Detected(u32),
    /// A bus clashes.
    Clash,
    /// The memory is as without the fault.
    Unseen,
}

// The least place at which two lists differ.
fn first_difference(good: &[u64], cells: &[u64]) -> Option<u32>
    requires even { length good.now ≡ length cells.now }
    requires few { length good.now < 2 ^ 32 }
    ensures { result ≡ first_difference_of good.now cells.now }
{
    for (place, value) in good.iter().enumerate() {
        if *value != cells[place] {
            return Some(place as u32);
        }
    }
    None
}

// So many clocks, or fewer where a bus clashes; whether none does.
fn run(sim: &mut FaultSim<'_>, clocks: usize) -> bool
    requires state { IsState sim.old.netlist sim.old.state }
    ensures netlist { sim.new.netlist ≡ sim.old.netlist }
    ensures words { sim.new.words ≡ sim.old.words }
    ensures state { IsState sim.new.netlist sim.new.state }
    ensures cells { cells_after (faulty_run sim.old.netlist sim.old.fault sim.old.words sim.old.state clocks)
        ≡ (if result then Some sim.new.state.cells else None) }
{
    for _ in 0..clocks {
        match sim.clock() {
            Clocked::Stepped => {}
            Clocked::Clash(_) => return false,
        }
    }
    true
}

// What so many clocks show.
fn watch(sim: &mut FaultSim<'_>, clocks: usize, good: &[u64]) -> Finding
    requires state { IsState sim.old.netlist sim.old.state }
    requires even { length good.now ≡ memory_size sim.old.netlist.storages }
    ensures found { result ≡ finding_of good.now
        (cells_after (faulty_run sim.old.netlist sim.old.fault sim.old.words sim.old.state clocks)) }
    ensures netlist { sim.new.netlist ≡ sim.old.netlist }
    ensures words { sim.new.words ≡ sim.old.words }
{
    if !run(sim, clocks) {
        return Finding::Clash;
    }
    match first_difference(good, sim.cells()) {
        Some(cell) => Finding::Detected(cell),
        None => Finding::Unseen,
    }
}

/// What the simulator's words show of a fault from the state `start`: as many clocks as there are
/// words, after which the memory is held against `good`, what it holds without a fault. The
/// simulator starts anew, so that one serves for all faults; no memory is taken.
pub fn test_fault(sim: &mut FaultSim<'_>, fault: Fault, start: &State, good: &[u64]) -> Finding
    requires fault { IsFault sim.old.netlist fault }
    requires start { IsState sim.old.netlist start.now }
    requires even { length good.now ≡ memory_size sim.old.netlist.storages }
    ensures netlist { sim.new.netlist ≡ sim.old.netlist }
    ensures words { sim.new.words ≡ sim.old.words }
    ensures found { result ≡ finding_in sim.old.netlist sim.old.words start.now good.now fault }
{
    sim.restart(fault, start);
    let clocks = sim.words().len();
    watch(sim, clocks, good)
}
