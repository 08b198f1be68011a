//! The text of a self-test.

ghost use Rattle.std.specs.Prelude.{◌≡◌, length, IfOk};
ghost use Rattle.std.specs.List.{AllByRecursion};
ghost use Rattle.net_model.specs.Clock.{run};
ghost use Rattle.net_model.specs.Nets.{memory_size};
ghost use Rattle.net_model.specs.Widths.{IsState, WordFits};
ghost use Rattle.fault_sim.specs.Reports.{findings as findings_of};
ghost use Rattle.test_run.specs.Starts.{test_start};
ghost use Rattle.test_run.specs.Texts.{text_of};

use crate::good::good_cells;
use crate::starting::{copied, start};
use crate::writing::write;
use fault_sim::{Fault, FaultSim, Finding, findings};
use net_model::{Checked, State};
use rec_bits::{Items, NoMemory};
use std::alloc::Global;

// What the words show of each fault, from a state, where the run without a fault leaves `good` in
// the memory.
fn shown(
    alloc: Global,
    checked: &Checked,
    words: &[u64],
    start: &State,
    good: &[u64],
) -> Result<Items<(Fault, Finding)>, NoMemory>
    requires words { AllByRecursion (WordFits checked.now.netlist) words.now }
    requires start { IsState checked.now.netlist start.now }
    requires even { length good.now ≡ memory_size checked.now.netlist.storages }
    ensures { IfOk result (λ found. found ≡ findings_of checked.now.netlist words.now start.now good.now) }
{
    // the first of the faults that are put in one after the other
    let fault = Fault {
        net: 0,
        bit: 0,
        value: false,
    };
    // the netlist is read for what it keeps
    let _ = checked.netlist();
    let copy = copied(alloc, start)?;
    let list = Items::from_slice(alloc, words)?;
    let mut sim = FaultSim::new(alloc, checked, fault, list, copy)?;
    let found = findings(alloc, &mut sim, start, good)?;
    Ok(found)
}

/// The text of a self-test of these words, of which so many candidates are tested and so many are
/// skipped; None where a bus clashes without a fault.
pub fn report(
    alloc: Global,
    checked: &Checked,
    tested: u64,
    skipped: u64,
    words: &[u64],
) -> Result<Option<Items<u8>>, NoMemory>
    requires words { AllByRecursion (WordFits checked.now.netlist) words.now }
    ensures { IfOk result (λ text. text ≡ text_of checked.now.netlist tested skipped words.now
        (run checked.now.netlist words.now (test_start checked.now.netlist) (length words.now))) }
{
    let start = start(alloc, checked)?;
    let Some(good) = good_cells(alloc, checked, words, &start)? else {
        return Ok(None);
    };
    let found = shown(alloc, checked, words, &start, good.as_slice())?;
    let bits = checked.netlist().word_width();
    let text = write(alloc, bits, tested, skipped, words, found.as_slice())?;
    Ok(Some(Items::from_vec(text)))
}
