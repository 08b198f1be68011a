// The values of all nets in the blank state under an instruction word.

ghost use Rattle.std.specs.Prelude.{◌≡◌, IfOk, length, slice_index};
ghost use Rattle.net_model.specs.Symbolic.{no_state};
ghost use Rattle.net_model.specs.Value.{value_of};
ghost use Rattle.net_model.specs.Widths.{WordFits};

use cycle_sim::{evaluate, zeros};
use net_model::{Checked, State};
use rec_bits::{Items, NoMemory};
use std::alloc::Global;

// The state in which all storages hold 0.
fn blank_state(alloc: Global) -> State
    ensures { result ≡ no_state }
{
    State {
        regs: Items::new(alloc),
        cells: Items::new(alloc),
        file: Items::new(alloc),
    }
}

// The value of each net.
pub(crate) fn values_of(alloc: Global, checked: &Checked, word: u64) -> Result<Items<u64>, NoMemory>
    requires { WordFits checked.now.netlist word }
    ensures long { IfOk result (λ values. length values ≡ length checked.now.netlist.nets) }
    ensures values { IfOk result (λ values. slice_index values ≡ value_of checked.now.netlist no_state word) }
{
    let state = blank_state(alloc);
    let mut values = zeros(alloc, checked.netlist().nets.len())?;
    evaluate(checked, &state, word, &mut values);
    Ok(values)
}
