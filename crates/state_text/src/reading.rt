//! From a memory text to the state that it sets.

ghost use Rattle.std.specs.Prelude.{◌≡◌, ◌<◌, ◌^◌, length, IfOk, IfErr};
ghost use Rattle.std.proofs.Math.ListN.{replicate};
ghost use Rattle.net_model.specs.Nets.{memory_size};
ghost use Rattle.net_model.specs.CheckedRules.{KeepsRules};
ghost use Rattle.net_model.specs.MemoryText.{blank, IsMemoryText, IsMemoryRefusal};
ghost use Rattle.state_text.specs.Settings.{IsStartState};
ghost use Rattle.state_text.specs.Inner.Settings.{with_setting, IsWithin};

use crate::line::setting_of;
use crate::setting::Setting;
use net_model::{Checked, Space, State, Storage};
use rec_bits::{Items, NoMemory, ParseFault};
use std::alloc::Global;
use text_lines::first_line;

fn zeros(alloc: Global, count: usize) -> Result<Items<u64>, NoMemory>
    ensures { IfOk result (λ list. list ≡ replicate count 0) }
{
    Ok(Items::from_vec(vec![in alloc; 0; count]?))
}

// The state of zeros. That a checked netlist keeps its rules is told for the lines that follow.
fn blank(alloc: Global, checked: &Checked) -> Result<State, NoMemory>
    ensures zeros { IfOk result (λ state. state ≡ blank checked.now.netlist.storages) }
    ensures kept { KeepsRules checked.now.netlist checked.now.order }
{
    Ok(State {
        regs: zeros(alloc, checked.netlist().storages.len())?,
        cells: zeros(alloc, checked.size(Space::Memory) as usize)?,
        file: zeros(alloc, checked.size(Space::File) as usize)?,
    })
}

fn put(state: &mut State, setting: Setting)
    requires { IsWithin state.old setting }
    ensures { state.new ≡ with_setting state.old setting }
{
    match setting {
        Setting::Entry { storage, value } => state.regs.set(storage as usize, value),
        Setting::Cell {
            space: Space::Memory,
            address,
            value,
        } => state.cells.set(address as usize, value),
        Setting::Cell {
            space: Space::File,
            address,
            value,
        } => state.file.set(address as usize, value),
    }
}

/// The state that a memory text sets; what it doesn't name is 0, the program counter is 0. `Text`
/// comes exactly where a line isn't of the form, or names no storage, the program counter or the
/// register `still`, or has an address past the memory or the file or a value that is too wide, with
/// the offset of the first such line. `Memory` is want of memory.
pub fn read_state(
    alloc: Global,
    bytes: &[u8],
    checked: &Checked,
    still: Option<u32>,
) -> Result<State, ParseFault>
    requires { length bytes.now < 2 ^ 32 }
    ensures found { IfOk result (IsMemoryText checked.now.netlist still bytes.now) }
    ensures fits { IfOk result (IsStartState checked.now.netlist) }
    ensures refused { IfErr result (IsMemoryRefusal checked.now.netlist still bytes.now) }
{
    let mut state = blank(alloc, checked)?;
    let mut rest = bytes;
    while let Some((line, more)) = first_line(rest) {
        let Some(setting) = setting_of(checked, still, line) else {
            return Err(ParseFault::Text((bytes.len() - rest.len()) as u64));
        };
        put(&mut state, setting);
        rest = more;
    }
    Ok(state)
}
