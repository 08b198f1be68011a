//! From a simulator's state to its text.

ghost use Rattle.std.specs.Prelude.{◌≡◌, ◌+◌, ◌++◌, ◌∷◌, [], ◌<◌, ◌≤◌, ◌^◌, length, slice_get, vec_capacity, IsOk, OnOk, IfOk, IfSome, Some, ℕ};
ghost use Rattle.net_model.specs.Nets.{held};
ghost use Rattle.net_model.specs.Widths.{IsState};
ghost use Rattle.state_text.specs.Shown.{register_lines, shown_cell, cell_lines, state_text, register_room, cell_room, state_room};
ghost use Rattle.net_model.specs.MemoryText.{register_line};
ghost use Rattle.net_model.specs.declared.states.State.{State};

use cycle_sim::Sim;
use itoa::Buffer;
use net_model::{Checked, Space, Storage};
use rec_bits::NoMemory;
use std::alloc::Global;

fn put_register(out: &mut Vec<u8>, name: &[u8], value: u64) -> Result<(), NoMemory>
    ensures text { OnOk result (out.new.items ≡ out.old.items ++ register_line name.now value) }
    ensures room { vec_capacity out.old ≤ vec_capacity out.new }
    ensures succeeds { length out.old.items + length (register_line name.now value)
        ≤ vec_capacity out.old → IsOk result }
{
    let mut buffer = Buffer::new();
    out.extend_from_slice(name)?;
    out.extend_from_slice(b" ")?;
    out.extend_from_slice(buffer.format(value).as_bytes())?;
    out.extend_from_slice(b"\n")?;
    Ok(())
}

fn put_cell(out: &mut Vec<u8>, name: &[u8], address: u32, value: u64) -> Result<(), NoMemory>
    ensures text { OnOk result (out.new.items ≡ out.old.items ++ shown_cell name.now address value) }
    ensures room { vec_capacity out.old ≤ vec_capacity out.new }
    ensures succeeds { length out.old.items + length (shown_cell name.now address value)
        ≤ vec_capacity out.old → IsOk result }
{
    if value == 0 {
        return Ok(());
    }
    let mut buffer = Buffer::new();
    out.extend_from_slice(name)?;
    out.extend_from_slice(b" ")?;
    out.extend_from_slice(buffer.format(address).as_bytes())?;
    put_register(out, b"", value)?;
    Ok(())
}

fn put_storage(
    out: &mut Vec<u8>,
    id: usize,
    storage: &Storage,
    sim: &Sim<'_>,
) -> Result<(), NoMemory>
    requires here { slice_get sim.now.netlist.storages id ≡ Some storage.now }
    requires few { id < 2 ^ 32 }
    ensures text { OnOk result
        (out.new.items ≡ out.old.items ++ register_lines sim.now.state.regs id (storage.now ∷ [])) }
    ensures room { vec_capacity out.old ≤ vec_capacity out.new }
    ensures succeeds { length out.old.items + length (register_lines sim.now.state.regs id (storage.now ∷ []))
        ≤ vec_capacity out.old → IsOk result }
{
    match storage {
        Storage::Register { name, .. } => {
            let value = sim.reg(id as u32).unwrap_or(0);
            put_register(out, name.as_slice(), value)
        }
        Storage::Memory(_) | Storage::File(_) => Ok(()),
    }
}

// The lines of the registers, in order of declaration.
fn put_registers(out: &mut Vec<u8>, storages: &[Storage], sim: &Sim<'_>) -> Result<(), NoMemory>
    requires here { sim.now.netlist.storages ≡ storages.now }
    requires few { length storages.now < 2 ^ 32 }
    ensures text { OnOk result (out.new.items ≡ out.old.items ++ register_lines sim.now.state.regs 0 storages.now) }
    ensures room { vec_capacity out.old ≤ vec_capacity out.new }
    ensures succeeds { length out.old.items + length (register_lines sim.now.state.regs 0 storages.now)
        ≤ vec_capacity out.old → IsOk result }
{
    for (id, storage) in storages.iter().enumerate() {
        put_storage(out, id, storage, sim)?;
    }
    Ok(())
}

// The lines of a space's cells that aren't 0, by address.
fn put_cells(out: &mut Vec<u8>, name: &[u8], space: Space, sim: &Sim<'_>) -> Result<(), NoMemory>
    requires { length (held sim.now.state space) < 2 ^ 32 }
    ensures text { OnOk result (out.new.items ≡ out.old.items ++ cell_lines name.now 0 (held sim.now.state space)) }
    ensures room { vec_capacity out.old ≤ vec_capacity out.new }
    ensures succeeds { length out.old.items + length (cell_lines name.now 0 (held sim.now.state space))
        ≤ vec_capacity out.old → IsOk result }
{
    let mut address = 0;
    while let Some(value) = sim.cell_in(space, address) {
        put_cell(out, name, address, value)?;
        address += 1;
    }
    Ok(())
}

/// Puts the text of the simulator's state after so many cycles behind what `out` holds. It fails
/// only where `out` has no room for all of it and gets no more.
pub fn write_state(out: &mut Vec<u8>, cycles: u64, sim: &Sim<'_>) -> Result<(), NoMemory>
    requires state { IsState sim.now.netlist sim.now.state }
    ensures text { OnOk result (out.new.items ≡ out.old.items ++ state_text sim.now.netlist cycles sim.now.state) }
    ensures room { vec_capacity out.old ≤ vec_capacity out.new }
    ensures succeeds { length out.old.items + length (state_text sim.now.netlist cycles sim.now.state)
        ≤ vec_capacity out.old → IsOk result }
{
    let checked = sim.checked();
    out.extend_from_slice(b"cycles")?;
    put_register(out, b"", cycles)?;
    put_registers(out, checked.netlist().storages.as_slice(), sim)?;
    put_cells(out, checked.name(Space::File), Space::File, sim)?;
    put_cells(out, checked.name(Space::Memory), Space::Memory, sim)?;
    out.extend_from_slice(b"done\n")?;
    Ok(())
}

// The bytes of `cycles`, of its number, of `done` and of their ends of line.
const FRAME: usize = 33;

// The bytes of a register's line, but for its name.
const REGISTER: usize = 22;

// The bytes of a cell's line, but for its name.
const CELL: usize = 43;

fn register_room(storages: &[Storage]) -> Option<usize>
    ensures { IfSome result (λ room. room ≡ register_room storages.now) }
{
    let mut room: usize = 0;
    for storage in storages {
        if let Storage::Register { name, .. } = storage {
            room = room.checked_add(name.len())?.checked_add(REGISTER)?;
        }
    }
    Some(room)
}

// The room of a space's cells.
fn cell_room(checked: &Checked, space: Space) -> Option<usize>
    ensures { IfSome result (λ room. room ≡ cell_room checked.now.netlist space) }
{
    let cell = checked.name(space).len().checked_add(CELL)?;
    (checked.size(space) as usize).checked_mul(cell)
}

fn room_of(checked: &Checked) -> Option<usize>
    ensures { IfSome result (λ room. room ≡ state_room checked.now.netlist) }
{
    let registers = register_room(checked.netlist().storages.as_slice())?;
    let file = cell_room(checked, Space::File)?;
    let cells = cell_room(checked, Space::Memory)?;
    registers
        .checked_add(file)?
        .checked_add(cells)?
        .checked_add(FRAME)
}

/// Room for the text of any state of the netlist, so that `write_state` into it can't fail.
pub fn text_room(alloc: Global, checked: &Checked) -> Result<Vec<u8>, NoMemory>
    ensures empty { IfOk result (λ out. out.items ≡ []) }
    ensures room { IfOk result (λ out. (cycles : ℕ) (state : State) → cycles < 2 ^ 64 →
        IsState checked.now.netlist state →
        length (state_text checked.now.netlist cycles state) ≤ vec_capacity out) }
{
    let Some(room) = room_of(checked) else {
        return Err(NoMemory);
    };
    let _netlist = checked.netlist();
    Ok(Vec::with_capacity(alloc, room)?)
}
