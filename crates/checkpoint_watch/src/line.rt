//! The line of a checkpoint, from a simulator's state.

ghost use Rattle.std.specs.Prelude.{◌≡◌, ◌+◌, ◌++◌, ◌<◌, ◌≤◌, ◌^◌, length, drop, take, slice_index, vec_capacity, IsOk, OnOk};
ghost use Rattle.std.specs.Fmt.{decimal};
ghost use Rattle.src_model.specs.Meaning.{cells_in, cell_count};
ghost use Rattle.checkpoint_watch.specs.Texts.{cell_name, change, changes, changes_from, checkpoint_line, trace_entry, checkpoint_label, store_from};

use cycle_sim::Sim;
use itoa::Buffer;
use rec_bits::NoMemory;
use src_model::{Checkpoint, Var};

fn put_number(line: &mut Vec<u8>, number: u64) -> Result<(), NoMemory>
    ensures text { OnOk result (line.new.items ≡ line.old.items ++ decimal number) }
    ensures room { vec_capacity line.old ≤ vec_capacity line.new }
    ensures succeeds { length line.old.items + length (decimal number) ≤ vec_capacity line.old → IsOk result }
{
    let mut buffer = Buffer::new();
    line.extend_from_slice(buffer.format(number).as_bytes())?;
    Ok(())
}

fn put_cell_name(line: &mut Vec<u8>, var: &Var, index: u32) -> Result<(), NoMemory>
    ensures text { OnOk result (line.new.items ≡ line.old.items ++ cell_name var.now.name var.now.len index) }
    ensures room { vec_capacity line.old ≤ vec_capacity line.new }
    ensures succeeds { length line.old.items + length (cell_name var.now.name var.now.len index)
        ≤ vec_capacity line.old → IsOk result }
{
    line.extend_from_slice(var.name.as_slice())?;
    if var.len.is_some() {
        line.extend_from_slice(b"[")?;
        put_number(line, u64::from(index))?;
        line.extend_from_slice(b"]")?;
    }
    Ok(())
}

fn put_change(line: &mut Vec<u8>, var: &Var, index: u32, old: u64, new: u64) -> Result<(), NoMemory>
    ensures text { OnOk result (line.new.items ≡ line.old.items ++ change var.now index old new) }
    ensures room { vec_capacity line.old ≤ vec_capacity line.new }
    ensures succeeds { length line.old.items + length (change var.now index old new)
        ≤ vec_capacity line.old → IsOk result }
{
    if old == new {
        return Ok(());
    }
    line.extend_from_slice(b" ")?;
    put_cell_name(line, var, index)?;
    line.extend_from_slice(b"=")?;
    put_number(line, new)?;
    Ok(())
}

// What the cell at this address holds.
fn value_at(sim: &Sim<'_>, address: u32) -> u64
    ensures { result ≡ slice_index sim.now.state.cells address }
{
    sim.cell(address).unwrap_or(0)
}

// The changes of a variable's cells, the first of which stands at this address.
fn put_cells(
    line: &mut Vec<u8>,
    var: &Var,
    olds: &[u64],
    address: u32,
    sim: &Sim<'_>,
) -> Result<(), NoMemory>
    requires within { address + length olds.now ≤ length sim.now.state.cells }
    requires few { length sim.now.state.cells < 2 ^ 32 }
    ensures text { OnOk result (line.new.items ≡ line.old.items
        ++ changes_from var.now 0 olds.now (take (length olds.now) (drop address sim.now.state.cells))) }
    ensures room { vec_capacity line.old ≤ vec_capacity line.new }
    ensures succeeds { length line.old.items
        + length (changes_from var.now 0 olds.now (take (length olds.now) (drop address sim.now.state.cells)))
        ≤ vec_capacity line.old → IsOk result }
{
    for (index, old) in olds.iter().enumerate() {
        let index = index as u32;
        put_change(line, var, index, *old, value_at(sim, address + index))?;
    }
    Ok(())
}

// How many cells a variable has.
fn cells_in(var: &Var) -> u64
    ensures { result ≡ cells_in var.now }
{
    var.len.unwrap_or(1)
}

// The changes of all variables' cells, the first of which stands at this address.
fn put_changes(
    line: &mut Vec<u8>,
    vars: &[Var],
    before: &[u64],
    address: u32,
    sim: &Sim<'_>,
) -> Result<(), NoMemory>
    requires whole { length before.now ≡ cell_count vars.now }
    requires within { address + cell_count vars.now ≤ length sim.now.state.cells }
    requires few { length sim.now.state.cells < 2 ^ 32 }
    ensures text { OnOk result (line.new.items ≡ line.old.items
        ++ changes vars.now before.now (store_from vars.now address sim.now.state.cells)) }
    ensures room { vec_capacity line.old ≤ vec_capacity line.new }
    ensures succeeds { length line.old.items
        + length (changes vars.now before.now (store_from vars.now address sim.now.state.cells))
        ≤ vec_capacity line.old → IsOk result }
{
    let mut olds = before;
    let mut at = address;
    for var in vars {
        let (own, rest) = olds.split_at(cells_in(var) as usize);
        put_cells(line, var, own, at, sim)?;
        olds = rest;
        at += own.len() as u32;
    }
    Ok(())
}

fn put_label(line: &mut Vec<u8>, label: Checkpoint) -> Result<(), NoMemory>
    ensures text { OnOk result (line.new.items ≡ line.old.items ++ checkpoint_label label) }
    ensures room { vec_capacity line.old ≤ vec_capacity line.new }
    ensures succeeds { length line.old.items + length (checkpoint_label label) ≤ vec_capacity line.old → IsOk result }
{
    match label {
        Checkpoint::At(tree) => put_number(line, u64::from(tree)),
        Checkpoint::End => {
            line.extend_from_slice(b"end")?;
            Ok(())
        }
    }
}

/// A checkpoint, and the cycle in which it is seen.
#[derive(Clone, Copy)]
pub struct SeenCheckpoint {
    pub cycle: u32,
    pub label: Checkpoint,
}

/// Puts the line of a checkpoint behind what `line` holds: what changed since the store `before`,
/// where the first of the variables' cells stands at `address`. It fails only where `line` has no
/// room for all of it and gets no more.
pub fn write_line(
    line: &mut Vec<u8>,
    vars: &[Var],
    before: &[u64],
    seen: SeenCheckpoint,
    address: u32,
    sim: &Sim<'_>,
) -> Result<(), NoMemory>
    requires whole { length before.now ≡ cell_count vars.now }
    requires within { address + cell_count vars.now ≤ length sim.now.state.cells }
    requires few { length sim.now.state.cells < 2 ^ 32 }
    ensures text { OnOk result (line.new.items ≡ line.old.items
        ++ checkpoint_line vars.now before.now
        (trace_entry seen.cycle seen.label (store_from vars.now address sim.now.state.cells))) }
    ensures room { vec_capacity line.old ≤ vec_capacity line.new }
    ensures succeeds { length line.old.items
        + length (checkpoint_line vars.now before.now
        (trace_entry seen.cycle seen.label (store_from vars.now address sim.now.state.cells)))
        ≤ vec_capacity line.old → IsOk result }
{
    line.extend_from_slice(b"at ")?;
    put_number(line, u64::from(seen.cycle))?;
    line.extend_from_slice(b" ")?;
    put_label(line, seen.label)?;
    put_changes(line, vars, before, address, sim)?;
    line.extend_from_slice(b"\n")?;
    Ok(())
}
