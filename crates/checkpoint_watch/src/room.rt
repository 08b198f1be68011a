//! The room of a line.

ghost use Rattle.std.specs.Prelude.{◌≡◌, ◌≤◌, [], ℕ, List, length, vec_capacity, IfOk, IfSome};
ghost use Rattle.code_model.specs.Machine.{TraceEntry};
ghost use Rattle.checkpoint_watch.specs.Rooms.{changes_room, line_room, EntryFits};
ghost use Rattle.checkpoint_watch.specs.Texts.{checkpoint_line};

use rec_bits::NoMemory;
use src_model::Var;
use std::alloc::Global;

// The bytes of a line, but for its changes.
const FRAME: usize = 25;

// The bytes of a change, but for the variable's name.
const CHANGE: usize = 34;

fn changes_room(vars: &[Var]) -> Option<usize>
    ensures { IfSome result (λ room. room ≡ changes_room vars.now) }
{
    let mut room: usize = 0;
    for var in vars {
        let cells = var.len.unwrap_or(1) as usize;
        let change = var.name.len().checked_add(CHANGE)?;
        room = room.checked_add(cells.checked_mul(change)?)?;
    }
    Some(room)
}

/// Room for the line of any checkpoint of a program with these variables, with all their cells in
/// it and every number at its greatest width, so that `write_line` into it can't fail.
pub fn line_room(alloc: Global, vars: &[Var]) -> Result<Vec<u8>, NoMemory>
    ensures empty { IfOk result (λ line. line.items ≡ []) }
    ensures room { IfOk result (λ line. line_room vars.now ≤ vec_capacity line) }
{
    let Some(changes) = changes_room(vars) else {
        return Err(NoMemory);
    };
    let Some(room) = changes.checked_add(FRAME) else {
        return Err(NoMemory);
    };
    Ok(Vec::with_capacity(alloc, room)?)
}
