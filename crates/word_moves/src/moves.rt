// What the storages and the buses do under an instruction word.

ghost use Rattle.std.specs.Prelude.{◌≡◌, ◌<◌, ◌^◌, IfOk, length, slice_index};
ghost use Rattle.net_model.specs.Clock.{clash_in, is_enabled};
ghost use Rattle.net_model.specs.Flags.{flag_at};
ghost use Rattle.net_model.specs.Symbolic.{is_static, no_state};
ghost use Rattle.net_model.specs.Transfers.{same_reg, storage_transfer};
ghost use Rattle.net_model.specs.Value.{value_of};
ghost use Rattle.net_model.specs.Widths.{WordFits};
ghost use Rattle.sym_expr.specs.Pools.{Grows, expr_of_id};
ghost use Rattle.word_moves.specs.Inner.Gates.{StorageKnown, is_register_node, net_exprs};
ghost use Rattle.word_moves.specs.Inner.Ids.{AreIds};
ghost use Rattle.word_moves.specs.Moves.{AreMoves, IsMoveWithin, IsWordMoves, transfer_in};

use crate::evaluate::values_of;
use crate::gates::AtWord;
use crate::trace::ids_of;
use cycle_sim::{find_clash, value_at};
use net_model::{Checked, Net, Storage};
use rec_bits::{Items, NoMemory};
use std::alloc::Global;
use sym_expr::{ExprId, Node, Pool};

/// What a storage does at a clock, in the ids of a pool.
#[derive(Clone, Copy, PartialEq, Eq)]
pub enum StorageMove {
    Keep,
    /// A register takes a value.
    Write(ExprId),
    /// The memory or the register file takes a value at an address.
    WriteAt { addr: ExprId, value: ExprId },
}

/// What a netlist does under one instruction word.
#[derive(Drop)]
pub struct WordMoves {
    /// The first bus of which two drivers are enabled.
    pub clash: Option<u32>,
    /// What each storage does.
    pub moves: Items<StorageMove>,
}

/// What a checked netlist does under an instruction word below 2 to the code's bits, in one pass
/// over its nets. The expressions are added to the pool.
pub fn word_moves(
    alloc: Global,
    checked: &Checked,
    pool: &mut Pool,
    word: u64,
) -> Result<WordMoves, NoMemory>
    requires { WordFits checked.now.netlist word }
    ensures grows { Grows pool.old pool.new }
    ensures moves { IfOk result (IsWordMoves checked.now.netlist word pool.new) }
{
    let values = values_of(alloc, checked, word)?;
    let statics = checked.static_flags(alloc)?;
    let at = AtWord {
        word,
        values: values.as_slice(),
        statics: statics.as_slice(),
    };
    moves_at(alloc, checked, pool, &at)
}

// What the netlist does, given the values of its nets where all storages hold 0.
fn moves_at(
    alloc: Global,
    checked: &Checked,
    pool: &mut Pool,
    at: &AtWord<'_>,
) -> Result<WordMoves, NoMemory>
    requires values { slice_index at.now.values.now ≡ value_of checked.now.netlist no_state at.now.word }
    requires statics { flag_at at.now.statics.now ≡ is_static checked.now.netlist }
    ensures grows { Grows pool.old pool.new }
    ensures moves { IfOk result (IsWordMoves checked.now.netlist at.now.word pool.new) }
{
    let ids = ids_of(alloc, checked, pool, at)?;
    let moves = moves_of(alloc, checked, pool, ids.as_slice(), at)?;
    let clash = first_clash(at.values, checked.netlist().nets.as_slice());
    Ok(WordMoves { clash, moves })
}

// The first bus that clashes.
fn first_clash(values: &[u64], nets: &[Net]) -> Option<u32>
    requires { length nets.now < 2 ^ 32 }
    ensures { result ≡ clash_in (slice_index values.now) nets.now }
{
    match find_clash(values, nets) {
        Some(bus) => Some(bus as u32),
        None => None,
    }
}

// What each storage does under the instruction word.
fn moves_of(
    alloc: Global,
    checked: &Checked,
    pool: &Pool,
    ids: &[ExprId],
    at: &AtWord<'_>,
) -> Result<Items<StorageMove>, NoMemory>
    requires ids { AreIds checked.now.netlist at.now.word pool.now ids.now }
    requires values { slice_index at.now.values.now ≡ value_of checked.now.netlist no_state at.now.word }
    ensures { IfOk result (λ moves. AreMoves checked.now.netlist at.now.word pool.now moves) }
{
    let storages = checked.netlist().storages.as_slice();
    let mut moves = Items::new(alloc);
    for (id, storage) in storages.iter().enumerate() {
        moves.push(move_of(pool, ids, at.values, id, storage))?;
    }
    Ok(moves)
}

// What a storage does.
fn move_of(pool: &Pool, ids: &[ExprId], values: &[u64], id: usize, storage: &Storage) -> StorageMove
    requires { StorageKnown pool.now ids.now storage.now }
    ensures within { IsMoveWithin pool.now result }
    ensures is { transfer_in pool.now result
        ≡ storage_transfer (net_exprs pool.now ids.now) (slice_index values.now) id storage.now }
{
    match storage {
        Storage::Register { input, when, .. } => {
            let value = value_at(ids, *input);
            if enables(values, *when) && !holds_itself(pool, value, id) {
                StorageMove::Write(value)
            } else {
                StorageMove::Keep
            }
        }
        Storage::Memory(cells) | Storage::File(cells) => {
            if enables(values, cells.when) {
                StorageMove::WriteAt {
                    addr: value_at(ids, cells.addr),
                    value: value_at(ids, cells.value),
                }
            } else {
                StorageMove::Keep
            }
        }
    }
}

fn enables(values: &[u64], when: Option<u32>) -> bool
    ensures { result ≡ is_enabled (slice_index values.now) when }
{
    match when {
        Some(net) => value_at(values, net) == 1,
        None => true,
    }
}

// Whether an expression is the register of this number as it stands.
fn holds_itself(pool: &Pool, value: ExprId, id: usize) -> bool
    requires { value < length pool.now }
    ensures { result ≡ same_reg (expr_of_id pool.now value) id }
{
    is_register(pool.node(value), id)
}

fn is_register(node: Node, id: usize) -> bool
    ensures { result ≡ is_register_node node id }
{
    match node {
        Node::Reg(register, _) => register as usize == id,
        _ => false,
    }
}
