//! What the words of an image do.

ghost use Rattle.std.specs.Prelude.{◌≡◌, ◌<◌, ℕ, true, map, length, IfOk, IfSome, Some, slice_get};
ghost use Rattle.net_model.specs.declared.hardware.Netlist.{Netlist};
ghost use Rattle.net_model.specs.Nets.{counter_of, place_in};
ghost use Rattle.net_model.specs.declared.hardware.Space.TheVariants.{Memory as InMemory};
ghost use Rattle.net_model.specs.Widths.{WordFits};
ghost use Rattle.code_model.specs.Words.{DoesGoto, IsFixedAt};
ghost use Rattle.sym_expr.specs.Pools.{Grows, expr_of_id};
ghost use Rattle.sym_run.specs.Moves.{AreWithin};
ghost use Rattle.sym_run.specs.Walks.{IsCodedAt};
ghost use Rattle.followed.specs.Inner.Coded.{AreWordsOf, IsWordOf, move_of};

use crate::fault::CheckFault;
use net_model::Checked;
use rec_bits::{Items, NoMemory, slice};
use std::alloc::Global;
use sym_expr::{ExprId, Node, Pool};
use sym_run::{Coded, Move};
use word_moves::{StorageMove, word_moves};

fn move_of(found: StorageMove) -> Move
    ensures { result ≡ move_of found }
{
    match found {
        StorageMove::Keep => Move::Keep,
        StorageMove::Write(value) => Move::Write(value),
        StorageMove::WriteAt { addr, value } => Move::WriteAt { addr, value },
    }
}

fn moves_of(alloc: Global, found: &[StorageMove]) -> Result<Items<Move>, NoMemory>
    ensures { IfOk result (λ moves. moves ≡ map move_of found.now) }
{
    let mut moves = Items::new(alloc);
    for one in found {
        moves.push(move_of(*one))?;
    }
    Ok(moves)
}

// What a word does, or None where buses clash under it.
fn coded(
    alloc: Global,
    checked: &Checked,
    pool: &mut Pool,
    word: u64,
) -> Result<Option<Coded>, NoMemory>
    requires { WordFits checked.now.netlist word }
    ensures grows { Grows pool.old pool.new }
    ensures is { IfOk result (λ found. IfSome found (IsWordOf checked.now.netlist pool.new word)) }
{
    let found = word_moves(alloc, checked, pool, word)?;
    if found.clash.is_some() {
        return Ok(None);
    }
    let moves = moves_of(alloc, found.moves.as_slice())?;
    Ok(Some(Coded { word, moves }))
}

// What words do.
pub(crate) fn code_of(
    alloc: Global,
    checked: &Checked,
    pool: &mut Pool,
    words: &[u64],
) -> Result<Items<Coded>, CheckFault>
    requires { (a word : ℕ) → slice_get words.now a ≡ Some word → WordFits checked.now.netlist word }
    ensures grows { Grows pool.old pool.new }
    ensures is { IfOk result (AreWordsOf checked.now.netlist pool.new words.now) }
{
    let mut code = Items::new(alloc);
    for i in 0..words.len() {
        let Some(one) = coded(alloc, checked, pool, words[i])? else {
            return Err(CheckFault::Clash(i as u64));
        };
        code.push(one)?;
    }
    Ok(code)
}

// The value of an expression that doesn't depend on the state, under a word.
fn fixed(pool: &Pool, id: ExprId, word: u64) -> Option<u64>
    requires { id < length pool.now }
    ensures { IfSome result (IsFixedAt word (expr_of_id pool.now id)) }
{
    match pool.node(id) {
        Node::Word(_width) => Some(word),
        Node::Const {
            width: _width,
            value,
        } => Some(value),
        Node::Slice(a, hi, lo) => {
            let a = fixed(pool, a, word)?;
            if hi > 63 {
                return None;
            }
            Some(slice(a, hi, lo))
        }
        Node::Zext(a, _width) => fixed(pool, a, word),
        _ => None,
    }
}

// What a word does to the storage of this number.
fn move_at(moves: &[Move], storage: u64) -> Option<Move>
    ensures { result ≡ slice_get moves.now storage }
{
    match moves.get(storage as usize) {
        Some(found) => Some(*found),
        None => None,
    }
}

// Whether a storage takes this value, whatever the state.
fn goes(pool: &Pool, found: Option<Move>, word: u64, to: u64) -> bool
    requires { (value : ℕ) → found ≡ Some (Move.Write value) → value < length pool.now }
    ensures { result ≡ true → (value : ℕ) × (found ≡ Some (Move.Write value)) × IsFixedAt word (expr_of_id pool.now value) to }
{
    match found {
        Some(Move::Write(value)) => match fixed(pool, value, word) {
            Some(number) => number == to,
            None => false,
        },
        _ => false,
    }
}

// Whether it keeps what it holds.
fn keeps(found: Option<Move>) -> bool
    ensures { result ≡ true → found ≡ Some Move.Keep }
{
    match found {
        Some(Move::Keep) => true,
        _ => false,
    }
}

// Whether a word goes to an address and keeps the memory, where the program counter and the memory
// are the storages of these numbers.
pub(crate) fn goes_to(pool: &Pool, coded: &Coded, counter: u64, memory: u64, to: u64) -> bool
    requires { AreWithin (length pool.now) coded.now.moves }
    ensures { result ≡ true → (netlist : Netlist) (word : ℕ) → IsCodedAt netlist pool.now word coded.now → counter ≡ counter_of netlist.codes →
        memory ≡ place_in InMemory netlist.storages → DoesGoto netlist word to }
{
    if !goes(
        pool,
        move_at(coded.moves.as_slice(), counter),
        coded.word,
        to,
    ) {
        return false;
    }
    keeps(move_at(coded.moves.as_slice(), memory))
}
