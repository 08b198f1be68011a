//! The word that an image ends with.

ghost use Rattle.std.specs.Prelude.{◌≡◌, ◌<◌, ◌↔◌, IfOk, IsTrue, Some, length, slice_get};
ghost use Rattle.net_model.specs.Widths.{WordFits};
ghost use Rattle.sym_expr.specs.Pools.{expr_of_id};
ghost use Rattle.word_moves.specs.Moves.{IsMoveWithin, IsWordMoves};
ghost use Rattle.word_moves.specs.declared.moves.StorageMove.{StorageMove as TheMove};
ghost use Rattle.check_command.specs.EndWords.{IsEndWord, plain_address};
ghost use Rattle.check_command.specs.Inner.Moves.{AreEnding, is_kept, told_address};

use net_model::{Checked, Space};
use rec_bits::{NoMemory, slice};
use std::alloc::Global;
use sym_expr::{ExprId, Node, Pool};
use word_moves::{StorageMove, WordMoves, word_moves};

// The address that an expression tells under a word, if the word's bits or a number tell it.
fn plain_address(pool: &Pool, id: ExprId, word: u64) -> Option<u64>
    requires { id < length pool.now }
    ensures { result ≡ plain_address word (expr_of_id pool.now id) }
{
    match pool.node(id) {
        Node::Word(_) => Some(word),
        Node::Const { value, .. } => Some(value),
        Node::Slice(a, hi, lo) => {
            let address = plain_address(pool, a, word)?;
            Some(slice(address, hi, lo))
        }
        Node::Zext(a, _) => plain_address(pool, a, word),
        _ => None,
    }
}

// The address that a move tells, which is that of the program counter.
fn written_address(pool: &Pool, found: StorageMove, word: u64) -> Option<u64>
    requires { IsMoveWithin pool.now found }
    ensures { result ≡ told_address pool.now word (Some found) }
{
    match found {
        StorageMove::Write(value) => plain_address(pool, value, word),
        _ => None,
    }
}

// The same of a move that may be absent.
fn told_address(pool: &Pool, found: Option<StorageMove>, word: u64) -> Option<u64>
    requires { (move : TheMove) → found ≡ Some move → IsMoveWithin pool.now move }
    ensures { result ≡ told_address pool.now word found }
{
    match found {
        Some(found) => written_address(pool, found, word),
        None => None,
    }
}

// Whether a move leaves its storage as it is, or there is none.
fn is_kept(found: Option<StorageMove>) -> bool
    ensures { result ≡ is_kept found }
{
    matches!(found, None | Some(StorageMove::Keep))
}

// Whether an address is told, and this one.
fn is_told(told: Option<u64>, address: u64) -> bool
    ensures { IsTrue result ↔ (told ≡ Some address) }
{
    match told {
        Some(other) => other == address,
        None => false,
    }
}

// Whether the program counter's move tells this address.
fn goes_to(pool: &Pool, counter: Option<StorageMove>, word: u64, address: u64) -> bool
    requires { (move : TheMove) → counter ≡ Some move → IsMoveWithin pool.now move }
    ensures { IsTrue result ↔ (told_address pool.now word counter ≡ Some address) }
{
    is_told(told_address(pool, counter, word), address)
}

// Whether nothing clashes, the program counter's move tells this address, and the memory's keeps it.
fn are_ending(
    pool: &Pool,
    clash: Option<u32>,
    counter: Option<StorageMove>,
    memory: Option<StorageMove>,
    word: u64,
    address: u64,
) -> bool
    requires { (move : TheMove) → counter ≡ Some move → IsMoveWithin pool.now move }
    ensures { IsTrue result ↔ AreEnding pool.now word address clash counter memory }
{
    clash.is_none() && goes_to(pool, counter, word, address) && is_kept(memory)
}

// What is found of a storage.
fn found_of(moves: &[StorageMove], storage: u32) -> Option<StorageMove>
    ensures { result ≡ slice_get moves.now storage }
{
    moves.get(storage as usize).copied()
}

// Whether what a netlist does under a word plainly ends an image whose last word stands at this
// address.
fn ends(checked: &Checked, pool: &Pool, found: &WordMoves, word: u64, address: u64) -> bool
    requires fits { WordFits checked.now.netlist word }
    requires moves { IsWordMoves checked.now.netlist word pool.now found.now }
    ensures { IsTrue result ↔ IsEndWord checked.now.netlist word address }
{
    let moves = found.moves.as_slice();
    let counter = found_of(moves, checked.pc());
    let memory = found_of(moves, checked.place(Space::Memory));
    are_ending(pool, found.clash, counter, memory, word, address)
}

/// Whether a word plainly ends an image whose last word stands at this address.
pub fn is_end_word(
    alloc: Global,
    checked: &Checked,
    word: u64,
    address: u64,
) -> Result<bool, NoMemory>
    requires { WordFits checked.now.netlist word }
    ensures { IfOk result (λ said. IsTrue said ↔ IsEndWord checked.now.netlist word address) }
{
    let mut pool = Pool::new(alloc)?;
    let found = word_moves(alloc, checked, &mut pool, word)?;
    Ok(ends(checked, &pool, &found, word, address))
}
