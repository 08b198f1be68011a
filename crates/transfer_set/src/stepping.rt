//! The words that step: the program counter becomes itself plus 1.

ghost use Rattle.std.specs.Prelude.{◌≡◌, ℕ, ◌==◌, ◌<◌, ◌&&◌, ◌||◌, length, IfOk};
ghost use Rattle.bit_bdd.specs.Diagrams.{Extends, has_word};
ghost use Rattle.net_model.specs.Nets.{counter_of, counter_width};
ghost use Rattle.sym_expr.specs.Pools.{expr_of_id};
ghost use Rattle.transfer_set.specs.Inner.Entries.{HaveWords, AreKnown};
ghost use Rattle.transfer_set.specs.Stepping.{is_next, is_one, is_reg};
ghost use Rattle.transfer_set.specs.Inner.Stepping.{any_step, entry_steps};

use crate::entries::Entry;
use bit_bdd::{Book, SetId};
use net_model::{Checked, Storage};
use rec_bits::{NoMemory, Op2};
use std::alloc::Global;
use sym_expr::{ExprId, Node, Pool};

/// A program counter, by the number of its storage and its width in bits.
#[derive(Clone, Copy)]
pub struct Counter {
    pub storage: u32,
    pub width: u8,
}

impl Counter {
    /// The program counter of a netlist.
    pub fn of(checked: &Checked) -> Counter
        ensures storage { result.storage ≡ counter_of checked.now.netlist.codes }
        ensures width { result.width ≡ counter_width checked.now.netlist }
    {
        let storage = checked.pc();
        let width = match checked.netlist().storages.get(storage as usize) {
            Some(Storage::Register { width, .. }) => *width,
            Some(Storage::Memory(cells) | Storage::File(cells)) => cells.width,
            None => 0,
        };
        Counter { storage, width }
    }
}

/// Whether an expression is the program counter as it stands.
pub fn is_register(pool: &Pool, expr: ExprId, counter: Counter) -> bool
    requires { expr < length pool.now }
    ensures { result ≡ is_reg counter (expr_of_id pool.now expr) }
{
    match pool.node(expr) {
        Node::Reg(id, width) => id == counter.storage && width == counter.width,
        _ => false,
    }
}

// Whether an expression is the constant 1 of this width.
fn is_unit(pool: &Pool, expr: ExprId, bits: u8) -> bool
    requires { expr < length pool.now }
    ensures { result ≡ is_one bits (expr_of_id pool.now expr) }
{
    match pool.node(expr) {
        Node::Const { width, value } => width == bits && value == 1,
        _ => false,
    }
}

/// Whether an expression is the program counter plus 1, in one of the two ways to write it.
pub fn is_step(pool: &Pool, expr: ExprId, counter: Counter) -> bool
    requires { expr < length pool.now }
    ensures { result ≡ is_next counter (expr_of_id pool.now expr) }
{
    match pool.node(expr) {
        Node::Bin(Op2::Add, a, b) => {
            (is_register(pool, a, counter) && is_unit(pool, b, counter.width))
                || (is_unit(pool, a, counter.width) && is_register(pool, b, counter))
        }
        _ => false,
    }
}

// Whether a transfer is the register's, and steps it.
fn steps(pool: &Pool, entry: Entry, counter: Counter) -> bool
    requires { entry.value < length pool.now }
    ensures { result ≡ entry_steps pool.now counter entry }
{
    entry.storage == counter.storage
        && match entry.addr {
            None => is_step(pool, entry.value, counter),
            Some(_) => false,
        }
}

// Adds to some words those of a transfer that steps.
fn with_step(
    alloc: Global,
    book: &mut Book,
    pool: &Pool,
    words: SetId,
    entry: Entry,
    counter: Counter,
) -> Result<SetId, NoMemory>
    requires words { words < length book.old.nodes }
    requires set { entry.set < length book.old.nodes }
    requires value { entry.value < length pool.now }
    ensures grows { Extends book.old book.new }
    ensures within { IfOk result (λ id. id < length book.new.nodes) }
    ensures words { IfOk result (λ id. (word : ℕ) →
        has_word book.new id word ≡
        (has_word book.old words word || (entry_steps pool.now counter entry && has_word book.old entry.set word))) }
{
    if !steps(pool, entry, counter) {
        return Ok(words);
    }
    book.or(alloc, words, entry.set)
}

// The words of all transfers that step.
pub(crate) fn step_set(
    alloc: Global,
    book: &mut Book,
    pool: &Pool,
    entries: &[Entry],
    counter: Counter,
) -> Result<SetId, NoMemory>
    requires words { HaveWords book.old entries.now }
    requires known { AreKnown (length pool.now) entries.now }
    ensures grows { Extends book.old book.new }
    ensures within { IfOk result (λ id. id < length book.new.nodes) }
    ensures words { IfOk result (λ id. (word : ℕ) →
        has_word book.new id word ≡ any_step book.old pool.now counter entries.now word) }
{
    // the size tells what the first id means
    let _ = book.size();
    let mut words = 0;
    for entry in entries {
        words = with_step(alloc, book, pool, words, *entry, counter)?;
    }
    Ok(words)
}
