//! What is known of the state behind a word.

ghost use Rattle.std.specs.Prelude.{ℕ, ◌≡◌, ◌≢◌, ◌<◌, false, true, IfOk, IfSome, length, slice_get, slice_set};
ghost use Rattle.net_model.specs.Exprs.{write_at};
ghost use Rattle.sym_expr.specs.Pools.{expr_of_id};
ghost use Rattle.sym_run.specs.declared.known.Cell;
ghost use Rattle.sym_run.specs.Known.{cell_at, entry};
ghost use Rattle.sym_run.specs.Moves.{AreNextCells, AreNextRegs, AreWithin, AreUnknown, IsNextFile, IsNextPut, IsNextReg, IsOfArray, IsOneMore, IsWritten, LeadsOn, cell_for, transfer_of};
ghost use Rattle.sym_run.specs.Inner.Reading.{SomeAlias};
ghost use Rattle.tree_laws.specs.Classes.{Grows};

use crate::eval::{Step, is_alias};
use crate::known::{Cell, Known, Put};
use class_values::{Fact, number_of};
use rec_bits::{Items, NoMemory};
use std::alloc::Global;
use sym_expr::ExprId;
use tree_laws::Classes;

/// What a word does to a storage, in the ids of a pool.
#[derive(Clone, Copy, PartialEq, Eq)]
pub enum Move {
    Keep,
    /// A register takes a value.
    Write(ExprId),
    /// The memory or the register file takes a value at an address.
    WriteAt { addr: ExprId, value: ExprId },
}

// What a word does to the storage of this number.
fn move_of(moves: &[Move], storage: u64) -> Option<Move>
    ensures { result ≡ slice_get moves.now storage }
{
    match moves.get(storage as usize) {
        Some(found) => Some(*found),
        None => None,
    }
}

// What is known of a register.
pub(crate) fn held(known: &Known, register: u64) -> Option<u64>
    ensures { result ≡ entry known.now.regs register }
{
    match known.regs.get(register as usize) {
        Some(class) => *class,
        None => None,
    }
}

impl Step<'_> {
    // What is known of a register behind the word.
    fn next_reg(
        &self,
        table: &mut Classes,
        moves: &[Move],
        register: u64,
    ) -> Result<Option<u64>, NoMemory>
        requires { AreWithin (length self.now.pool.now) moves.now }
        ensures grows { Grows table.old table.new }
        ensures is { IfOk result (IsNextReg table.old table.new self.now.facts.now self.now.known.now self.now.word
            (transfer_of self.now.pool.now (slice_get moves.now register)) register) }
    {
        match move_of(moves, register) {
            Some(Move::Write(value)) => self.eval(table, value),
            Some(
                Move::WriteAt {
                    addr: _addr,
                    value: _value,
                },
            ) => Ok(held(self.known, register)),
            Some(Move::Keep) => Ok(held(self.known, register)),
            None => Ok(held(self.known, register)),
        }
    }

    // What is known of the registers behind the word.
    fn next_regs(
        &self,
        alloc: Global,
        table: &mut Classes,
        moves: &[Move],
    ) -> Result<Items<Option<u64>>, NoMemory>
        requires { AreWithin (length self.now.pool.now) moves.now }
        ensures grows { Grows table.old table.new }
        ensures is { IfOk result (AreNextRegs table.old table.new self.now.facts.now self.now.known.now self.now.word
            self.now.pool.now moves.now) }
    {
        let mut regs = Items::new(alloc);
        for register in 0..self.known.regs.len() {
            regs.push(self.next_reg(table, moves, register as u64)?)?;
        }
        Ok(regs)
    }

    // What is known of the memory's cells behind the word, where the memory has this number, or None
    // where it is written at an address that isn't known or is an array's.
    fn next_cells(
        &self,
        alloc: Global,
        table: &mut Classes,
        moves: &[Move],
        memory: u64,
    ) -> Result<Option<Items<Cell>>, NoMemory>
        requires { AreWithin (length self.now.pool.now) moves.now }
        ensures grows { Grows table.old table.new }
        ensures is { IfOk result (λ found. IfSome found (AreNextCells table.old table.new self.now.facts.now self.now.known.now
            self.now.word (transfer_of self.now.pool.now (slice_get moves.now memory)))) }
    {
        match move_of(moves, memory) {
            Some(Move::WriteAt { addr, value }) => { self.stored(alloc, table, addr, value) }
            Some(Move::Write(_value)) => copied(alloc, self.known),
            Some(Move::Keep) => copied(alloc, self.known),
            None => copied(alloc, self.known),
        }
    }

    // What is known of the memory's cells behind a write.
    fn stored(
        &self,
        alloc: Global,
        table: &mut Classes,
        addr: ExprId,
        value: ExprId,
    ) -> Result<Option<Items<Cell>>, NoMemory>
        requires addr { addr < length self.now.pool.now }
        requires value { value < length self.now.pool.now }
        ensures grows { Grows table.old table.new }
        ensures is { IfOk result (λ found. IfSome found (AreNextCells table.old table.new self.now.facts.now self.now.known.now
            self.now.word (write_at (expr_of_id self.now.pool.now addr) (expr_of_id self.now.pool.now value)))) }
    {
        let at = self.eval(table, addr)?;
        let value = self.eval(table, value)?;
        let Some(at) = at else {
            return Ok(None);
        };
        let Some(address) = number_of(table, self.facts, at) else {
            return Ok(None);
        };
        written(alloc, self.known, address, value)
    }

    // What was written to arrays behind a write to an element, or None where it is none or its value
    // isn't known.
    fn put(
        &self,
        alloc: Global,
        table: &mut Classes,
        addr: ExprId,
        value: ExprId,
    ) -> Result<Option<Items<Put>>, NoMemory>
        requires addr { addr < length self.now.pool.now }
        requires value { value < length self.now.pool.now }
        ensures grows { Grows table.old table.new }
        ensures is { IfOk result (λ found. IfSome found (IsNextPut table.old table.new self.now.facts.now self.now.known.now
            self.now.word (write_at (expr_of_id self.now.pool.now addr) (expr_of_id self.now.pool.now value)))) }
    {
        let at = self.eval(table, addr)?;
        let value = self.eval(table, value)?;
        let Some(at) = at else {
            return Ok(None);
        };
        let Some(value) = value else {
            return Ok(None);
        };
        one_more(alloc, table, self.facts, self.known, at, value)
    }

    // The same of a word.
    fn next_put(
        &self,
        alloc: Global,
        table: &mut Classes,
        moves: &[Move],
        memory: u64,
    ) -> Result<Option<Items<Put>>, NoMemory>
        requires { AreWithin (length self.now.pool.now) moves.now }
        ensures grows { Grows table.old table.new }
        ensures is { IfOk result (λ found. IfSome found (IsNextPut table.old table.new self.now.facts.now self.now.known.now
            self.now.word (transfer_of self.now.pool.now (slice_get moves.now memory)))) }
    {
        match move_of(moves, memory) {
            Some(Move::WriteAt { addr, value }) => { self.put(alloc, table, addr, value) }
            Some(Move::Write(_value)) => Ok(None),
            Some(Move::Keep) => Ok(None),
            None => Ok(None),
        }
    }

    // What is known of the register file's cells behind a write: where its address isn't known, nothing.
    fn filed(
        &self,
        alloc: Global,
        table: &mut Classes,
        addr: ExprId,
        value: ExprId,
    ) -> Result<Items<Option<u64>>, NoMemory>
        requires addr { addr < length self.now.pool.now }
        requires value { value < length self.now.pool.now }
        ensures grows { Grows table.old table.new }
        ensures is { IfOk result (IsNextFile table.old table.new self.now.facts.now self.now.known.now
            self.now.word (write_at (expr_of_id self.now.pool.now addr) (expr_of_id self.now.pool.now value))) }
    {
        let at = self.eval(table, addr)?;
        let value = self.eval(table, value)?;
        let Some(at) = at else {
            return unknown(alloc, self.known.file.len() as u64);
        };
        let Some(address) = number_of(table, self.facts, at) else {
            return unknown(alloc, self.known.file.len() as u64);
        };
        file_written(alloc, self.known, address, value)
    }

    // What is known of the register file's cells behind the word, where the file has this number.
    fn next_file(
        &self,
        alloc: Global,
        table: &mut Classes,
        moves: &[Move],
        file: u64,
    ) -> Result<Items<Option<u64>>, NoMemory>
        requires { AreWithin (length self.now.pool.now) moves.now }
        ensures grows { Grows table.old table.new }
        ensures is { IfOk result (IsNextFile table.old table.new self.now.facts.now self.now.known.now self.now.word
            (transfer_of self.now.pool.now (slice_get moves.now file))) }
    {
        match move_of(moves, file) {
            Some(Move::WriteAt { addr, value }) => { self.filed(alloc, table, addr, value) }
            Some(Move::Write(_value)) => same_file(alloc, self.known),
            Some(Move::Keep) => same_file(alloc, self.known),
            None => same_file(alloc, self.known),
        }
    }

    /// What is known of the state behind the word, where the memory and the register file have these
    /// numbers, or None where the memory is written at an address that isn't known. Where the
    /// register file is, nothing is known of its cells any more.
    pub fn next(
        &self,
        alloc: Global,
        table: &mut Classes,
        moves: &[Move],
        memory: u64,
        file: u64,
    ) -> Result<Option<Known>, NoMemory>
        requires { AreWithin (length self.now.pool.now) moves.now }
        ensures grows { Grows table.old table.new }
        ensures is { IfOk result (λ found. IfSome found (LeadsOn table.old table.new self.now.facts.now self.now.known.now
            self.now.word self.now.pool.now moves.now memory file)) }
    {
        let cells = self.next_file(alloc, table, moves, file)?;
        let Some(mut known) = self.next_fileless(alloc, table, moves, memory)? else {
            return Ok(None);
        };
        known.file = cells;
        Ok(Some(known))
    }

    // The same with nothing known of the register file, which may be any storage.
    fn next_fileless(
        &self,
        alloc: Global,
        table: &mut Classes,
        moves: &[Move],
        memory: u64,
    ) -> Result<Option<Known>, NoMemory>
        requires { AreWithin (length self.now.pool.now) moves.now }
        ensures grows { Grows table.old table.new }
        ensures is { IfOk result (λ found. IfSome found (λ next. (file : ℕ) → LeadsOn table.old table.new self.now.facts.now
            self.now.known.now self.now.word self.now.pool.now moves.now memory file next)) }
    {
        let Some(puts) = self.next_put(alloc, table, moves, memory)? else {
            return self.next_plain(alloc, table, moves, memory);
        };
        let regs = self.next_regs(alloc, table, moves)?;
        let cells = Items::from_slice(alloc, self.known.cells.as_slice())?;
        let inside = Items::from_slice(alloc, self.known.inside.as_slice())?;
        Ok(Some(Known {
            regs,
            cells,
            inside,
            puts,
            file: Items::new(alloc),
        }))
    }

    // The same where no element is written.
    fn next_plain(
        &self,
        alloc: Global,
        table: &mut Classes,
        moves: &[Move],
        memory: u64,
    ) -> Result<Option<Known>, NoMemory>
        requires { AreWithin (length self.now.pool.now) moves.now }
        ensures grows { Grows table.old table.new }
        ensures is { IfOk result (λ found. IfSome found (λ next. (file : ℕ) → LeadsOn table.old table.new self.now.facts.now
            self.now.known.now self.now.word self.now.pool.now moves.now memory file next)) }
    {
        let regs = self.next_regs(alloc, table, moves)?;
        let Some(cells) = self.next_cells(alloc, table, moves, memory)? else {
            return Ok(None);
        };
        let inside = Items::from_slice(alloc, self.known.inside.as_slice())?;
        let puts = Items::from_slice(alloc, self.known.puts.as_slice())?;
        Ok(Some(Known {
            regs,
            cells,
            inside,
            puts,
            file: Items::new(alloc),
        }))
    }
}

// Whether the cell of an address is known to be an array's.
fn is_array_at(known: &Known, address: u64) -> bool
    ensures { result ≡ true → cell_at known.now.cells address ≡ Cell.Array }
{
    match known.cells.get(address as usize) {
        Some(Cell::Array) => true,
        _ => false,
    }
}

// Whether the class is of the address of an array's cell: a listed one, or a number.
fn is_of_array(table: &Classes, facts: &[Fact], known: &Known, class: u64) -> bool
    ensures { result ≡ true → IsOfArray table.now facts.now known.now class }
{
    if is_listed(table, known, class) {
        return true;
    }
    let Some(address) = number_of(table, facts, class) else {
        return false;
    };
    is_array_at(known, address)
}

// Whether it is a listed one.
fn is_listed(table: &Classes, known: &Known, class: u64) -> bool
    ensures { result ≡ true → SomeAlias table.now known.now.inside class }
{
    is_alias(table, known.inside.as_slice(), class)
}

// What was written to arrays, and one write more, where the class is of an address of an array.
pub(crate) fn one_more(
    alloc: Global,
    table: &Classes,
    facts: &[Fact],
    known: &Known,
    address: u64,
    value: u64,
) -> Result<Option<Items<Put>>, NoMemory>
    ensures { IfOk result (λ found. IfSome found (IsOneMore table.now facts.now known.now address value)) }
{
    if !is_of_array(table, facts, known, address) {
        return Ok(None);
    }
    let mut puts = Items::from_slice(alloc, known.puts.as_slice())?;
    puts.push(Put { address, value })?;
    Ok(Some(puts))
}

// The same cells.
fn copied(alloc: Global, known: &Known) -> Result<Option<Items<Cell>>, NoMemory>
    ensures { IfOk result (λ found. IfSome found (λ next. next ≡ known.now.cells)) }
{
    Ok(Some(Items::from_slice(alloc, known.cells.as_slice())?))
}

/// Nothing known of so many registers, or cells of a register file.
pub fn unknown(alloc: Global, count: u64) -> Result<Items<Option<u64>>, NoMemory>
    ensures { IfOk result (AreUnknown count) }
{
    let mut entries = Items::new(alloc);
    for _k in 0..count {
        entries.push(None)?;
    }
    Ok(entries)
}

// What is known of the register file's cells.
fn same_file(alloc: Global, known: &Known) -> Result<Items<Option<u64>>, NoMemory>
    ensures { IfOk result (λ next. next ≡ known.now.file) }
{
    Items::from_slice(alloc, known.file.as_slice())
}

// The same with a value at an address, if what is known reaches there.
fn file_written(
    alloc: Global,
    known: &Known,
    address: u64,
    value: Option<u64>,
) -> Result<Items<Option<u64>>, NoMemory>
    ensures { IfOk result (λ next. next ≡ slice_set known.now.file address value) }
{
    let mut next = same_file(alloc, known)?;
    if address < next.len() as u64 {
        next.set(address as usize, value);
    }
    Ok(next)
}

// Whether it is an array's cell.
fn is_array(cell: Cell) -> bool
    ensures { result ≡ false → cell ≢ Cell.Array }
{
    match cell {
        Cell::Array => true,
        _ => false,
    }
}

// What is known of a cell that takes a value.
fn cell_for(value: Option<u64>) -> Cell
    ensures { result ≡ cell_for value }
{
    match value {
        Some(class) => Cell::Is(class),
        None => Cell::Unknown,
    }
}

/// The cells with a value at an address, or None where an array's cell stands there.
pub fn written(
    alloc: Global,
    known: &Known,
    address: u64,
    value: Option<u64>,
) -> Result<Option<Items<Cell>>, NoMemory>
    ensures { IfOk result (λ found. IfSome found (IsWritten known.now.cells address value)) }
{
    let mut next = Items::from_slice(alloc, known.cells.as_slice())?;
    let Some(cell) = known.cells.get(address as usize) else {
        return Ok(Some(next));
    };
    if is_array(*cell) {
        return Ok(None);
    }
    next.set(address as usize, cell_for(value));
    Ok(Some(next))
}
