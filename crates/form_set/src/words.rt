//! The words that do a pattern's transfer and leave other storages alone.

ghost use Rattle.std.specs.Prelude.{◌≡◌, ◌↔◌, ◌<◌, ◌^◌, IfOk, IsTrue, length, slice_get};
ghost use Rattle.bit_bdd.specs.Diagrams.{Extends};
ghost use Rattle.form_set.specs.Inner.PatternIds.{AreIdsIn, pattern_in};
ghost use Rattle.transfer_set.specs.Machines.{IsReadyFor, machine_netlist, machine_patterns};
ghost use Rattle.form_set.specs.Inner.Holds.{KeepsMemory, StepsTo};
ghost use Rattle.form_set.specs.Static.{is_file_at};
ghost use Rattle.form_set.specs.Words.{AreClobbers, AreKept, CanJump, CanTurn, IsSetOf, Joins, TurnsAt, WordKeepsMemory, KeepsOthers, all_registers as all_registers_of, is_register_storage as is_register_of, own_storage as own_storage_of};

use crate::decide::has_all;
use crate::linear::one;
use crate::pattern_ids::{PatternIds, keep_of, known_ids};
use bit_bdd::{Book, SetId};
use net_model::{Checked, Space, Storage};
use rec_bits::NoMemory;
use std::alloc::Global;
use transfer_set::Machine;

// Registers, and the words of a pattern that step and keep them, the data memory and the register
// file.
#[derive(Clone, Copy)]
pub(crate) struct Kept {
    pub(crate) words: SetId,
    pub(crate) registers: u16,
}

// Whether the storage of this number is a register.
fn is_register(checked: &Checked, id: u32) -> bool
    ensures { result ≡ is_register_of (slice_get checked.now.netlist.storages id) }
{
    match checked.netlist().storages.get(id as usize) {
        Some(Storage::Register { .. }) => true,
        Some(Storage::Memory(_) | Storage::File(_)) | None => false,
    }
}

// Whether the storage of this number is the register file.
pub(crate) fn is_file(checked: &Checked, id: u32) -> bool
    ensures { result ≡ is_file_at checked.now.netlist id }
{
    id == checked.place(Space::File)
}

// All registers of a netlist.
pub(crate) fn all_registers(checked: &Checked) -> u16
    ensures { result ≡ all_registers_of checked.now.netlist.storages }
{
    let count = checked.netlist().storages.len() as u32;
    let mut registers = 0;
    for id in 0..count {
        if is_register(checked, id) {
            registers |= one(id);
        }
    }
    registers
}

// Those of a pattern's words that keep the data memory, unless that is its storage.
fn memory_words(
    alloc: Global,
    machine: &Machine<'_>,
    book: &mut Book,
    ids: PatternIds,
    words: SetId,
) -> Result<SetId, NoMemory>
    requires ready { IsReadyFor machine.now book.old }
    requires ids { AreIdsIn machine.now book.old ids }
    requires words { IsSetOf book.old (StepsTo (machine_netlist machine.now) (pattern_in machine.now ids)) words }
    ensures grows { Extends book.old book.new }
    ensures words { IfOk result (IsSetOf book.new (KeepsMemory (machine_netlist machine.now)
        (pattern_in machine.now ids))) }
{
    if ids.storage == machine.patterns.memory() {
        return Ok(words);
    }
    let kept = book.and(
        alloc,
        words,
        keep_of(machine.patterns, machine.patterns.memory()),
    )?;
    Ok(kept)
}

// And those of them that keep the register file, unless that is its storage.
fn file_words(
    alloc: Global,
    machine: &Machine<'_>,
    book: &mut Book,
    ids: PatternIds,
    words: SetId,
) -> Result<SetId, NoMemory>
    requires ready { IsReadyFor machine.now book.old }
    requires ids { AreIdsIn machine.now book.old ids }
    requires words { IsSetOf book.old (KeepsMemory (machine_netlist machine.now) (pattern_in machine.now ids)) words }
    ensures grows { Extends book.old book.new }
    ensures words { IfOk result (IsSetOf book.new (KeepsOthers (machine_netlist machine.now)
        (pattern_in machine.now ids) 0)) }
{
    match machine.patterns.file() {
        None => Ok(words),
        Some(file) => {
            if ids.storage == file {
                return Ok(words);
            }
            let kept = book.and(alloc, words, keep_of(machine.patterns, file))?;
            Ok(kept)
        }
    }
}

// The words of a pattern that step, and keep the data memory and the register file unless that one
// is its storage.
pub(crate) fn step_words(
    alloc: Global,
    machine: &Machine<'_>,
    book: &mut Book,
    ids: PatternIds,
) -> Result<SetId, NoMemory>
    requires ready { IsReadyFor machine.now book.old }
    requires ids { AreIdsIn machine.now book.old ids }
    ensures grows { Extends book.old book.new }
    ensures words { IfOk result (IsSetOf book.new (KeepsOthers (machine_netlist machine.now)
        (pattern_in machine.now ids) 0)) }
{
    let steps = book.and(alloc, ids.set, machine.patterns.step_set())?;
    let words = memory_words(alloc, machine, book, ids, steps)?;
    let kept = file_words(alloc, machine, book, ids, words)?;
    Ok(kept)
}

// The words of a pattern that keep the data memory.
pub(crate) fn jump_words(
    alloc: Global,
    machine: &Machine<'_>,
    book: &mut Book,
    ids: PatternIds,
) -> Result<SetId, NoMemory>
    requires ready { IsReadyFor machine.now book.old }
    requires ids { AreIdsIn machine.now book.old ids }
    ensures grows { Extends book.old book.new }
    ensures words { IfOk result (IsSetOf book.new (WordKeepsMemory (machine_netlist machine.now)
        (pattern_in machine.now ids))) }
{
    let words = book.and(
        alloc,
        ids.set,
        keep_of(machine.patterns, machine.patterns.memory()),
    )?;
    Ok(words)
}

// Whether a pattern has for every setting a word that keeps the data memory.
pub(crate) fn can_jump(
    alloc: Global,
    machine: &Machine<'_>,
    book: &mut Book,
    ids: PatternIds,
) -> Result<bool, NoMemory>
    requires ready { IsReadyFor machine.now book.old }
    requires ids { AreIdsIn machine.now book.old ids }
    ensures grows { Extends book.old book.new }
    ensures can { IfOk result (λ can. IsTrue can ↔ CanJump (machine_netlist machine.now) (pattern_in machine.now ids)) }
{
    let words = jump_words(alloc, machine, book, ids)?;
    let can = has_all(alloc, book, words, ids.fields)?;
    Ok(can)
}

// Whether a pattern has for every setting a word that keeps the data memory and the mode.
fn turns(
    alloc: Global,
    machine: &Machine<'_>,
    book: &mut Book,
    ids: PatternIds,
    mode: u32,
) -> Result<bool, NoMemory>
    requires ready { IsReadyFor machine.now book.old }
    requires ids { AreIdsIn machine.now book.old ids }
    requires mode { mode < length (machine_netlist machine.now).storages }
    ensures grows { Extends book.old book.new }
    ensures can { IfOk result (λ can.
        IsTrue can ↔ CanTurn (machine_netlist machine.now) (pattern_in machine.now ids) mode) }
{
    let memory = jump_words(alloc, machine, book, ids)?;
    let words = book.and(alloc, memory, keep_of(machine.patterns, mode))?;
    let can = has_all(alloc, book, words, ids.fields)?;
    Ok(can)
}

/// Whether the pattern of this number has for every setting a word that keeps the data memory and
/// the storage `mode`; no pattern past the last one has. The book grows, and what it held means what
/// it meant. Want of memory is the only refusal.
pub fn can_turn(
    alloc: Global,
    machine: &Machine<'_>,
    book: &mut Book,
    pattern: u32,
    mode: u32,
) -> Result<bool, NoMemory>
    requires ready { IsReadyFor machine.now book.old }
    requires mode { mode < length (machine_netlist machine.now).storages }
    ensures grows { Extends book.old book.new }
    ensures can { IfOk result (λ can. IsTrue can
        ↔ TurnsAt (machine_netlist machine.now) (slice_get (machine_patterns machine.now) pattern) mode) }
{
    match known_ids(machine, pattern) {
        Some(ids) => turns(alloc, machine, book, ids, mode),
        None => Ok(false),
    }
}

// Those that keep one storage more, where it is a register and every setting still has such a word.
fn joined(
    alloc: Global,
    machine: &Machine<'_>,
    book: &mut Book,
    ids: PatternIds,
    kept: Kept,
    id: u32,
) -> Result<Kept, NoMemory>
    requires ready { IsReadyFor machine.now book.old }
    requires ids { AreIdsIn machine.now book.old ids }
    requires words { IsSetOf book.old
        (KeepsOthers (machine_netlist machine.now) (pattern_in machine.now ids) kept.registers) kept.words }
    requires id { id < length (machine_netlist machine.now).storages }
    ensures grows { Extends book.old book.new }
    ensures words { IfOk result (λ more.
        IsSetOf book.new (KeepsOthers (machine_netlist machine.now)
        (pattern_in machine.now ids) more.registers) more.words) }
    ensures joins { IfOk result (λ more.
        Joins (machine_netlist machine.now) (pattern_in machine.now ids) id kept.registers more.registers) }
{
    if !is_register(machine.checked, id) {
        return Ok(kept);
    }
    // a checked netlist has few storages
    let _netlist = machine.checked.netlist();
    let words = book.and(alloc, kept.words, keep_of(machine.patterns, id))?;
    let registers = kept.registers | one(id);
    let ok = has_all(alloc, book, words, ids.fields)?;
    if ok {
        Ok(Kept { words, registers })
    } else {
        Ok(kept)
    }
}

// The registers that join those that must be kept, in order of declaration.
fn kept_registers(
    alloc: Global,
    machine: &Machine<'_>,
    book: &mut Book,
    ids: PatternIds,
    words: SetId,
) -> Result<u16, NoMemory>
    requires ready { IsReadyFor machine.now book.old }
    requires ids { AreIdsIn machine.now book.old ids }
    requires words { IsSetOf book.old (KeepsOthers (machine_netlist machine.now) (pattern_in machine.now ids) 0) words }
    ensures grows { Extends book.old book.new }
    ensures kept { IfOk result (AreKept (machine_netlist machine.now) (pattern_in machine.now ids)
        (length (machine_netlist machine.now).storages)) }
{
    let count = machine.checked.netlist().storages.len() as u32;
    let mut kept = Kept {
        words,
        registers: 0,
    };
    for id in 0..count {
        kept = joined(alloc, machine, book, ids, kept, id)?;
    }
    Ok(kept.registers)
}

// The set of a pattern's storage; the register file is in no set of registers.
fn own_storage(checked: &Checked, id: u32) -> u16
    requires { id < 16 }
    ensures { result ≡ own_storage_of checked.now.netlist id }
{
    if is_file(checked, id) { 0 } else { one(id) }
}

// The storages that a pattern's words may change: its own unless it is the register file, and the
// registers that can't all be kept.
pub(crate) fn clobbers(
    alloc: Global,
    machine: &Machine<'_>,
    book: &mut Book,
    ids: PatternIds,
    words: SetId,
) -> Result<u16, NoMemory>
    requires ready { IsReadyFor machine.now book.old }
    requires ids { AreIdsIn machine.now book.old ids }
    requires words { IsSetOf book.old (KeepsOthers (machine_netlist machine.now) (pattern_in machine.now ids) 0) words }
    ensures grows { Extends book.old book.new }
    ensures clobbers { IfOk result (AreClobbers (machine_netlist machine.now) (pattern_in machine.now ids)) }
{
    let kept = kept_registers(alloc, machine, book, ids, words)?;
    let others = all_registers(machine.checked) ^ kept;
    let own = own_storage(machine.checked, ids.storage);
    Ok(own | others)
}
