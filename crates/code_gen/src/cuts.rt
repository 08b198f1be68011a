//! The code of a block: its jobs cut at the mode words.
//!
//! Neighbouring jobs of mode 0 are packed together, and a job of another mode alone, between the two
//! words that put its mode and 0 back.

ghost use Rattle.std.specs.Prelude.{◌≡◌, ◌≢◌, ◌<◌, ◌≤◌, ◌+◌, ℕ, [], ◌∷◌, ◌++◌, IfOk, OnOk, length};
ghost use Rattle.code_gen.specs.Blocks.{IsOnce};
ghost use Rattle.code_gen.specs.Inner.Coded.{AddsCuts, AddsGroups, AddsPacked, AddsRun, AreCutsCoded, HaveWordsIn, mode_group, no_block};
ghost use Rattle.code_gen.specs.Inner.Planning.{ArePlannedIn, AreReady};
ghost use Rattle.code_gen.specs.Inner.Views.{HasModeBit, mode_bits, place_mode};

use crate::blocks::pack_block;
use crate::steps::{block_steps, mode_at};
use crate::views::{Modes, PlannedProgram};
use bit_bdd::Book;
use compaction::PackedBlock;
use form_model::{RegSet, Step};
use mode_set::ModeWord;
use rec_bits::{Items, NoMemory};
use std::alloc::Global;
use word_fit::Group;

/// The set of the register that holds the mode, which is empty where there is none.
pub(crate) fn mode_set(modes: &Modes<'_>) -> RegSet
    requires { HasModeBit modes.now.special }
    ensures { result ≡ mode_bits modes.now.special }
{
    match modes.special {
        Some(mode) => 1 << mode,
        None => 0,
    }
}

// A block without groups.
fn empty_block(alloc: Global) -> PackedBlock
    ensures { result ≡ no_block }
{
    PackedBlock {
        groups: Items::new(alloc),
        words: Items::new(alloc),
    }
}

// Adds the groups and words of another block behind a block's own.
fn append(block: &mut PackedBlock, other: PackedBlock) -> Result<(), NoMemory>
    ensures { OnOk result (AddsGroups block.old block.new other.groups other.words) }
{
    for group in other.groups.into_vec() {
        block.groups.push(group)?;
    }
    for word in other.words.as_slice() {
        block.words.push(*word)?;
    }
    Ok(())
}

// Adds a mode word, which is a group of its own.
fn push_mode_word(alloc: Global, block: &mut PackedBlock, word: ModeWord) -> Result<(), NoMemory>
    ensures { OnOk result (AddsGroups block.old block.new (mode_group word ∷ []) (word.word ∷ [])) }
{
    let mut group = Group::new(alloc);
    group.push(Step {
        pattern: word.pattern,
        setting: 0,
    })?;
    block.groups.push(group)?;
    block.words.push(word.word)?;
    Ok(())
}

// Adds the groups and words of steps, packed by the instruction set of a mode.
fn push_packed(
    alloc: Global,
    modes: &Modes<'_>,
    books: &mut [Book],
    mode: usize,
    steps: &[Step],
    block: &mut PackedBlock,
) -> Result<(), NoMemory>
    requires ready { AreReady modes.now books.old }
    requires special { HasModeBit modes.now.special }
    requires mode { mode < length modes.now.machines.now }
    requires words { HaveWordsIn modes.now mode steps.now }
    ensures ready { AreReady modes.now books.new }
    ensures packed { OnOk result (AddsPacked modes.now mode steps.now block.old block.new) }
{
    let live = mode_set(modes);
    let packed = pack_block(alloc, &modes.machines[mode], &mut books[mode], steps, live)?;
    append(block, packed)
}

// How many places from one on, below an end, have jobs of mode 0.
fn run_of_zero(program: &PlannedProgram<'_>, at: usize, end: usize) -> usize
    requires { at ≤ end }
    ensures within { at + result ≤ end }
    ensures zero { (k : ℕ) → k < result → place_mode program.now (at + k) ≡ 0 }
    ensures last { at + result < end → place_mode program.now (at + result) ≢ 0 }
{
    let mut count = 0;
    while at + count < end && mode_at(program, at + count) == 0 {
        count += 1;
    }
    count
}

// Adds the jobs of so many places from one on, all of mode 0.
fn push_zeros(
    alloc: Global,
    program: &PlannedProgram<'_>,
    books: &mut [Book],
    at: usize,
    count: usize,
    block: &mut PackedBlock,
) -> Result<(), NoMemory>
    requires ready { AreReady program.now.modes books.old }
    requires planned { ArePlannedIn program.now.modes program.now }
    requires within { at + count ≤ length program.now.flow.now }
    requires zero { (k : ℕ) → k < count → place_mode program.now (at + k) ≡ 0 }
    ensures ready { AreReady program.now.modes books.new }
    ensures run { OnOk result (AddsRun program.now.modes program.now 0 at count block.old block.new) }
{
    let steps = block_steps(alloc, program, at, count)?;
    push_packed(alloc, &program.modes, books, 0, steps.as_slice(), block)
}

// Adds the job at a place, which has a mode other than 0, between its mode words.
fn push_alone(
    alloc: Global,
    program: &PlannedProgram<'_>,
    books: &mut [Book],
    at: usize,
    mode: usize,
    block: &mut PackedBlock,
) -> Result<(), NoMemory>
    requires ready { AreReady program.now.modes books.old }
    requires planned { ArePlannedIn program.now.modes program.now }
    requires within { at < length program.now.flow.now }
    requires mode { mode ≡ place_mode program.now at }
    requires some { 0 < mode }
    ensures ready { AreReady program.now.modes books.new }
    ensures run { OnOk result (AddsRun program.now.modes program.now mode at 1 block.old block.new) }
{
    let modes = &program.modes;
    let Some(passage) = modes.passages[mode] else {
        unreachable!()
    };
    let steps = block_steps(alloc, program, at, 1)?;
    push_mode_word(alloc, block, passage.enter)?;
    push_packed(alloc, modes, books, mode, steps.as_slice(), block)?;
    push_mode_word(alloc, block, passage.leave)
}

// Adds the cut that begins at a place below an end, and tells how many places it has.
fn push_cut(
    alloc: Global,
    program: &PlannedProgram<'_>,
    books: &mut [Book],
    at: usize,
    end: usize,
    block: &mut PackedBlock,
) -> Result<usize, NoMemory>
    requires ready { AreReady program.now.modes books.old }
    requires planned { ArePlannedIn program.now.modes program.now }
    requires below { at < end }
    requires within { end ≤ length program.now.flow.now }
    ensures ready { AreReady program.now.modes books.new }
    ensures some { IfOk result (λ count. 0 < count) }
    ensures below { IfOk result (λ count. at + count ≤ end) }
    ensures cut { IfOk result (λ count.
        AddsCuts program.now.modes program.now at (at + count) end block.old block.new) }
{
    let mode = mode_at(program, at);
    if mode != 0 {
        push_alone(alloc, program, books, at, mode, block)?;
        return Ok(1);
    }
    let count = run_of_zero(program, at, end);
    push_zeros(alloc, program, books, at, count, block)?;
    Ok(count)
}

/// The block of so many places from one on: its cuts one after the other.
pub(crate) fn cut_block(
    alloc: Global,
    program: &PlannedProgram<'_>,
    books: &mut [Book],
    at: usize,
    count: usize,
) -> Result<PackedBlock, NoMemory>
    requires ready { AreReady program.now.modes books.old }
    requires planned { ArePlannedIn program.now.modes program.now }
    requires within { at + count ≤ length program.now.flow.now }
    ensures ready { AreReady program.now.modes books.new }
    ensures code { IfOk result (AreCutsCoded program.now.modes program.now at count) }
    ensures once { IfOk result IsOnce }
{
    let mut block = empty_block(alloc);
    let end = at + count;
    let mut place = at;
    while place < end {
        place += push_cut(alloc, program, books, place, end, &mut block)?;
    }
    Ok(block)
}
