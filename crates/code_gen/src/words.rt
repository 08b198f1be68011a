//! The words of a layout.

ghost use Rattle.std.specs.Prelude.{◌≡◌, ℕ, [], IfOk, slice_index};
ghost use Rattle.std.specs.List.{AllByRecursion, slice_index_or};
ghost use Rattle.bit_bdd.specs.Diagrams.{Extends};
ghost use Rattle.compaction.specs.Laws.{operation_in};
ghost use Rattle.form_model.specs.Live.{regs_of};
ghost use Rattle.transfer_set.specs.Machines.{IsReadyFor};
ghost use Rattle.word_fit.specs.Fits.{FitsTurning, IsLeastFit};
ghost use Rattle.code_gen.specs.Blocks.{IsOnce};
ghost use Rattle.code_gen.specs.Machines.{known_netlist, known_patterns};
ghost use Rattle.code_gen.specs.Inner.Coded.{AreItemWords, HasWord, IsWordOf, groups_at, words_at};

use bit_bdd::Book;
use branch_fix::Item;
use code_model::Word;
use compaction::{KnownMachine, PackedBlock, pattern_list};
use form_model::{RegSet, Step};
use nop_synth::jump_word;
use rec_bits::{Items, NoMemory};
use std::alloc::Global;

// The word of a jump or a branch, which keeps these registers.
fn word_of_jump(
    alloc: Global,
    known: &KnownMachine<'_>,
    book: &mut Book,
    step: Step,
    kept: RegSet,
) -> Result<u64, NoMemory>
    requires ready { IsReadyFor known.now.machine book.old }
    requires word { (w : ℕ) × FitsTurning (known_netlist known.now) w
        (operation_in (known_netlist known.now) (known_patterns known.now) step) (regs_of kept) }
    ensures grows { Extends book.old book.new }
    ensures ready { IsReadyFor known.now.machine book.new }
    ensures least { IfOk result (IsLeastFit (λ word.
        FitsTurning (known_netlist known.now) word
        (operation_in (known_netlist known.now) (known_patterns known.now) step) (regs_of kept))) }
{
    let found = jump_word(alloc, &known.machine, book, step, kept)?;
    match found {
        Some(word) => Ok(word),
        // each jump of a layout has a word
        None => Ok(0),
    }
}

// The word of a group of a block.
fn word_of_group(blocks: &[PackedBlock], block: u32, at: u32) -> u64
    ensures { result ≡ slice_index (words_at blocks.now block) at }
{
    match blocks.get(block as usize) {
        Some(block) => block.words.get(at as usize).copied().unwrap_or(0),
        None => 0,
    }
}

// The steps of a group of a block.
fn steps_of_group(blocks: &[PackedBlock], block: u32, at: u32) -> &[Step]
    ensures { result.now ≡ slice_index_or (groups_at blocks.now block) at [] }
{
    match blocks.get(block as usize) {
        Some(block) => match block.groups.get(at as usize) {
            Some(group) => group.as_slice(),
            None => &[],
        },
        None => &[],
    }
}

// The word of an item, which lists the patterns of its steps.
fn word_of_item(
    alloc: Global,
    known: &KnownMachine<'_>,
    book: &mut Book,
    blocks: &[PackedBlock],
    kept: RegSet,
    item: Item,
) -> Result<Word, NoMemory>
    requires ready { IsReadyFor known.now.machine book.old }
    requires word { HasWord (known_netlist known.now) (known_patterns known.now) (regs_of kept) item }
    requires once { AllByRecursion IsOnce blocks.now }
    ensures grows { Extends book.old book.new }
    ensures ready { IsReadyFor known.now.machine book.new }
    ensures word { IfOk result (IsWordOf (known_netlist known.now) (known_patterns known.now) (regs_of kept) blocks.now item) }
{
    match item {
        Item::Group { block, at } => {
            let patterns = pattern_list(alloc, steps_of_group(blocks, block, at))?;
            Ok(Word {
                word: word_of_group(blocks, block, at),
                patterns,
            })
        }
        Item::Jump(step) => {
            let patterns = pattern_list(alloc, &[step])?;
            let word = word_of_jump(alloc, known, book, step, kept)?;
            Ok(Word { word, patterns })
        }
    }
}

/// The words of a layout's items; jump and branch words keep these registers.
pub(crate) fn words_of_items(
    alloc: Global,
    known: &KnownMachine<'_>,
    book: &mut Book,
    blocks: &[PackedBlock],
    kept: RegSet,
    items: &[Item],
) -> Result<Items<Word>, NoMemory>
    requires ready { IsReadyFor known.now.machine book.old }
    requires words { AllByRecursion (HasWord (known_netlist known.now) (known_patterns known.now) (regs_of kept)) items.now }
    requires once { AllByRecursion IsOnce blocks.now }
    ensures grows { Extends book.old book.new }
    ensures ready { IsReadyFor known.now.machine book.new }
    ensures words { IfOk result (AreItemWords (known_netlist known.now)
        (known_patterns known.now) (regs_of kept) blocks.now items.now) }
{
    let mut words = Items::new(alloc);
    for item in items {
        let word = word_of_item(alloc, known, book, blocks, kept, *item)?;
        words.push(word)?;
    }
    Ok(words)
}
