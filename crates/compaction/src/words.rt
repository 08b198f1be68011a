//! The words of packed groups.

ghost use Rattle.std.specs.Prelude.{IfOk, IfSome};
ghost use Rattle.bit_bdd.specs.Diagrams.{Extends};
ghost use Rattle.form_model.specs.Live.{Regs, regs_of};
ghost use Rattle.word_fit.specs.Fits.{IsLeastFit};
ghost use Rattle.word_fit.specs.Groups.{AreLeast};
ghost use Rattle.transfer_set.specs.Machines.{IsReadyFor};
ghost use Rattle.compaction.specs.Machines.{known_fits, known_operation};
ghost use Rattle.compaction.specs.Inner.Machines.{HasWord, IsDraft};

use crate::draft::Draft;
use crate::least_words::least_word;
use crate::machine::KnownMachine;
use bit_bdd::Book;
use form_model::{RegSet, Step};
use rec_bits::{Items, NoMemory};
use std::alloc::Global;

// The least word that fits a group. It is sought where it wasn't found yet.
fn word_of(
    alloc: Global,
    known: &KnownMachine<'_>,
    book: &mut Book,
    group: &[Step],
    live: RegSet,
    found: Option<u64>,
) -> Result<u64, NoMemory>
    requires ready { IsReadyFor known.now.machine book.old }
    requires word { HasWord known.now group.now (regs_of live) }
    requires found { IfSome found (IsLeastFit (λ word. known_fits known.now word group.now (regs_of live))) }
    ensures grows { Extends book.old book.new }
    ensures ready { IsReadyFor known.now.machine book.new }
    ensures least { IfOk result (IsLeastFit (λ word. known_fits known.now word group.now (regs_of live))) }
{
    match found {
        Some(word) => Ok(word),
        None => least_word(alloc, &known.machine, book, group, live),
    }
}

/// For each group of a draft the least word that fits it with the registers that are live behind it.
pub(crate) fn group_words(
    alloc: Global,
    known: &KnownMachine<'_>,
    book: &mut Book,
    draft: &Draft,
) -> Result<Items<u64>, NoMemory>
    requires ready { IsReadyFor known.now.machine book.old }
    requires draft { (after : Regs) × IsDraft known.now after 0 draft.now }
    ensures grows { Extends book.old book.new }
    ensures ready { IsReadyFor known.now.machine book.new }
    ensures least { IfOk result (λ words. (after : Regs) → IsDraft known.now after 0 draft.now →
        AreLeast (known_operation known.now) (known_fits known.now) words draft.now.groups.items after) }
{
    let groups = draft.groups.as_slice();
    let lives = draft.lives.as_slice();
    let found = draft.found.as_slice();
    let mut words = Items::new(alloc);
    for index in 0..groups.len() {
        let group = groups[index].as_slice();
        let word = word_of(alloc, known, book, group, lives[index], found[index])?;
        words.push(word)?;
    }
    Ok(words)
}
