//! What is to be done with two neighbours.

ghost use Rattle.std.specs.Prelude.{◌≡◌, ℕ, [], ◌∷◌, ◌++◌, IfOk, IfSome, MatchOption, MatchBool, Some, slice_get, remove};
ghost use Rattle.bit_bdd.specs.Diagrams.{Extends};
ghost use Rattle.form_model.specs.declared.forms.Step.{Step as TheStep};
ghost use Rattle.form_model.specs.Live.{regs_of};
ghost use Rattle.word_fit.specs.Fits.{IsLeastFit};
ghost use Rattle.transfer_set.specs.Machines.{IsReadyFor};
ghost use Rattle.compaction.specs.Machines.{known_fits, known_operation};
ghost use Rattle.compaction.specs.Inner.Machines.{AreWordsOf, CanMerge, CanMove, Changes, HasTables, HasWord, IsFitted, IsPairFitted, Moves};
ghost use Rattle.compaction.specs.Packing.{IsFree};

use crate::copies::{added, joined};
use crate::depends::{all_differ, is_read_by_either, reads_across, reads_from, shares_destination};
use crate::machine::KnownMachine;
use bit_bdd::Book;
use form_model::{RegSet, Step};
use live_sets::live_between;
use nop_synth::word_for;
use rec_bits::NoMemory;
use std::alloc::Global;
use word_fit::Group;

/// A group with the least word that fits it.
#[derive(Drop)]
pub(crate) struct Fitted {
    pub group: Group,
    pub word: u64,
}

/// What the packer does with two neighbours.
#[derive(Drop)]
pub(crate) enum Change {
    Merged(Fitted),
    Moved { first: Fitted, second: Fitted },
    Settled,
}

// Two groups.
#[derive(Drop)]
struct Pair {
    first: Fitted,
    second: Fitted,
}

// A group parted at one of its steps.
#[derive(Clone, Copy)]
struct Parted<'a> {
    front: &'a [Step],
    step: Step,
    back: &'a [Step],
}

// The least word that fits the group, if one does.
fn word_in(
    alloc: Global,
    known: &KnownMachine<'_>,
    book: &mut Book,
    group: &[Step],
    live: RegSet,
) -> Result<Option<u64>, NoMemory>
    requires ready { IsReadyFor known.now.machine book.old }
    ensures grows { Extends book.old book.new }
    ensures ready { IsReadyFor known.now.machine book.new }
    ensures word { IfOk result (λ found. MatchOption found
        (HasWord known.now group.now (regs_of live) → ⊥)
        (IsLeastFit (λ word. known_fits known.now word group.now (regs_of live)))) }
{
    word_for(alloc, &known.machine, book, group, live)
}

// The two groups in one, if they may be merged where `live` is live behind the second. A word is
// sought only where nothing else forbids it.
fn merged(
    alloc: Global,
    known: &KnownMachine<'_>,
    book: &mut Book,
    first: &[Step],
    second: &[Step],
    live: RegSet,
) -> Result<Option<Fitted>, NoMemory>
    requires ready { IsReadyFor known.now.machine book.old }
    requires tables { HasTables known.now }
    ensures grows { Extends book.old book.new }
    ensures ready { IsReadyFor known.now.machine book.new }
    ensures merged { IfOk result (λ found. MatchOption found
        (CanMerge known.now first.now second.now (regs_of live) → ⊥)
        (λ both. (both.group ≡ first.now ++ second.now) × CanMerge known.now first.now second.now (regs_of live))) }
    ensures word { IfOk result (λ found. IfSome found (IsFitted known.now (regs_of live))) }
{
    if !all_differ(known, first, second) {
        return Ok(None);
    }
    if reads_across(alloc, known, first, second)? {
        return Ok(None);
    }
    let both = joined(alloc, first, second)?;
    match word_in(alloc, known, book, both.as_slice(), live)? {
        Some(word) => Ok(Some(Fitted { group: both, word })),
        None => Ok(None),
    }
}

// Whether a step may leave its group for the group before it, but for their words.
fn is_free(
    alloc: Global,
    known: &KnownMachine<'_>,
    first: &[Step],
    parted: Parted<'_>,
) -> Result<bool, NoMemory>
    requires { HasTables known.now }
    ensures { IfOk result (λ free. MatchBool free
        (IsFree (known_operation known.now) first.now parted.entry.step (parted.entry.front.now ++ parted.entry.back.now))
        (IsFree (known_operation known.now) first.now parted.entry.step (parted.entry.front.now ++ parted.entry.back.now) → ⊥)) }
{
    let Parted { front, step, back } = parted;
    if front.is_empty() && back.is_empty() {
        return Ok(false);
    }
    if shares_destination(known, step, first) {
        return Ok(false);
    }
    if reads_from(alloc, known, step, first)? {
        return Ok(false);
    }
    if is_read_by_either(alloc, known, step, front, back)? {
        return Ok(false);
    }
    Ok(true)
}

// The group with the step, and what the step leaves behind in its own, if it may move.
fn moved_out(
    alloc: Global,
    known: &KnownMachine<'_>,
    book: &mut Book,
    first: &[Step],
    parted: Parted<'_>,
    live: RegSet,
) -> Result<Option<Pair>, NoMemory>
    requires ready { IsReadyFor known.now.machine book.old }
    requires tables { HasTables known.now }
    ensures grows { Extends book.old book.new }
    ensures ready { IsReadyFor known.now.machine book.new }
    ensures moved { IfOk result (λ found. MatchOption found
        (CanMove known.now first.now parted.entry.step (parted.entry.front.now ++ parted.entry.back.now) (regs_of live) → ⊥)
        (λ pair. (pair.first.group ≡ first.now ++ parted.entry.step ∷ [])
        × (pair.second.group ≡ parted.entry.front.now ++ parted.entry.back.now)
        × CanMove known.now first.now parted.entry.step (parted.entry.front.now ++ parted.entry.back.now) (regs_of live))) }
    ensures words { IfOk result (λ found. IfSome found (IsPairFitted known.now (regs_of live))) }
{
    if !is_free(alloc, known, first, parted)? {
        return Ok(None);
    }
    let rest = joined(alloc, parted.front, parted.back)?;
    let between = live_between(&known.machine, known.registers, rest.as_slice(), live);
    let more = added(alloc, first, parted.step)?;
    let Some(first_word) = word_in(alloc, known, book, more.as_slice(), between)? else {
        return Ok(None);
    };
    let Some(second_word) = word_in(alloc, known, book, rest.as_slice(), live)? else {
        return Ok(None);
    };
    Ok(Some(Pair {
        first: Fitted {
            group: more,
            word: first_word,
        },
        second: Fitted {
            group: rest,
            word: second_word,
        },
    }))
}

// The two groups with the first movable step moved, if there is one.
fn moved(
    alloc: Global,
    known: &KnownMachine<'_>,
    book: &mut Book,
    first: &[Step],
    second: &[Step],
    live: RegSet,
) -> Result<Option<Pair>, NoMemory>
    requires ready { IsReadyFor known.now.machine book.old }
    requires tables { HasTables known.now }
    ensures grows { Extends book.old book.new }
    ensures ready { IsReadyFor known.now.machine book.new }
    ensures moved { IfOk result (λ found. MatchOption found
        ((index : ℕ) (x : TheStep) → slice_get second.now index ≡ Some x →
        CanMove known.now first.now x (remove second.now index) (regs_of live) → ⊥)
        (λ pair. Moves known.now first.now second.now (regs_of live) pair.first.group pair.second.group)) }
    ensures words { IfOk result (λ found. IfSome found (IsPairFitted known.now (regs_of live))) }
{
    for index in 0..second.len() {
        let parted = Parted {
            front: &second[..index],
            step: second[index],
            back: &second[index + 1..],
        };
        match moved_out(alloc, known, book, first, parted, live)? {
            Some(pair) => return Ok(Some(pair)),
            None => {}
        }
    }
    Ok(None)
}

/// What is to be done with two neighbours, where `live` is live behind the second.
pub(crate) fn change_of(
    alloc: Global,
    known: &KnownMachine<'_>,
    book: &mut Book,
    first: &[Step],
    second: &[Step],
    live: RegSet,
) -> Result<Change, NoMemory>
    requires ready { IsReadyFor known.now.machine book.old }
    requires tables { HasTables known.now }
    ensures grows { Extends book.old book.new }
    ensures ready { IsReadyFor known.now.machine book.new }
    ensures change { IfOk result (Changes known.now first.now second.now (regs_of live)) }
    ensures words { IfOk result (AreWordsOf known.now (regs_of live)) }
{
    match merged(alloc, known, book, first, second, live)? {
        Some(both) => Ok(Change::Merged(both)),
        None => match moved(alloc, known, book, first, second, live)? {
            Some(Pair { first, second }) => Ok(Change::Moved { first, second }),
            None => Ok(Change::Settled),
        },
    }
}
