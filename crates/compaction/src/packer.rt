//! The packer.

ghost use Rattle.std.specs.Prelude.{◌≡◌, ◌+◌, ◌<◌, length, IfOk, IsPermutation};
ghost use Rattle.bit_bdd.specs.Diagrams.{Extends};
ghost use Rattle.form_model.specs.Live.{Regs, regs_of, singles};
ghost use Rattle.word_fit.specs.Groups.{AllHaveWords, AreLeast};
ghost use Rattle.word_fit.specs.Machines.{machine_operation};
ghost use Rattle.compaction.specs.Words.{HaveWords};
ghost use Rattle.compaction.specs.Chosen.{Packs};
ghost use Rattle.compaction.specs.Lists.{EachHasPatternsOnce};
ghost use Rattle.transfer_set.specs.Machines.{IsReadyFor, machine_netlist};
ghost use Rattle.compaction.specs.Machines.{ArePacked, IsWritten, known_fits, known_operation};
ghost use Rattle.compaction.specs.Inner.Machines.{HasTables, IsDraft, PackedTo, Packing, Turns};
ghost use Rattle.compaction.specs.Meant.{MeansSteps};
ghost use Rattle.compaction.specs.Packing.{EachDiffers, IsPacked, all_steps};
ghost use Rattle.compaction.specs.Tables.{KnowsReads};

use crate::change::{Change, change_of};
use crate::draft::{Draft, draft_of};
use crate::machine::KnownMachine;
use crate::tables::tables_of;
use crate::words::group_words;
use bit_bdd::Book;
use form_model::{RegSet, Step};
use live_sets::live_between;
use rec_bits::{Items, NoMemory};
use std::alloc::Global;
use transfer_set::Machine;
use word_fit::Group;

/// A block's groups of steps, and the word of each.
#[derive(Drop)]
pub struct PackedBlock {
    pub groups: Items<Group>,
    pub words: Items<u64>,
}

// One turn at the pair of neighbours of this number: the pair to go on with. A change of two groups
// changes one set of live registers, so the words that were found for the other groups still fit
// them.
fn turn(
    alloc: Global,
    known: &KnownMachine<'_>,
    book: &mut Book,
    draft: &mut Draft,
    pair: usize,
) -> Result<usize, NoMemory>
    requires ready { IsReadyFor known.now.machine book.old }
    requires tables { HasTables known.now }
    requires within { pair + 1 < length draft.old.groups.items }
    requires lives { length draft.old.lives.items ≡ length draft.old.groups.items }
    requires found { length draft.old.found.items ≡ length draft.old.groups.items }
    ensures grows { Extends book.old book.new }
    ensures ready { IsReadyFor known.now.machine book.new }
    ensures turn { IfOk result (λ next. (after : Regs) → IsDraft known.now after pair draft.old →
        (Turns known.now after draft.old.groups.items draft.new.groups.items pair next
        × IsDraft known.now after next draft.new)) }
{
    let all = draft.groups.as_slice();
    let live = draft.lives.as_slice()[pair + 1];
    let first = all[pair].as_slice();
    let second = all[pair + 1].as_slice();
    match change_of(alloc, known, book, first, second, live)? {
        Change::Merged(both) => {
            draft.groups.remove(pair + 1);
            draft.groups[pair] = both.group;
            draft.lives.remove(pair);
            draft.found.remove(pair + 1);
            draft.found[pair] = Some(both.word);
            Ok(pair.saturating_sub(1))
        }
        Change::Moved {
            first: more,
            second: rest,
        } => {
            let between = live_between(
                &known.machine,
                known.registers,
                rest.group.as_slice(),
                live,
            );
            draft.groups[pair] = more.group;
            draft.groups[pair + 1] = rest.group;
            draft.lives[pair] = between;
            draft.found[pair] = Some(more.word);
            draft.found[pair + 1] = Some(rest.word);
            Ok(pair.saturating_sub(1))
        }
        Change::Settled => Ok(pair + 1),
    }
}

// Takes turns at the pairs of neighbours, from the first pair of the steps on, until none of them
// changes.
fn settled(
    alloc: Global,
    known: &KnownMachine<'_>,
    book: &mut Book,
    steps: &[Step],
    after: RegSet,
) -> Result<Draft, NoMemory>
    requires ready { IsReadyFor known.now.machine book.old }
    requires tables { HasTables known.now }
    requires start { PackedTo known.now (regs_of after) 0 (singles steps.now) }
    ensures grows { Extends book.old book.new }
    ensures ready { IsReadyFor known.now.machine book.new }
    ensures packing { IfOk result (λ draft.
        Packing known.now (regs_of after) (singles steps.now) draft.groups.items) }
    ensures draft { IfOk result (IsDraft known.now (regs_of after) 0) }
{
    let mut draft = draft_of(alloc, known, steps, after)?;
    let mut pair: usize = 0;
    while pair < draft.groups.len().saturating_sub(1) {
        pair = turn(alloc, known, book, &mut draft, pair)?;
    }
    Ok(draft)
}

// The block of the steps, by a machine with its tables.
fn packed(
    alloc: Global,
    known: &KnownMachine<'_>,
    book: &mut Book,
    steps: &[Step],
    after: RegSet,
) -> Result<PackedBlock, NoMemory>
    requires ready { IsReadyFor known.now.machine book.old }
    requires tables { HasTables known.now }
    requires start { PackedTo known.now (regs_of after) 0 (singles steps.now) }
    ensures grows { Extends book.old book.new }
    ensures ready { IsReadyFor known.now.machine book.new }
    ensures packing { IfOk result (λ block.
        Packing known.now (regs_of after) (singles steps.now) block.groups) }
    ensures least { IfOk result (λ block. AreLeast (known_operation known.now)
        (known_fits known.now) block.words block.groups (regs_of after)) }
{
    let draft = settled(alloc, known, book, steps, after)?;
    let words = group_words(alloc, known, book, &draft)?;
    Ok(PackedBlock {
        groups: Items::from_vec(draft.groups),
        words,
    })
}

/// Packs the steps of a block into groups, each of which a word does at one clock edge, and gives
/// each its word: the least that fits it with the registers that are live behind it. `after` are
/// live behind the block: bit `r` stands for the register of number `r`. From the front two
/// neighbours are merged where they may be, or else the first movable step of the second moves to
/// the first; after a change it goes on one group back. Each step has to have a word of its own
/// that fits it, as `law_of_forms` says of the steps of forms. The book grows, and
/// what it held means what it meant. Want of memory is the only refusal.
pub fn pack_with(
    alloc: Global,
    known: &KnownMachine<'_>,
    book: &mut Book,
    steps: &[Step],
    after: RegSet,
) -> Result<PackedBlock, NoMemory>
    requires ready { IsReadyFor known.now.machine book.old }
    requires tables { KnowsReads known.now }
    requires words { AllHaveWords (known_operation known.now) (known_fits known.now) (singles steps.now) (regs_of after) }
    ensures grows { Extends book.old book.new }
    ensures ready { IsReadyFor known.now.machine book.new }

    // the groups hold the same steps, each as often, and each group has differing destinations, and
    // so differing patterns
    ensures steps { IfOk result (λ block. IsPermutation steps.now (all_steps block.groups)) }
    ensures differ { IfOk result (λ block. EachDiffers (known_operation known.now) block.groups) }
    ensures once { IfOk result (λ block. EachHasPatternsOnce block.groups) }

    // each has a word that fits it, and comes with the least
    ensures words { IfOk result (λ block.
        AllHaveWords (known_operation known.now) (known_fits known.now) block.groups (regs_of after)) }
    ensures least { IfOk result (λ block. AreLeast (known_operation known.now)
        (known_fits known.now) block.words block.groups (regs_of after)) }

    ensures meaning { IfOk result (λ block. MeansSteps known.now.machine.checked.now.netlist
        (known_operation known.now) (regs_of after) steps.now block.groups) }
    ensures packed { IfOk result (λ block.
        IsPacked (known_operation known.now) (known_fits known.now) (regs_of after) block.groups) }
    ensures chosen { IfOk result (λ block. Packs (known_operation known.now)
        (known_fits known.now) (regs_of after) 0 (singles steps.now) block.groups) }
{
    // the netlist is read for what it keeps
    let _netlist = known.machine.checked.netlist();
    let block = packed(alloc, known, book, steps, after)?;
    Ok(block)
}

/// The groups that `pack_with` makes of a block's steps, by tables of its own.
pub fn pack(
    alloc: Global,
    machine: &Machine<'_>,
    book: &mut Book,
    steps: &[Step],
    after: RegSet,
) -> Result<Items<Group>, NoMemory>
    requires ready { IsReadyFor machine.now book.old }
    requires words { HaveWords machine.now (singles steps.now) (regs_of after) }
    ensures grows { Extends book.old book.new }
    ensures ready { IsReadyFor machine.now book.new }

    // the groups hold the same steps, each as often, and each group has a word and differing
    // destinations, and so differing patterns
    ensures steps { IfOk result (λ groups. IsPermutation steps.now (all_steps groups)) }
    ensures differ { IfOk result (EachDiffers (machine_operation machine.now)) }
    ensures once { IfOk result EachHasPatternsOnce }
    ensures words { IfOk result (λ groups. HaveWords machine.now groups (regs_of after)) }

    ensures meaning { IfOk result (MeansSteps (machine_netlist machine.now)
        (machine_operation machine.now) (regs_of after) steps.now) }
    ensures packed { IfOk result (ArePacked machine.now (regs_of after)) }
    ensures chosen { IfOk result
        (IsWritten machine.now (regs_of after) (singles steps.now)) }
{
    let tables = tables_of(alloc, machine.pool)?;
    let known = KnownMachine {
        machine: *machine,
        registers: tables.registers.as_slice(),
        memory: tables.memory.as_slice(),
    };
    let block = pack_with(alloc, &known, book, steps, after)?;
    Ok(block.groups)
}
