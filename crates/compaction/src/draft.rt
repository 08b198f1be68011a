//! The groups of a block while they are packed.

ghost use Rattle.std.specs.Prelude.{◌≡◌, map, replicate, IfOk, None};
ghost use Rattle.form_model.specs.Live.{regs_of, singles};
ghost use Rattle.word_fit.specs.Groups.{lives_of};
ghost use Rattle.compaction.specs.Machines.{known_operation};
ghost use Rattle.compaction.specs.Inner.Machines.{HasTables, IsDraft, PackedTo};

use crate::copies::singles;
use crate::machine::KnownMachine;
use form_model::{RegSet, Step};
use live_sets::live_with;
use rec_bits::NoMemory;
use std::alloc::Global;
use word_fit::Group;

/// The groups of a block, with what is known of each.
#[derive(Drop)]
pub(crate) struct Draft {
    pub groups: Vec<Group>,
    /// For each group the registers that are live behind it.
    pub lives: Vec<RegSet>,
    /// And its word, if one was found as it was made.
    pub found: Vec<Option<u64>>,
}

// For each group the registers that are live behind it.
fn live_behind(
    alloc: Global,
    known: &KnownMachine<'_>,
    groups: &[Group],
    after: RegSet,
) -> Result<Vec<RegSet>, NoMemory>
    requires { HasTables known.now }
    ensures { IfOk result (λ lives.
        map regs_of lives.items ≡ lives_of (known_operation known.now) groups.now (regs_of after)) }
{
    let lives = live_with(alloc, &known.machine, known.registers, groups, after)?;
    Ok(lives.into_vec())
}

// No word is found yet for so many groups.
fn none_found(alloc: Global, count: usize) -> Result<Vec<Option<u64>>, NoMemory>
    ensures { IfOk result (λ found. found.items ≡ replicate count None) }
{
    let mut found = Vec::new(alloc);
    found.resize(count, None)?;
    Ok(found)
}

/// The steps of a block in groups of one, where `after` are live behind the block.
pub(crate) fn draft_of(
    alloc: Global,
    known: &KnownMachine<'_>,
    steps: &[Step],
    after: RegSet,
) -> Result<Draft, NoMemory>
    requires tables { HasTables known.now }
    requires start { PackedTo known.now (regs_of after) 0 (singles steps.now) }
    ensures groups { IfOk result (λ draft. draft.groups.items ≡ singles steps.now) }
    ensures draft { IfOk result (IsDraft known.now (regs_of after) 0) }
{
    let groups = singles(alloc, steps)?;
    let lives = live_behind(alloc, known, groups.as_slice(), after)?;
    let found = none_found(alloc, steps.len())?;
    Ok(Draft {
        groups,
        lives,
        found,
    })
}
