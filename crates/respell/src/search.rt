//! A round of the search: what forms ask for, and then the laws.

ghost use Rattle.std.specs.Prelude.{◌≡◌};
ghost use Rattle.tree_laws.specs.Classes.{cell_bits};

use crate::seeds;
use crate::survey::Survey;
use law_rounds::{Index, Rounds};
use rec_bits::NoMemory;
use std::alloc::Global;

/// Lists what laws begin with, and applies each law. Whether the table changed.
pub(crate) fn round(
    alloc: Global,
    rounds: &mut Rounds<'_>,
    survey: &Survey<'_>,
) -> Result<bool, NoMemory>
    ensures { cell_bits rounds.new.table ≡ cell_bits rounds.old.table }
{
    let before = rounds.extent();
    seed(alloc, rounds, survey)?;
    rounds.round(alloc)?;
    Ok(before != rounds.extent())
}

// Lists what laws begin with at each class and each node.
fn seed(alloc: Global, rounds: &mut Rounds<'_>, survey: &Survey<'_>) -> Result<(), NoMemory>
    ensures { cell_bits rounds.new.table ≡ cell_bits rounds.old.table }
{
    rounds.close(alloc)?;
    let index = rounds.index(alloc)?;
    seed_each(rounds, survey, &index)
}

// The same at the classes and nodes of an index, as long as there is room.
fn seed_each(rounds: &mut Rounds<'_>, survey: &Survey<'_>, index: &Index) -> Result<(), NoMemory>
    ensures { cell_bits rounds.new.table ≡ cell_bits rounds.old.table }
{
    for class in index.heads() {
        if rounds.is_full() {
            return Ok(());
        }
        seeds::at_class(&mut rounds.table, survey, *class)?;
        for node in index.nodes(*class) {
            seeds::at_node(&mut rounds.table, survey, *class, *node)?;
        }
    }
    Ok(())
}
