//! Whether for every setting of some bits a set has a word.

ghost use Rattle.std.specs.Prelude.{◌↔◌, ◌≤◌, ◌<◌, ◌^◌, IfOk, IsTrue, length};
ghost use Rattle.bit_bdd.specs.Diagrams.{Extends};
ghost use Rattle.form_set.specs.Inner.PatternIds.{InSet};
ghost use Rattle.form_set.specs.Words.{ForEachSetting};

use bit_bdd::{Book, SetId};
use rec_bits::NoMemory;
use std::alloc::Global;

// Whether for every setting of these bits a word of the set has it.
pub(crate) fn has_all(
    alloc: Global,
    book: &mut Book,
    set: SetId,
    fields: u64,
) -> Result<bool, NoMemory>
    requires set { set < length book.old.nodes }
    requires fields { fields < 2 ^ book.old.bits }
    requires few { book.old.bits ≤ 64 }
    ensures grows { Extends book.old book.new }
    ensures all { IfOk result (λ all. IsTrue all ↔ ForEachSetting fields (InSet book.old set)) }
{
    let reached = book.exists(alloc, set, u64::MAX ^ fields)?;
    // the size tells what the id of all words means
    let _size = book.size();
    Ok(reached == 1)
}
