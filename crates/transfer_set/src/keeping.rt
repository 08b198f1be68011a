//! The words under which a storage keeps what it holds.

ghost use Rattle.std.specs.Prelude.{◌≡◌, ℕ, ◌==◌, ◌<◌, ◌&&◌, not, length, IfOk};
ghost use Rattle.bit_bdd.specs.Diagrams.{Extends, has_word};
ghost use Rattle.transfer_set.specs.Inner.Entries.{HaveWords, AreLeft, keeps_all};

use crate::entries::Entry;
use bit_bdd::{Book, SetId};
use rec_bits::{Items, NoMemory};
use std::alloc::Global;

// Those of some words that aren't in the set of a transfer of the storage.
fn without(
    alloc: Global,
    book: &mut Book,
    left: SetId,
    entry: Entry,
    storage: u32,
) -> Result<SetId, NoMemory>
    requires left { left < length book.old.nodes }
    requires set { entry.set < length book.old.nodes }
    ensures grows { Extends book.old book.new }
    ensures within { IfOk result (λ id. id < length book.new.nodes) }
    ensures words { IfOk result (λ id. (word : ℕ) →
        has_word book.new id word ≡
        (has_word book.old left word && not ((entry.storage == storage) && has_word book.old entry.set word))) }
{
    if entry.storage != storage {
        return Ok(left);
    }
    let others = book.not(alloc, entry.set)?;
    book.and(alloc, left, others)
}

// Those of some words that are in the set of no transfer of the storage.
pub(crate) fn keep_set(
    alloc: Global,
    book: &mut Book,
    legal: SetId,
    entries: &[Entry],
    storage: u32,
) -> Result<SetId, NoMemory>
    requires legal { legal < length book.old.nodes }
    requires words { HaveWords book.old entries.now }
    ensures grows { Extends book.old book.new }
    ensures within { IfOk result (λ id. id < length book.new.nodes) }
    ensures words { IfOk result (λ id. (word : ℕ) →
        has_word book.new id word ≡ (has_word book.old legal word && keeps_all book.old entries.now storage word)) }
{
    let mut left = legal;
    for entry in entries {
        left = without(alloc, book, left, *entry, storage)?;
    }
    Ok(left)
}

// For each storage, the words that are in the set of no transfer of it.
pub(crate) fn keep_sets(
    alloc: Global,
    book: &mut Book,
    legal: SetId,
    entries: &[Entry],
    count: u32,
) -> Result<Items<SetId>, NoMemory>
    requires legal { legal < length book.old.nodes }
    requires words { HaveWords book.old entries.now }
    ensures grows { Extends book.old book.new }
    ensures left { IfOk result (AreLeft book.old book.new legal entries.now count) }
{
    let mut sets = Items::new(alloc);
    for storage in 0..count {
        let set = keep_set(alloc, book, legal, entries, storage)?;
        sets.push(set)?;
    }
    Ok(sets)
}
