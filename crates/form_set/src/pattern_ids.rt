//! Patterns as they are looked up.

ghost use Rattle.std.specs.Prelude.{◌≡◌, option_map, slice_get, slice_index, IfSome};
ghost use Rattle.bit_bdd.specs.Diagrams.{Diagrams};
ghost use Rattle.form_set.specs.Inner.PatternIds.{AreIdsIn, pattern_in, row_ids};
ghost use Rattle.transfer_set.specs.Machines.{IsReadyFor, machine_patterns};

use bit_bdd::SetId;
use sym_expr::ExprId;
use transfer_set::{Machine, Patterns};

// A pattern: its storage, its transfer, its words, and the instruction bits that occur in it.
#[derive(Clone, Copy)]
pub(crate) struct PatternIds {
    pub(crate) storage: u32,
    pub(crate) addr: Option<ExprId>,
    pub(crate) value: ExprId,
    pub(crate) set: SetId,
    pub(crate) fields: u64,
}

// The pattern of this number.
pub(crate) fn ids_at(patterns: &Patterns, number: u32) -> Option<PatternIds>
    ensures { result ≡ option_map row_ids (slice_get patterns.now.rows number) }
{
    let storage = patterns.storage_of(number)?;
    let set = patterns.set_of(number)?;
    let (addr, value) = patterns.expr_of(number)?;
    let fields = patterns.fields_of(number)?;
    Some(PatternIds {
        storage,
        addr,
        value,
        set,
        fields,
    })
}

// The words that keep the storage of this number.
pub(crate) fn keep_of(patterns: &Patterns, storage: u32) -> SetId
    ensures { result ≡ slice_index patterns.now.keeps storage }
{
    match patterns.keep_set(storage) {
        Some(set) => set,
        None => 0,
    }
}

// A pattern with its number.
#[derive(Clone, Copy)]
pub(crate) struct Known {
    pub(crate) number: u32,
    pub(crate) ids: PatternIds,
}

// The pattern of this number, with what holds of it over each book of its sets.
pub(crate) fn known_ids(machine: &Machine<'_>, number: u32) -> Option<PatternIds>
    ensures ids { IfSome result (λ ids. (book : Diagrams) → IsReadyFor machine.now book →
        AreIdsIn machine.now book ids) }
    ensures pattern { option_map (pattern_in machine.now) result
        ≡ slice_get (machine_patterns machine.now) number }
{
    // the rules of the netlist say what its expressions name, and the pool's length how wide they
    // are
    let _netlist = machine.checked.netlist();
    let _len = machine.pool.len();
    ids_at(machine.patterns, number)
}
