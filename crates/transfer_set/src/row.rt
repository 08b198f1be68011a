//! Patterns in the order in which they are told.

ghost use Rattle.std.specs.Prelude.{◌≡◌, ◌^◌, ◌<◌, All, length, IfOk};
ghost use Rattle.transfer_set.specs.Entries.{IsAddrKnown, ids_transfer};
ghost use Rattle.transfer_set.specs.Inner.Entries.{AreKnown};
ghost use Rattle.net_model.specs.Fields.{transfer_fields};
ghost use Rattle.transfer_set.specs.Rows.{AreSorted, AreRowsOf, ShowsMove, entries_of, entry_of};

use crate::entries::Entry;
use crate::fields::expr_fields;
use crate::texts::transfer_text;
use bit_bdd::SetId;
use net_model::Checked;
use rec_bits::NoMemory;
use std::alloc::Global;
use sym_expr::{ExprId, Pool};

/// A pattern with the text of its transfer, the words that give it, and the instruction bits that
/// occur in it. The order is by storage and text; two patterns never have both alike where names of
/// a netlist are names of its language.
#[derive(PartialEq, Eq, PartialOrd, Ord, Drop)]
pub struct Row {
    pub(crate) storage: u32,
    pub(crate) text: Vec<u8>,
    pub(crate) addr: Option<ExprId>,
    pub(crate) value: ExprId,
    pub(crate) set: SetId,
    pub(crate) fields: u64,
}

// The instruction bits that occur in a transfer.
fn transfer_fields(pool: &Pool, addr: Option<ExprId>, value: ExprId) -> u64
    requires addr { IsAddrKnown (length pool.now) addr }
    requires value { value < length pool.now }
    ensures { result ≡ transfer_fields (ids_transfer pool.now addr value) }
{
    match addr {
        None => expr_fields(pool, value),
        Some(addr) => expr_fields(pool, addr) | expr_fields(pool, value),
    }
}

// A transfer with its text.
fn shown_row(alloc: Global, checked: &Checked, pool: &Pool, entry: Entry) -> Result<Row, NoMemory>
    requires addr { IsAddrKnown (length pool.now) entry.addr }
    requires value { entry.value < length pool.now }
    ensures entry { IfOk result (λ row. entry_of row ≡ entry) }
    ensures shows { IfOk result (ShowsMove checked.now.netlist pool.now) }
{
    let text = transfer_text(alloc, checked, pool, entry.storage, entry.addr, entry.value)?;
    Ok(Row {
        storage: entry.storage,
        text,
        addr: entry.addr,
        value: entry.value,
        set: entry.set,
        fields: transfer_fields(pool, entry.addr, entry.value),
    })
}

// The transfers with their texts.
fn rows(
    alloc: Global,
    checked: &Checked,
    pool: &Pool,
    entries: &[Entry],
) -> Result<Vec<Row>, NoMemory>
    requires known { AreKnown (length pool.now) entries.now }
    ensures entries { IfOk result (λ rows. entries_of rows.items ≡ entries.now) }
    ensures shows { IfOk result (λ rows. All (ShowsMove checked.now.netlist pool.now) rows.items) }
{
    let mut rows = Vec::new(alloc);
    for entry in entries {
        rows.push(shown_row(alloc, checked, pool, *entry)?)?;
    }
    Ok(rows)
}

// The transfers with their texts, by storage and text. A `u32` numbers them.
pub(crate) fn sorted_rows(
    alloc: Global,
    checked: &Checked,
    pool: &Pool,
    entries: &[Entry],
) -> Result<Vec<Row>, NoMemory>
    requires known { AreKnown (length pool.now) entries.now }
    ensures same { IfOk result (λ rows. AreRowsOf entries.now rows.items) }
    ensures shows { IfOk result (λ rows. All (ShowsMove checked.now.netlist pool.now) rows.items) }
    ensures ordered { IfOk result (λ rows. AreSorted rows.items) }
    ensures few { IfOk result (λ rows. length rows.items < 2 ^ 32) }
{
    let mut rows = rows(alloc, checked, pool, entries)?;
    rows.sort()?;
    if u32::try_from(rows.len()).is_err() {
        return Err(NoMemory);
    }
    Ok(rows)
}
