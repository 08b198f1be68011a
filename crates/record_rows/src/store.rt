//! Stores that fit a program.

ghost use Rattle.std.specs.Prelude.{◌≡◌, ◌+◌, ◌<◌, ◌≤◌, ◌^◌, ℕ, length, slice_index, IfOk, OnOk};
ghost use Rattle.src_model.specs.Meaning.{FitsStore};
ghost use Rattle.record_rows.specs.Inner.Stores.{AreGiven};

use rec_bits::{Items, NoMemory, mask};
use src_model::{Store, Typed};
use std::alloc::Global;

// The value, or 0 where it doesn't fit.
fn word(width: u8, value: u64) -> u64
    requires low { 1 ≤ width }
    requires high { width ≤ 64 }
    ensures fits { result < 2 ^ width }
    ensures same { value < 2 ^ width → result ≡ value }
{
    let greatest = mask(width);
    if value <= greatest { value } else { 0 }
}

// So many cells more. Each holds the value given for it, or 0 where there is none that fits.
fn push_cells(cells: &mut Items<u64>, width: u8, given: &[u64], count: u64) -> Result<(), NoMemory>
    requires low { 1 ≤ width }
    requires high { width ≤ 64 }
    requires words { (cell : ℕ) → slice_index cells.old cell < 2 ^ width }
    requires given { AreGiven width given.now cells.old }
    ensures longer { OnOk result (length cells.new ≡ length cells.old + count) }
    ensures words { OnOk result ((cell : ℕ) → slice_index cells.new cell < 2 ^ width) }
    ensures given { OnOk result (AreGiven width given.now cells.new) }
{
    for _ in 0..count {
        let value = given.get(cells.len()).copied().unwrap_or(0);
        cells.push(word(width, value))?;
    }
    Ok(())
}

/// The store of a program whose first cells hold these values. The other cells hold 0, and so do
/// those whose value is no word.
pub fn store_of(alloc: Global, typed: &Typed, given: &[u64]) -> Result<Store, NoMemory>
    ensures fits { IfOk result (λ store. FitsStore typed.now.width typed.now.program.vars store.cells) }
    ensures given { IfOk result (λ store. AreGiven typed.now.width given.now store.cells) }
{
    let width = typed.width();
    let vars = typed.program().vars.as_slice();
    let mut cells = Items::new(alloc);
    for var in vars {
        push_cells(&mut cells, width, given, var.len.unwrap_or(1))?;
    }
    Ok(Store { cells })
}
