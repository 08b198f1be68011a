//! Classes of what the store of a mark has behind the program's cells: what registers hold there.

ghost use Rattle.std.specs.Prelude.{◌+◌, ◌≡◌, ◌<◌, ◌≤◌, ◌^◌, IfOk, IfSome};
ghost use Rattle.rec_bits.specs.Operators.{IsWidth};
ghost use Rattle.class_values.specs.Symbols.{IsSymbol};
ghost use Rattle.class_values.specs.Inner.Limbs.{IsLimb, IsLimbIn};
ghost use Rattle.tree_laws.specs.Classes.{Grows};

use crate::low::low_bits;
use crate::numbers::number;
use crate::room::class_of;
use crate::sums::{ordered, sum};
use rec_bits::{NoMemory, Op2, mask};
use sym_expr::Node;
use tree_laws::Classes;

// The bits of an address.
const ADDRESS: u8 = 64;

// The class of what the store has in a cell.
fn limb(table: &mut Classes, cell: u8, address: u64) -> Result<Option<u64>, NoMemory>
    ensures grows { Grows table.old table.new }
    ensures is { IfOk result (λ found. IfSome found (IsLimb table.new cell address)) }
{
    let Some(at) = number(table, ADDRESS, address)? else {
        return Ok(None);
    };
    class_of(table, Node::Read(at, cell))
}

// The class of what the store has in a cell, with zeros above up to a width.
fn widened(table: &mut Classes, cell: u8, address: u64, width: u8) -> Result<Option<u64>, NoMemory>
    ensures grows { Grows table.old table.new }
    ensures is { IfOk result (λ found. IfSome found (IsLimbIn table.new address width)) }
{
    let Some(of) = limb(table, cell, address)? else {
        return Ok(None);
    };
    class_of(table, Node::Zext(of, width))
}

// The class of a value that is as wide as a cell, or narrower.
fn narrow(table: &mut Classes, cell: u8, address: u64, width: u8) -> Result<Option<u64>, NoMemory>
    requires some { 1 ≤ width }
    requires within { width ≤ cell }
    ensures grows { Grows table.old table.new }
    ensures is { IfOk result (λ found. IfSome found (IsSymbol table.new cell address width)) }
{
    let Some(low) = limb(table, cell, address)? else {
        return Ok(None);
    };
    low_bits(table, low, width - 1)
}

// The class of a value that is wider than a cell, and no wider than two.
fn wide(table: &mut Classes, cell: u8, address: u64, width: u8) -> Result<Option<u64>, NoMemory>
    requires cell { 1 ≤ cell }
    requires above { cell < width }
    requires within { width ≤ cell + cell }
    requires width { width ≤ 64 }
    requires next { address + 1 < 2 ^ 64 }
    ensures grows { Grows table.old table.new }
    ensures is { IfOk result (λ found. IfSome found (IsSymbol table.new cell address width)) }
{
    let Some(low) = widened(table, cell, address, width)? else {
        return Ok(None);
    };
    let Some(high) = widened(table, cell, address + 1, width)? else {
        return Ok(None);
    };
    let Some(unit) = number(table, width, mask(cell) + 1)? else {
        return Ok(None);
    };
    let Some(raised) = ordered(table, Op2::Mul, high, unit)? else {
        return Ok(None);
    };
    sum(table, low, raised)
}

/// The class of a value of so many bits, where the store has its low bits in the cell of an address,
/// and the bits above them in the next one; None where two cells have fewer bits.
pub fn symbol(
    table: &mut Classes,
    cell: u8,
    address: u64,
    width: u8,
) -> Result<Option<u64>, NoMemory>
    requires next { address + 1 < 2 ^ 64 }
    ensures grows { Grows table.old table.new }
    ensures is { IfOk result (λ found. IfSome found (IsSymbol table.new cell address width)) }
{
    if width == 0 || cell == 0 || width > 64 {
        return Ok(None);
    }
    if width <= cell {
        return narrow(table, cell, address, width);
    }
    if width - cell <= cell {
        wide(table, cell, address, width)
    } else {
        Ok(None)
    }
}
