//! Whether two lists of writes leave the same in arrays' cells.

ghost use Rattle.std.specs.Prelude.{◌≡◌, true, IfOk};
ghost use Rattle.sym_run.specs.Arrivals.{LeaveSame};
ghost use Rattle.sym_run.specs.Inner.Passed.{LeaveSameBehind, LeaveSameIn};
ghost use Rattle.sym_run.specs.Known.{ArePutsSame};
ghost use Rattle.tree_laws.specs.Classes.{Grows};

use crate::behind::element;
use crate::known::{Known, Put};
use class_values::{Fact, are_same};
use rec_bits::NoMemory;
use tree_laws::Classes;

/// Whether the same was written to arrays, in the same order. A no says nothing.
pub fn are_puts_same(table: &Classes, near: &[Put], far: &[Put]) -> bool
    ensures { result ≡ true → ArePutsSame table.now near.now far.now }
{
    let Some((a, near)) = near.split_first() else {
        return far.is_empty();
    };
    let Some((b, far)) = far.split_first() else {
        return false;
    };
    if !are_same(table, a.address, b.address) {
        return false;
    }
    if !are_same(table, a.value, b.value) {
        return false;
    }
    are_puts_same(table, near, far)
}

// Whether both leave the same in the cell to which a write goes.
fn leave_same_in(
    table: &mut Classes,
    facts: &[Fact],
    near: &Known,
    far: &Known,
    put: Put,
) -> Result<bool, NoMemory>
    ensures grows { Grows table.old table.new }
    ensures same { IfOk result (λ same. same ≡ true → LeaveSameIn table.old facts.now near.now far.now put.address) }
{
    let Some(width) = table.width(put.value) else {
        return Ok(false);
    };
    let first = element(table, facts, near, put.address, width)?;
    let second = element(table, facts, far, put.address, width)?;
    let Some(a) = first else {
        return Ok(false);
    };
    let Some(b) = second else {
        return Ok(false);
    };
    Ok(are_same(table, a, b))
}

// Whether both leave the same in the cells to which some writes go.
fn leave_same_behind(
    table: &mut Classes,
    facts: &[Fact],
    near: &Known,
    far: &Known,
    puts: &[Put],
) -> Result<bool, NoMemory>
    ensures grows { Grows table.old table.new }
    ensures same { IfOk result (λ same. same ≡ true → LeaveSameBehind table.old facts.now near.now far.now puts.now) }
{
    let Some((put, rest)) = puts.split_first() else {
        return Ok(true);
    };
    if !leave_same_in(table, facts, near, far, *put)? {
        return Ok(false);
    }
    leave_same_behind(table, facts, near, far, rest)
}

// Whether both leave the same in each cell to which one of them goes, and so in all.
fn leave_same_in_all(
    table: &mut Classes,
    facts: &[Fact],
    near: &Known,
    far: &Known,
) -> Result<bool, NoMemory>
    ensures grows { Grows table.old table.new }
    ensures same { IfOk result (λ same. same ≡ true → LeaveSame table.old facts.now near.now far.now) }
{
    if !leave_same_behind(table, facts, near, far, near.puts.as_slice())? {
        return Ok(false);
    }
    leave_same_behind(table, facts, near, far, far.puts.as_slice())
}

/// Whether what is known in two ways to have been written to arrays leaves the same in each cell: the
/// same writes, or others in whose cells the last writes leave the same. So writes to cells that are
/// apart may stand in another order, and one over which another goes may be left out. A no says
/// nothing.
pub fn leave_same(
    table: &mut Classes,
    facts: &[Fact],
    near: &Known,
    far: &Known,
) -> Result<bool, NoMemory>
    ensures grows { Grows table.old table.new }
    ensures same { IfOk result (λ same. same ≡ true → LeaveSame table.old facts.now near.now far.now) }
{
    if are_puts_same(table, near.puts.as_slice(), far.puts.as_slice()) {
        return Ok(true);
    }
    leave_same_in_all(table, facts, near, far)
}
