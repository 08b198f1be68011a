//! Whether what is known at a mark is as its hint says.

ghost use Rattle.std.specs.Prelude.{◌≡◌, ◌<◌, ◌+◌, ◌^◌, is_none, true, slice_index, IfOk, OnOk};
ghost use Rattle.net_model.specs.Meaning.{mean};
ghost use Rattle.sym_expr.specs.Pools.{expr_of_id};
ghost use Rattle.sym_run.specs.Known.{cell_at};
ghost use Rattle.mark_start.specs.Marked.{AllHeld, AllNumbered, IsAsHinted, IsHeld, IsNumbered, IsSpotShown, SpotsSeen};
ghost use Rattle.segment.specs.Runs.{IsAlikeIn, AreCellsAlike, AreEqualOf, IsAgreed, IsAligned, IsOldIn};

use crate::rounds::Source;
use crate::run::Segment;
use crate::way::Equation;
use class_values::{Fact, are_same, number, number_of};
use mark_start::{Hint, Holding, Numbered, Run, Spot};
use rec_bits::{Items, NoMemory};
use std::alloc::Global;
use sym_expr::ExprId;
use sym_run::{Cell, Known, are_puts_same, leave_same};
use tree_laws::Classes;

// Whether two classes are seen to have one value.
fn are_equal(table: &Classes, facts: &[Fact], a: u64, b: u64) -> bool
    ensures { result ≡ true → AreEqualOf table.now facts.now a b }
{
    if are_same(table, a, b) {
        return true;
    }
    let Some(x) = number_of(table, facts, a) else {
        return false;
    };
    let Some(y) = number_of(table, facts, b) else {
        return false;
    };
    x == y
}

// Whether a cell holds what the mark's store has there.
fn is_old(known: &Known, address: u64) -> bool
    ensures { result ≡ true → IsOldIn known.now address }
{
    match known.cells.get(address as usize) {
        Some(Cell::Kept) => true,
        _ => false,
    }
}

// Whether a cell is known to be an array's.
fn is_array(known: &Known, address: u64) -> bool
    ensures { result ≡ true → cell_at known.now.cells address ≡ Cell.Array }
{
    match known.cells.get(address as usize) {
        Some(Cell::Array) => true,
        _ => false,
    }
}

// Whether machine and program hold the same in an array's cell.
fn is_written_alike(table: &Classes, run: &Run, address: u64) -> bool
    ensures { result ≡ true → IsAlikeIn table.now run.now address }
{
    if !is_array(&run.machine, address) {
        return false;
    }
    if !is_array(&run.vars, address) {
        return false;
    }
    are_puts_same(table, run.machine.puts.as_slice(), run.vars.puts.as_slice())
}

/// Says that the machine's writes to arrays are those of the program, where both leave the same in
/// each cell.
pub(crate) fn align(alloc: Global, table: &mut Classes, run: &mut Run) -> Result<(), NoMemory>
    ensures { OnOk result (IsAligned table.old table.new run.old run.new) }
{
    if !leave_same(table, run.facts.as_slice(), &run.machine, &run.vars)? {
        return Ok(());
    }
    run.machine.puts = Items::from_slice(alloc, run.vars.puts.as_slice())?;
    Ok(())
}

impl Segment<'_> {
    // Whether two classes have one value, as it is seen, or else by laws.
    fn are_one(
        &self,
        alloc: Global,
        table: &Classes,
        facts: &[Fact],
        a: u64,
        b: u64,
    ) -> Result<bool, NoMemory>
        ensures { IfOk result (λ yes. yes ≡ true → AreEqualOf table.now facts.now a b) }
    {
        if are_equal(table, facts, a, b) {
            return Ok(true);
        }
        Source { table, facts }.are_one(alloc, self.start.word, a, b)
    }

    // Whether machine and program have the same in a cell.
    fn cell_agrees(
        &self,
        alloc: Global,
        table: &mut Classes,
        run: &Run,
        address: u64,
    ) -> Result<bool, NoMemory>
        ensures { IfOk result (IsAgreed run.now (λ s now. slice_index s.cells address ≡ slice_index now address) table.old table.new) }
    {
        if is_old(&run.machine, address) && is_old(&run.vars, address) {
            return Ok(true);
        }
        if is_written_alike(table, run, address) {
            return Ok(true);
        }
        let facts = run.facts.as_slice();
        let first = self.start.in_cell(table, facts, &run.machine, address)?;
        let second = self.start.in_cell(table, facts, &run.vars, address)?;
        let Some(a) = first else {
            return Ok(false);
        };
        let Some(b) = second else {
            return Ok(false);
        };
        self.are_one(alloc, table, facts, a, b)
    }

    // Whether they have the same in so many cells from an address on.
    fn cells_agree(
        &self,
        alloc: Global,
        table: &mut Classes,
        run: &Run,
        address: u64,
        count: u32,
    ) -> Result<bool, NoMemory>
        requires { address < 2 ^ 33 }
        ensures { IfOk result (IsAgreed run.now (AreCellsAlike address count) table.old table.new) }
    {
        if count == 0 {
            return Ok(true);
        }
        if !self.cell_agrees(alloc, table, run, address + u64::from(count - 1))? {
            return Ok(false);
        }
        self.cells_agree(alloc, table, run, address, count - 1)
    }

    // Whether an expression has what the program's cell has.
    fn view_agrees(
        &self,
        alloc: Global,
        table: &mut Classes,
        run: &Run,
        address: u32,
        view: ExprId,
    ) -> Result<bool, NoMemory>
        ensures { IfOk result (IsAgreed run.now (λ s now. mean (expr_of_id self.now.start.pool.now view) s 0 ≡ slice_index now address) table.old table.new) }
    {
        if view >= self.start.pool.len() {
            return Ok(false);
        }
        let facts = run.facts.as_slice();
        let first = self.start.expr(table, run, view)?;
        let second = self
            .start
            .in_cell(table, facts, &run.vars, u64::from(address))?;
        let Some(a) = first else {
            return Ok(false);
        };
        let Some(b) = second else {
            return Ok(false);
        };
        self.are_one(alloc, table, facts, a, b)
    }

    // Whether a variable is hidden or seen as the program has it.
    fn spot_agrees(
        &self,
        alloc: Global,
        table: &mut Classes,
        run: &Run,
        spot: Spot,
    ) -> Result<bool, NoMemory>
        ensures { IfOk result (IsAgreed run.now (IsSpotShown self.now.start.pool.now spot) table.old table.new) }
    {
        if spot.hidden {
            return Ok(true);
        }
        match spot.view {
            None => self.cells_agree(alloc, table, run, u64::from(spot.address), spot.len),
            Some(view) => {
                if spot.len != 1 {
                    return Ok(false);
                }
                self.view_agrees(alloc, table, run, spot.address, view)
            }
        }
    }

    // The first variable that is neither hidden nor seen as the program has it, counted on from a
    // number.
    fn unlike_spot(
        &self,
        alloc: Global,
        table: &mut Classes,
        run: &Run,
        spots: &[Spot],
        count: u32,
    ) -> Result<Option<u32>, NoMemory>
        ensures { IfOk result (λ found. IsAgreed run.now (SpotsSeen self.now.start.pool.now spots.now) table.old table.new (is_none found)) }
    {
        let Some((spot, rest)) = spots.split_first() else {
            return Ok(None);
        };
        if !self.spot_agrees(alloc, table, run, *spot)? {
            return Ok(Some(count));
        }
        self.unlike_spot(alloc, table, run, rest, count.saturating_add(1))
    }

    // Whether a place has the value of its tree.
    fn holding_agrees(
        &self,
        alloc: Global,
        table: &mut Classes,
        run: &Run,
        holding: &Holding,
    ) -> Result<bool, NoMemory>
        ensures { IfOk result (IsAgreed run.now (IsHeld self.now.start.pool.now holding.now) table.old table.new) }
    {
        if holding.place >= self.start.pool.len() {
            return Ok(false);
        }
        let facts = run.facts.as_slice();
        let first = self.start.expr(table, run, holding.place)?;
        let second = self.start.tree(table, run, &holding.tree)?;
        let Some(a) = first else {
            return Ok(false);
        };
        let Some(b) = second else {
            return Ok(false);
        };
        self.are_one(alloc, table, facts, a, b)
    }

    // The first place without the value of its tree.
    fn unlike_holding(
        &self,
        alloc: Global,
        table: &mut Classes,
        run: &Run,
        holdings: &[Holding],
        count: u32,
    ) -> Result<Option<u32>, NoMemory>
        ensures { IfOk result (λ found. IsAgreed run.now (AllHeld self.now.start.pool.now holdings.now) table.old table.new (is_none found)) }
    {
        let Some((holding, rest)) = holdings.split_first() else {
            return Ok(None);
        };
        if !self.holding_agrees(alloc, table, run, holding)? {
            return Ok(Some(count));
        }
        self.unlike_holding(alloc, table, run, rest, count.saturating_add(1))
    }

    // Whether a cell of the program has its number.
    fn number_agrees(
        &self,
        alloc: Global,
        table: &mut Classes,
        run: &Run,
        one: Numbered,
    ) -> Result<bool, NoMemory>
        ensures { IfOk result (IsAgreed run.now (λ s now. IsNumbered one now) table.old table.new) }
    {
        let facts = run.facts.as_slice();
        let first = number(table, self.start.word, one.number)?;
        let second = self
            .start
            .in_cell(table, facts, &run.vars, u64::from(one.address))?;
        let Some(a) = first else {
            return Ok(false);
        };
        let Some(b) = second else {
            return Ok(false);
        };
        self.are_one(alloc, table, facts, a, b)
    }

    // The first cell without its number.
    fn unlike_number(
        &self,
        alloc: Global,
        table: &mut Classes,
        run: &Run,
        numbers: &[Numbered],
        count: u32,
    ) -> Result<Option<u32>, NoMemory>
        ensures { IfOk result (λ found. IsAgreed run.now (λ s now. AllNumbered numbers.now now) table.old table.new (is_none found)) }
    {
        let Some((one, rest)) = numbers.split_first() else {
            return Ok(None);
        };
        if !self.number_agrees(alloc, table, run, *one)? {
            return Ok(Some(count));
        }
        self.unlike_number(alloc, table, run, rest, count.saturating_add(1))
    }

    // The first equation of a hint that doesn't hold.
    pub(crate) fn first_unlike(
        &self,
        alloc: Global,
        table: &mut Classes,
        run: &Run,
        hint: &Hint,
    ) -> Result<Option<Equation>, NoMemory>
        ensures { IfOk result (λ found. IsAgreed run.now (IsAsHinted self.now.start.pool.now hint.now) table.old table.new (is_none found)) }
    {
        if let Some(k) = self.unlike_spot(alloc, table, run, hint.spots.as_slice(), 0)? {
            return Ok(Some(Equation::Variable(k)));
        }
        if let Some(k) = self.unlike_holding(alloc, table, run, hint.holdings.as_slice(), 0)? {
            return Ok(Some(Equation::Holding(k)));
        }
        match self.unlike_number(alloc, table, run, hint.numbers.as_slice(), 0)? {
            Some(k) => Ok(Some(Equation::Number(k))),
            None => Ok(None),
        }
    }
}
