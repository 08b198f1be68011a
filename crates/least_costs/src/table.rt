//! The table of the matches and the rows that were found.

ghost use Rattle.std.specs.Prelude.{◌≡◌, ◌*◌, ◌^◌, ◌<◌, ◌≤◌, Some, IfOk, OnOk, IfSome, slice_get};
ghost use Rattle.net_model.specs.Exprs.{ExprModel};
ghost use Rattle.std.specs.Bool.{OnTrue, OnFalse};
ghost use Rattle.least_costs.specs.Subgoals.{AreFew};
ghost use Rattle.least_costs.specs.Least.{IsLeast};
ghost use Rattle.least_costs.specs.Slots.{IsEntry, IsSlot};
ghost use Rattle.least_costs.specs.Rows.{row_subgoal};
ghost use Rattle.form_model.specs.Trees.{model_of_tree};
ghost use Rattle.least_costs.specs.Searches.{search_stock, search_nodes};
ghost use Rattle.least_costs.specs.Matched.{AreMatches};
ghost use Rattle.least_costs.specs.Tables.{AreEmpty, AreRight, HasMatches, IsAmong, IsKept};

use crate::limits::Limits;
use crate::matches::Matches;
use crate::search::Search;
use crate::slots::Slot;
use rec_bits::NoMemory;
use std::alloc::{Global, Layout};
use std::rc::Rc;
use tree_grammar::Subtree;
use tree_sharing::{first_equal, first_numbers};

/// The row of least costs of a tree, whole or not, under these limits.
#[derive(Drop)]
pub struct KeptRow {
    pub whole: bool,
    pub limits: Limits,
    pub costs: Vec<Option<u64>>,
}

/// The matches and the rows of least costs that were found.
#[derive(Drop)]
pub struct CostTable<'a> {
    /// For the number of each subtree that of the first equal one, under which what is found of all
    /// of them is kept.
    pub firsts: Vec<u64>,
    /// For each number the matches of its subtree as a whole one, as a part, or as both.
    pub matches: Vec<Vec<Rc<Matches<'a>>>>,
    /// For each number the rows of its subtree.
    pub rows: Vec<Vec<KeptRow>>,
}

// Whether two limits are one.
fn is_same(a: Limits, b: Limits) -> bool
    ensures { OnTrue result (a ≡ b) }
{
    a.avoid == b.avoid && a.allowed == b.allowed
}

// As many empty lists.
fn empty_lists<T: Drop>(alloc: Global, count: usize) -> Result<Vec<Vec<T>>, NoMemory>
    ensures { IfOk result (λ lists. AreEmpty lists.items) }
{
    let mut lists = Vec::new(alloc);
    while lists.len() < count {
        lists.push(Vec::new(alloc))?;
    }
    Ok(lists)
}

// Whether one block of memory can have a list of rows, of 24 bytes, for each of so many numbers. No
// cost passes 64 bits then.
fn may_be_kept(count: usize) -> bool
    ensures few { OnTrue result (AreFew count) }
    ensures many { OnFalse result (2 ^ 63 ≤ 24 * count) }
{
    Layout::array::<Vec<KeptRow>>(count).is_ok()
}

// The row that is kept of the tree, whole or not, under these limits.
fn row_in(rows: &[KeptRow], whole: bool, limits: Limits) -> Option<&KeptRow>
    ensures { IfSome result (λ row. IsAmong rows.now row.now × (row.now.whole ≡ whole) × (row.now.limits ≡ limits)) }
{
    for row in rows {
        if is_same(row.limits, limits) && row.whole == whole {
            return Some(row);
        }
    }
    None
}

// The matches that are kept of the tree, whole or not.
fn matches_in<'s, 'a>(list: &'s [Rc<Matches<'a>>], whole: bool) -> Option<&'s Rc<Matches<'a>>>
    ensures { IfSome result (λ ms. IsAmong list.now ms.now × (ms.now.value.whole ≡ whole)) }
{
    for matches in list {
        if matches.whole == whole {
            return Some(matches);
        }
    }
    None
}

impl<'a> Search<'a> {
    /// A table with no matches and no rows.
    pub fn new_table(&self) -> Result<CostTable<'a>, NoMemory>
        ensures { IfOk result (λ table. AreRight self.now table) }
    {
        let firsts = first_numbers(self.alloc, self.destination, self.tree)?;
        let count = firsts.len();
        if !may_be_kept(count) {
            return Err(NoMemory);
        }
        Ok(CostTable {
            firsts,
            matches: empty_lists(self.alloc, count)?,
            rows: empty_lists(self.alloc, count)?,
        })
    }

    // The least cost that is kept in an entry of a row of the tree; the outer option tells whether
    // the row is kept.
    pub(crate) fn kept(
        &self,
        table: &CostTable,
        subtree: Subtree,
        limits: Limits,
        slot: Slot,
    ) -> Option<Option<u64>>
        requires right { AreRight self.now table.now }
        requires slot { IsEntry slot }
        ensures { IfSome result (λ o. (t : ExprModel) → slice_get (search_nodes self.now) subtree.entry.at ≡ Some t →
            IsSlot subtree.entry.whole slot →
            IsLeast (search_stock self.now) limits (row_subgoal t subtree.entry.whole slot) o) }
    {
        let rows = table.rows.get(subtree.at as usize)?;
        let row = row_in(rows, subtree.whole, limits)?;
        let cost = row.costs[slot.index()];
        Some(cost)
    }

    // Keeps a row of the tree of this number.
    pub(crate) fn keep(
        &self,
        table: &mut CostTable,
        number: u64,
        row: KeptRow,
    ) -> Result<(), NoMemory>
        requires right { AreRight self.now table.old }
        requires row { IsKept self.now number row }
        ensures { OnOk result (AreRight self.now table.new) }
    {
        if let Some(rows) = table.rows.get_mut(number as usize) {
            rows.push(row)?;
        }
        Ok(())
    }

    // The matches that are kept of the tree of this number, whole or not.
    fn kept_matches<'s>(
        &self,
        table: &'s CostTable<'a>,
        number: u64,
        whole: bool,
    ) -> Option<&'s Rc<Matches<'a>>>
        requires right { AreRight self.now table.now }
        ensures { IfSome result (λ ms. HasMatches self.now number ms.now × (ms.now.value.whole ≡ whole)) }
    {
        matches_in(table.matches.get(number as usize)?, whole)
    }

    /// The forms that match a tree for an entry of its row, in their order. They are found once for
    /// all equal trees.
    pub fn matches_at(
        &self,
        table: &mut CostTable<'a>,
        subtree: Subtree<'a>,
    ) -> Result<Rc<Matches<'a>>, NoMemory>
        requires number { slice_get (search_nodes self.now) subtree.at ≡ Some (model_of_tree subtree.tree.now) }
        requires right { AreRight self.now table.old }
        ensures matches { IfOk result (λ ms. AreMatches self.now ms.value) }
        ensures tree { IfOk result (λ ms. model_of_tree ms.value.tree.now ≡ model_of_tree subtree.entry.tree.now) }
        ensures whole { IfOk result (λ ms. ms.value.whole ≡ subtree.entry.whole) }
        ensures right { OnOk result (AreRight self.now table.new) }
    {
        let Subtree { tree, whole, at } = subtree;
        let first = first_equal(&table.firsts, at);
        if let Some(matches) = self.kept_matches(table, first, whole) {
            return Ok(matches.clone()?);
        }
        let found = self.matches_of(Subtree {
            tree,
            whole,
            at: first,
        })?;
        self.keep_matches(table, first, found)
    }

    // Keeps the matches of a tree.
    fn keep_matches(
        &self,
        table: &mut CostTable<'a>,
        number: u64,
        found: Matches<'a>,
    ) -> Result<Rc<Matches<'a>>, NoMemory>
        requires tree { slice_get (search_nodes self.now) number ≡ Some (model_of_tree found.tree.now) }
        requires matches { AreMatches self.now found }
        requires right { AreRight self.now table.old }
        ensures value { IfOk result (λ ms. ms.value ≡ found.entry) }
        ensures right { OnOk result (AreRight self.now table.new) }
    {
        let matches = Rc::new(self.alloc, found)?;
        self.put_matches(table, number, matches.clone()?)?;
        Ok(matches)
    }

    fn put_matches(
        &self,
        table: &mut CostTable<'a>,
        number: u64,
        matches: Rc<Matches<'a>>,
    ) -> Result<(), NoMemory>
        requires right { AreRight self.now table.old }
        requires matches { HasMatches self.now number matches }
        ensures { OnOk result (AreRight self.now table.new) }
    {
        if let Some(list) = table.matches.get_mut(number as usize) {
            list.push(matches)?;
        }
        Ok(())
    }
}
