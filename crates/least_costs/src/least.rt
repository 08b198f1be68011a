//! Least costs: of a tree for a register or a temporary cell, of operands over their orders, and of
//! cuts.

ghost use Rattle.std.specs.Prelude.{◌≡◌, ◌*◌, ◌<◌, Some, IfOk, OnOk, vec_len, length, slice_get};
ghost use Rattle.form_model.specs.Trees.{model_of_tree};
ghost use Rattle.least_costs.specs.Subgoals.{operand_subgoal, operands_size};
ghost use Rattle.least_costs.specs.Least.{IsLeast, IsLeastOrder, IsLeastAfter, IsLeastFrom, IsLeastCut, IsFloor, IsCostBelow, NoMore};
ghost use Rattle.least_costs.specs.Slots.{IsSlot};
ghost use Rattle.least_costs.specs.Rows.{row_subgoal, IsBlank, IsCheapOffer, IsLeastRow};
ghost use Rattle.least_costs.specs.Searches.{search_stock, search_nodes, open_operand, open_operands, open_cuts, OperandsAt, CutsAt, AreParts};
ghost use Rattle.least_costs.specs.Matched.{AreMatches, IsOfferAt};
ghost use Rattle.least_costs.specs.Tables.{AreRight};

use crate::costs::{form_cost, is_as_dear, lesser_of, sum_of};
use crate::limits::{Limits, after_home, keeps_to};
use crate::matches::{Matches, start_of};
use crate::opened::{OpenCut, OpenOperand};
use crate::parts::without;
use crate::rows::{ChainRule, Offer, close, known_cost, note, offer_of};
use crate::search::Search;
use crate::slots::{Slot, slot_of};
use crate::table::{CostTable, KeptRow};
use rec_bits::NoMemory;
use smallvec::SmallVec;
use tree_grammar::Subtree;
use tree_sharing::first_equal;

impl<'a> Search<'a> {
    /// The least cost of the covers of a tree for an entry of its row that keep to the limits. The
    /// tree's row is found once.
    #[cycle(covering)]
    pub fn least(
        &self,
        table: &mut CostTable<'a>,
        subtree: Subtree<'a>,
        slot: Slot,
        limits: Limits,
    ) -> Result<Option<u64>, NoMemory>
        requires slot { IsSlot subtree.whole slot }
        requires number { slice_get (search_nodes self.now) subtree.at ≡ Some (model_of_tree subtree.tree.now) }
        requires right { AreRight self.now table.old }
        ensures least { IfOk result (λ o. IsLeast (search_stock self.now) limits
            (row_subgoal (model_of_tree subtree.entry.tree.now) subtree.entry.whole slot) o) }
        ensures right { OnOk result (AreRight self.now table.new) }
    {
        let Subtree { tree, whole, at } = subtree;
        let first = Subtree {
            tree,
            whole,
            at: first_equal(&table.firsts, at),
        };
        if let Some(cost) = self.kept(table, first, limits, slot) {
            return Ok(cost);
        }
        let costs = self.least_row(table, first, limits)?;
        let cost = costs[slot.index()];
        let row = KeptRow {
            whole,
            limits,
            costs,
        };
        self.keep(table, first.at, row)?;
        Ok(cost)
    }

    /// The least cost of the covers of an operand that keep to the limits.
    #[cycle(covering)]
    pub fn operand_cost(
        &self,
        table: &mut CostTable<'a>,
        operand: OpenOperand<'a>,
        limits: Limits,
    ) -> Result<Option<u64>, NoMemory>
        requires number { slice_get (search_nodes self.now) operand.at ≡ Some (model_of_tree operand.tree.now) }
        requires right { AreRight self.now table.old }
        ensures least { IfOk result (λ o.
            IsLeast (search_stock self.now) limits (operand_subgoal (open_operand operand.entry)) o) }
        ensures right { OnOk result (AreRight self.now table.new) }
    {
        let slot = slot_of(operand.home);
        let subtree = Subtree {
            tree: operand.tree,
            whole: operand.whole,
            at: operand.at,
        };
        self.least(table, subtree, slot, limits)
    }

    // The row of least costs of a tree.
    #[cycle(covering)]
    fn least_row(
        &self,
        table: &mut CostTable<'a>,
        subtree: Subtree<'a>,
        limits: Limits,
    ) -> Result<Vec<Option<u64>>, NoMemory>
        requires number { slice_get (search_nodes self.now) subtree.at ≡ Some (model_of_tree subtree.tree.now) }
        requires right { AreRight self.now table.old }
        ensures len { IfOk result (λ row. vec_len row ≡ 18) }
        ensures least { IfOk result (λ row. IsLeastRow (search_stock self.now) limits
            (model_of_tree subtree.entry.tree.now) subtree.entry.whole row.items) }
        ensures right { OnOk result (AreRight self.now table.new) }
    {
        let matches = self.matches_at(table, subtree)?;
        self.row_of(table, &matches, limits)
    }

    // The row of the tree of the matches: what each of them gives, closed under the chain rules.
    #[cycle(covering)]
    fn row_of(
        &self,
        table: &mut CostTable<'a>,
        matches: &Matches<'a>,
        limits: Limits,
    ) -> Result<Vec<Option<u64>>, NoMemory>
        requires matches { AreMatches self.now matches.now }
        requires right { AreRight self.now table.old }
        ensures len { IfOk result (λ row. vec_len row ≡ 18) }
        ensures least { IfOk result (λ row.
            IsLeastRow (search_stock self.now) limits (model_of_tree matches.now.tree.now) matches.now.whole row.items) }
        ensures right { OnOk result (AreRight self.now table.new) }
    {
        let mut row = vec![in self.alloc; None; 18]?;
        self.fill(table, matches, limits, &mut row)?;
        Ok(row)
    }

    // Lowers the entries of a row of the tree of the matches, which has none yet, to the least
    // costs.
    #[cycle(covering)]
    fn fill(
        &self,
        table: &mut CostTable<'a>,
        matches: &Matches<'a>,
        limits: Limits,
        row: &mut Vec<Option<u64>>,
    ) -> Result<(), NoMemory>
        requires matches { AreMatches self.now matches.now }
        requires right { AreRight self.now table.old }
        requires len { vec_len row.old ≡ 18 }
        requires blank { IsBlank row.old.items }
        ensures len { vec_len row.new ≡ 18 }
        ensures least { OnOk result
            (IsLeastRow (search_stock self.now) limits (model_of_tree matches.now.tree.now) matches.now.whole
            row.new.items) }
        ensures right { OnOk result (AreRight self.now table.new) }
    {
        let mut chains = SmallVec::new(self.alloc);
        for i in 0..matches.list.len() {
            let offer = self.offer_at(table, matches, limits, row, i)?;
            note(offer, &mut chains, row)?;
        }
        close(&chains, row);
        Ok(())
    }

    // What the match at `i` gives for the row of a tree: nothing where it can't make its entry
    // less. The operands' orders are gone through only where their floor could.
    #[cycle(covering)]
    fn offer_at(
        &self,
        table: &mut CostTable<'a>,
        matches: &Matches<'a>,
        limits: Limits,
        row: &[Option<u64>],
        i: usize,
    ) -> Result<Offer, NoMemory>
        requires place { i < length matches.now.list.items }
        requires matches { AreMatches self.now matches.now }
        requires right { AreRight self.now table.old }
        ensures offer { IfOk result (λ l. IsOfferAt (search_stock self.now) limits matches.now row.now i l) }
        ensures cheap { IfOk result (λ l. IsCheapOffer (model_of_tree matches.now.tree.now) l) }
        ensures right { OnOk result (AreRight self.now table.new) }
    {
        let found = &matches.list[i];
        if !keeps_to(limits, found.clobbers, found.cells) {
            return Ok(Offer::Nothing);
        }
        if let Some(start) = start_of(found, self.file, limits) {
            return Ok(Offer::Chains(ChainRule {
                start,
                goal: found.goal,
            }));
        }
        let known = known_cost(row, found.goal);
        let cost = self.cost_below(table, &found.operands, &found.cuts, limits, known)?;
        Ok(offer_of(found.goal, cost))
    }

    // The least cost of the covers that begin with a match with these parts, or nothing where it
    // isn't less than the cost that is known. Orders are gone through where there are several.
    #[cycle(covering)]
    fn cost_below(
        &self,
        table: &mut CostTable<'a>,
        operands: &[OpenOperand<'a>],
        cuts: &[OpenCut<'a>],
        limits: Limits,
        known: Option<u64>,
    ) -> Result<Option<u64>, NoMemory>
        requires at { OperandsAt (search_nodes self.now) operands.now }
        requires cuts_at { CutsAt (search_nodes self.now) cuts.now }
        requires few { AreParts (search_nodes self.now) (open_operands operands.now) (open_cuts cuts.now) }
        requires right { AreRight self.now table.old }
        ensures least { IfOk result (λ o.
            IsCostBelow (search_stock self.now) limits (open_operands operands.now) (open_cuts cuts.now) known o) }
        ensures right { OnOk result (AreRight self.now table.new) }
    {
        let b = self.cuts_cost(table, cuts)?;
        let floor = self.floor_of(table, operands, limits)?;
        let lowest = form_cost(floor, b);
        if is_as_dear(lowest, known) {
            return Ok(None);
        }
        if operands.len() < 2 {
            return Ok(lowest);
        }
        let a = self.orders(table, operands, limits, floor)?;
        Ok(form_cost(a, b))
    }

    /// What no order of the operands costs less than: the sum of their least costs, where none has
    /// to spare the register of another. Of fewer than two operands it is their least cost.
    #[cycle(covering)]
    pub fn floor_of(
        &self,
        table: &mut CostTable<'a>,
        ops: &[OpenOperand<'a>],
        limits: Limits,
    ) -> Result<Option<u64>, NoMemory>
        requires at { OperandsAt (search_nodes self.now) ops.now }
        requires right { AreRight self.now table.old }
        ensures floor { IfOk result (λ o. IsFloor (search_stock self.now) limits (open_operands ops.now) o) }
        ensures lone { IfOk result (λ o. length ops.now < 2 →
            IsLeastOrder (search_stock self.now) limits (open_operands ops.now) o) }
        ensures few { IfOk result (λ o. NoMore o (36 * operands_size (open_operands ops.now))) }
        ensures right { OnOk result (AreRight self.now table.new) }
    {
        if ops.is_empty() {
            return Ok(Some(0));
        }
        let Some(m) = self.operand_cost(table, ops[0], limits)? else {
            return Ok(None);
        };
        if ops.len() == 1 {
            return Ok(Some(m));
        }
        let n = self.floor_of(table, &ops[1..], limits)?;
        Ok(sum_of(Some(m), n))
    }

    /// The least cost of the operands, over their orders, of which none costs less than the floor:
    /// one that costs no more ends the search.
    #[cycle(covering)]
    pub fn orders(
        &self,
        table: &mut CostTable<'a>,
        ops: &[OpenOperand<'a>],
        limits: Limits,
        floor: Option<u64>,
    ) -> Result<Option<u64>, NoMemory>
        requires at { OperandsAt (search_nodes self.now) ops.now }
        requires floor { IsFloor (search_stock self.now) limits (open_operands ops.now) floor }
        requires right { AreRight self.now table.old }
        ensures least { IfOk result (λ o. IsLeastOrder (search_stock self.now) limits (open_operands ops.now) o) }
        ensures right { OnOk result (AreRight self.now table.new) }
    {
        if ops.is_empty() {
            return Ok(Some(0));
        }
        let mut best = None;
        for i in 0..ops.len() {
            let from = self.orders_from(table, ops, limits, i)?;
            best = lesser_of(best, from);
            if is_as_dear(floor, best) {
                return Ok(best);
            }
        }
        Ok(best)
    }

    // The least cost of the operands, over the orders that begin with the one at `i`. What follows
    // isn't asked for where that has no cover.
    #[cycle(covering)]
    fn orders_from(
        &self,
        table: &mut CostTable<'a>,
        ops: &[OpenOperand<'a>],
        limits: Limits,
        i: usize,
    ) -> Result<Option<u64>, NoMemory>
        requires place { i < length ops.now }
        requires at { OperandsAt (search_nodes self.now) ops.now }
        requires right { AreRight self.now table.old }
        ensures least { IfOk result (λ o. IsLeastFrom (search_stock self.now) limits (open_operands ops.now) i o) }
        ensures right { OnOk result (AreRight self.now table.new) }
    {
        let Some(m) = self.operand_cost(table, ops[i], limits)? else {
            return Ok(None);
        };
        if ops.len() == 1 {
            return Ok(Some(m));
        }
        let n = self.orders_after(table, ops, limits, i)?;
        Ok(sum_of(Some(m), n))
    }

    /// The least cost of the operands but the one at `i`, whose register they have to spare.
    #[cycle(covering)]
    pub fn orders_after(
        &self,
        table: &mut CostTable<'a>,
        ops: &[OpenOperand<'a>],
        limits: Limits,
        i: usize,
    ) -> Result<Option<u64>, NoMemory>
        requires place { i < length ops.now }
        requires at { OperandsAt (search_nodes self.now) ops.now }
        requires right { AreRight self.now table.old }
        ensures least { IfOk result (λ o. IsLeastAfter (search_stock self.now) limits (open_operands ops.now) i o) }
        ensures right { OnOk result (AreRight self.now table.new) }
    {
        let first = ops[i];
        let later = after_home(limits, first.home);
        if ops.len() == 2 {
            return self.operand_cost(table, ops[1 - i], later);
        }
        let rest = without(self.alloc, ops, i)?;
        self.orders(table, &rest, later, Some(0))
    }

    /// The least cost of the cuts.
    #[cycle(covering)]
    pub fn cuts_cost(
        &self,
        table: &mut CostTable<'a>,
        cuts: &[OpenCut<'a>],
    ) -> Result<Option<u64>, NoMemory>
        requires at { CutsAt (search_nodes self.now) cuts.now }
        requires right { AreRight self.now table.old }
        ensures least { IfOk result (λ o. IsLeastCut (search_stock self.now) (open_cuts cuts.now) o) }
        ensures right { OnOk result (AreRight self.now table.new) }
    {
        if cuts.is_empty() {
            return Ok(Some(0));
        }
        let cut = cuts[0];
        let first = Subtree {
            tree: cut.tree,
            whole: false,
            at: cut.at,
        };
        let free = Limits {
            avoid: 0,
            allowed: self.file,
        };
        let m = self.least(table, first, Slot::Temporary, free)?;
        let n = self.cuts_cost(table, &cuts[1..])?;
        Ok(sum_of(m, n))
    }
}
