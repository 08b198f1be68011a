//! The forms that begin a cover of what is asked for, and the least cost of its covers.

ghost use Rattle.std.specs.Prelude.{◌≡◌, ◌^◌, ◌<◌, IfOk, OnOk, IfSome, length};
ghost use Rattle.std.specs.Option.{option_map};
ghost use Rattle.form_model.specs.Covers.{operands_of, cuts_of};
ghost use Rattle.tree_grammar.specs.Leaves.{models_of_leaves, AreAt};
ghost use Rattle.least_costs.specs.Subgoals.{free};
ghost use Rattle.least_costs.specs.Least.{IsLeast, IsLeastForm};
ghost use Rattle.least_costs.specs.Fits.{model_of_subgoal, StandsGoal, IsFit, FitOf, FitsParts, fit_cost, cheaper_fit, IsBestAmong};
ghost use Rattle.least_costs.specs.Searches.{search_stock, search_nodes, OperandsAt, CutsAt, AreParts};
ghost use Rattle.least_costs.specs.Matched.{AreLowLeaves};
ghost use Rattle.least_costs.specs.Tables.{AreRight};

use crate::limits::{Limits, cells_of, keeps_to};
use crate::opened::{OpenCut, OpenOperand};
use crate::parts::{cuts_in, operands_in};
use crate::search::Search;
use crate::table::CostTable;
use rec_bits::NoMemory;
use tree_grammar::{Leaf, Subgoal, match_at};

/// The parts of a form's match, with their least costs.
#[derive(Drop)]
pub struct Fit<'a> {
    pub operands: Vec<OpenOperand<'a>>,
    pub cuts: Vec<OpenCut<'a>>,
    pub operands_cost: u64,
    pub cuts_cost: u64,
}

/// The form that begins the first cover of least cost, with its place in the list.
#[derive(Drop)]
pub struct BestFit<'a> {
    pub form: usize,
    pub fit: Fit<'a>,
}

fn fit_of<'a>(
    operands: Vec<OpenOperand<'a>>,
    cuts: Vec<OpenCut<'a>>,
    a: Option<u64>,
    b: Option<u64>,
) -> Option<Fit<'a>>
    ensures { FitOf operands.entry.items cuts.entry.items a b result }
{
    let (Some(operands_cost), Some(cuts_cost)) = (a, b) else {
        return None;
    };
    Some(Fit {
        operands,
        cuts,
        operands_cost,
        cuts_cost,
    })
}

/// The cost of the covers that begin with the form.
pub fn cost_of(fit: &Fit) -> u64
    requires { fit_cost fit.now < 2 ^ 64 }
    ensures { result ≡ fit_cost fit.now }
{
    1 + fit.operands_cost + fit.cuts_cost
}

// The same where it begins any.
fn cost_if(fit: &Option<Fit>) -> Option<u64>
    requires { IfSome fit.now (λ f. fit_cost f < 2 ^ 64) }
    ensures { result ≡ option_map fit_cost fit.now }
{
    match fit {
        Some(fit) => Some(cost_of(fit)),
        None => None,
    }
}

// The one that is known, or the form at `k` where its covers cost less.
fn cheaper<'a>(best: Option<BestFit<'a>>, k: usize, fit: Option<Fit<'a>>) -> Option<BestFit<'a>>
    requires best { IfSome best (λ b. fit_cost b.fit < 2 ^ 64) }
    requires fit { IfSome fit (λ f. fit_cost f < 2 ^ 64) }
    ensures { result ≡ cheaper_fit best.entry k fit.entry }
{
    let Some(fit) = fit else {
        return best;
    };
    if let Some(b) = best {
        if cost_of(&b.fit) <= cost_of(&fit) {
            return Some(b);
        }
    }
    Some(BestFit { form: k, fit })
}

impl<'a> Search<'a> {
    /// The parts of the match of the form at `k`, with their least costs, where it begins a cover
    /// that keeps to the limits.
    pub fn fit_at(
        &self,
        table: &mut CostTable<'a>,
        goal: &Subgoal<'a>,
        limits: Limits,
        k: usize,
    ) -> Result<Option<Fit<'a>>, NoMemory>
        requires form { k < length self.now.forms.now }
        requires stands { StandsGoal self.now goal.now }
        requires right { AreRight self.now table.old }
        ensures fit { IfOk result (λ o. IsFit (search_stock self.now) limits (model_of_subgoal goal.now) k o) }
        ensures at { IfOk result (λ o. IfSome o (λ f. OperandsAt (search_nodes self.now) f.operands.items)) }
        ensures cuts_at { IfOk result (λ o. IfSome o (λ f. CutsAt (search_nodes self.now) f.cuts.items)) }
        ensures few { IfOk result (λ o. IfSome o (λ f. fit_cost f < 2 ^ 64)) }
        ensures right { OnOk result (AreRight self.now table.new) }
    {
        let form = &self.forms[k];
        if !keeps_to(limits, form.clobbers, cells_of(&form.goal)) {
            return Ok(None);
        }
        let Some(found) = match_at(self.alloc, form, *goal, self.temps)? else {
            return Ok(None);
        };
        self.fit_parts(table, &found.parts, limits)
    }

    // The parts with their least costs, where they have covers.
    fn fit_parts(
        &self,
        table: &mut CostTable<'a>,
        parts: &[Leaf<'a>],
        limits: Limits,
    ) -> Result<Option<Fit<'a>>, NoMemory>
        requires low { AreLowLeaves (models_of_leaves parts.now) }
        requires at { AreAt (search_nodes self.now) parts.now }
        requires few { AreParts (search_nodes self.now) (operands_of (models_of_leaves parts.now))
            (cuts_of (models_of_leaves parts.now)) }
        requires right { AreRight self.now table.old }
        ensures fit { IfOk result (λ o.
            FitsParts (search_stock self.now) limits (operands_of (models_of_leaves parts.now))
            (cuts_of (models_of_leaves parts.now)) o) }
        ensures at { IfOk result (λ o. IfSome o (λ f. OperandsAt (search_nodes self.now) f.operands.items)) }
        ensures cuts_at { IfOk result (λ o. IfSome o (λ f. CutsAt (search_nodes self.now) f.cuts.items)) }
        ensures few { IfOk result (λ o. IfSome o (λ f. fit_cost f < 2 ^ 64)) }
        ensures right { OnOk result (AreRight self.now table.new) }
    {
        let operands = operands_in(self.alloc, parts)?;
        let cuts = cuts_in(self.alloc, parts)?;
        let a = self.orders(table, &operands, limits, Some(0))?;
        let b = self.cuts_cost(table, &cuts)?;
        Ok(fit_of(operands, cuts, a, b))
    }

    // The least cost of the covers that begin with the form at `k`.
    pub(crate) fn form_least(
        &self,
        table: &mut CostTable<'a>,
        goal: &Subgoal<'a>,
        k: usize,
    ) -> Result<Option<u64>, NoMemory>
        requires form { k < length self.now.forms.now }
        requires stands { StandsGoal self.now goal.now }
        requires right { AreRight self.now table.old }
        ensures least { IfOk result (λ o.
            IsLeastForm (search_stock self.now) (free (search_stock self.now)) (model_of_subgoal goal.now) k o) }
        ensures right { OnOk result (AreRight self.now table.new) }
    {
        let free = Limits {
            avoid: 0,
            allowed: self.file,
        };
        let fit = self.fit_at(table, goal, free, k)?;
        Ok(cost_if(&fit))
    }

    /// The form that begins the first cover of least cost of what is asked for, with the parts of its
    /// match; none where there is no cover.
    pub fn best_fit(
        &self,
        table: &mut CostTable<'a>,
        goal: &Subgoal<'a>,
    ) -> Result<Option<BestFit<'a>>, NoMemory>
        requires stands { StandsGoal self.now goal.now }
        requires right { AreRight self.now table.old }
        ensures best { IfOk result (IsBestAmong (search_stock self.now) (free (search_stock self.now)) (model_of_subgoal goal.now)
            (length self.now.forms.now)) }
        ensures at { IfOk result (λ o. IfSome o (λ b. OperandsAt (search_nodes self.now) b.fit.operands.items)) }
        ensures cuts_at { IfOk result (λ o. IfSome o (λ b. CutsAt (search_nodes self.now) b.fit.cuts.items)) }
        ensures few { IfOk result (λ o. IfSome o (λ b. fit_cost b.fit < 2 ^ 64)) }
        ensures right { OnOk result (AreRight self.now table.new) }
    {
        let free = Limits {
            avoid: 0,
            allowed: self.file,
        };
        let mut best = None;
        for k in 0..self.forms.len() {
            let fit = self.fit_at(table, goal, free, k)?;
            best = cheaper(best, k, fit);
        }
        Ok(best)
    }

    // The least cost of the covers of what is asked for.
    pub(crate) fn least_of(
        &self,
        table: &mut CostTable<'a>,
        goal: &Subgoal<'a>,
    ) -> Result<Option<u64>, NoMemory>
        requires stands { StandsGoal self.now goal.now }
        requires right { AreRight self.now table.old }
        ensures least { IfOk result (λ o.
            IsLeast (search_stock self.now) (free (search_stock self.now)) (model_of_subgoal goal.now) o) }
        ensures right { OnOk result (AreRight self.now table.new) }
    {
        match self.best_fit(table, goal)? {
            Some(best) => Ok(Some(cost_of(&best.fit))),
            None => Ok(None),
        }
    }
}
