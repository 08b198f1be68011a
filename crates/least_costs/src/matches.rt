//! The forms that match a subtree, which are found once for all limits.

ghost use Rattle.std.specs.Prelude.{◌≡◌, ◌<◌, Some, IfOk, OnOk, length, slice_get};
ghost use Rattle.form_model.specs.Trees.{model_of_tree};
ghost use Rattle.form_model.specs.Forms.{model_of_goal};
ghost use Rattle.form_model.specs.Covers.{cells_of_goal};
ghost use Rattle.tree_grammar.specs.Leaves.{models_of_leaves};
ghost use Rattle.least_costs.specs.Subgoals.{is_free, start_under};
ghost use Rattle.least_costs.specs.Searches.{search_nodes};
ghost use Rattle.least_costs.specs.Matched.{AddsMatch, AreLowLeaves, AreMatches, IsOpened, MatchesForm};

use crate::limits::{Limits, cells_of, is_all_free};
use crate::opened::{OpenCut, OpenOperand};
use crate::parts::{cuts_in, operands_in, rest_of};
use crate::rows::{destination_of_entry, goal_of};
use crate::search::Search;
use crate::slots::Slot;
use form_model::{Form, RegSet, Tree};
use rec_bits::NoMemory;
use std::alloc::Global;
use tree_grammar::{Leaf, Subgoal, Subtree, match_at, may_take};

/// A form that matches a tree for an entry of the tree's row, with what its match leaves open.
#[derive(Drop)]
pub struct FormMatch<'a> {
    /// The form's place in the list.
    pub form: usize,
    /// The entry to which it goes.
    pub goal: Slot,
    pub clobbers: RegSet,
    /// The cells of the file in which it leaves its value.
    pub cells: u32,
    /// The entry from which it goes on where nothing is to be avoided and the whole file may be
    /// used, if the one part of the match is the whole tree.
    pub start: Option<Slot>,
    pub operands: Vec<OpenOperand<'a>>,
    pub cuts: Vec<OpenCut<'a>>,
}

/// The forms that match a tree for an entry of its row, in their order.
#[derive(Drop)]
pub struct Matches<'a> {
    pub tree: &'a Tree,
    pub whole: bool,
    pub list: Vec<FormMatch<'a>>,
}

// The entry from which a match goes on under these limits, if its one part is the whole tree. A cut
// goes on from the entry of a temporary cell only where nothing is to be avoided and the whole file
// may be used.
pub(crate) fn start_of(found: &FormMatch, file: u32, limits: Limits) -> Option<Slot>
    ensures { result ≡ start_under found.now.start (is_free file limits) }
{
    match found.start? {
        Slot::Temporary if !is_all_free(file, limits) => None,
        start => Some(start),
    }
}

// The match of the form, which has the place `k`, that goes to this entry and leaves these parts
// open of the tree of this number.
fn open_match<'a>(
    alloc: Global,
    form: &Form,
    k: usize,
    goal: Slot,
    parts: &[Leaf<'a>],
    number: u64,
) -> Result<FormMatch<'a>, NoMemory>
    requires low { AreLowLeaves (models_of_leaves parts.now) }
    ensures { IfOk result (λ m.
        IsOpened parts.now number k goal form.now.clobbers (cells_of_goal (model_of_goal form.now.goal)) m) }
{
    let cells = cells_of(&form.goal);
    let start = rest_of(parts, number);
    let operands = operands_in(alloc, parts)?;
    let cuts = cuts_in(alloc, parts)?;
    Ok(FormMatch {
        form: k,
        goal,
        clobbers: form.clobbers,
        cells,
        start,
        operands,
        cuts,
    })
}

impl<'a> Search<'a> {
    // The match of the form at `k`, if it matches the tree for an entry of the tree's row.
    fn match_form(&self, subtree: Subtree<'a>, k: usize) -> Result<Option<FormMatch<'a>>, NoMemory>
        requires form { k < length self.now.forms.now }
        requires number { slice_get (search_nodes self.now) subtree.at ≡ Some (model_of_tree subtree.tree.now) }
        ensures { IfOk result (λ o. MatchesForm self.now (model_of_tree subtree.entry.tree.now) subtree.entry.whole k o) }
    {
        let Subtree { tree, whole, at } = subtree;
        let form = &self.forms[k];
        if !may_take(&form.value, tree) {
            return Ok(None);
        }
        let Some(goal) = goal_of(form, whole) else {
            return Ok(None);
        };
        let want = Subgoal {
            destination: destination_of_entry(goal),
            tree,
            whole,
            at,
        };
        let Some(found) = match_at(self.alloc, form, want, self.temps)? else {
            return Ok(None);
        };
        let opened = open_match(self.alloc, form, k, goal, &found.parts, at)?;
        Ok(Some(opened))
    }

    // Adds the match of the form at `k`, if it matches the tree.
    fn put_match(
        &self,
        subtree: Subtree<'a>,
        k: usize,
        list: &mut Vec<FormMatch<'a>>,
    ) -> Result<(), NoMemory>
        requires form { k < length self.now.forms.now }
        requires number { slice_get (search_nodes self.now) subtree.at ≡ Some (model_of_tree subtree.tree.now) }
        ensures { OnOk result (AddsMatch self.now (model_of_tree subtree.entry.tree.now) subtree.entry.whole k
            list.old.items list.new.items) }
    {
        let Some(found) = self.match_form(subtree, k)? else {
            return Ok(());
        };
        list.push(found)?;
        Ok(())
    }

    // The forms that match the tree.
    pub(crate) fn matches_of(&self, subtree: Subtree<'a>) -> Result<Matches<'a>, NoMemory>
        requires number { slice_get (search_nodes self.now) subtree.at ≡ Some (model_of_tree subtree.tree.now) }
        ensures matches { IfOk result (λ ms. AreMatches self.now ms) }
        ensures tree { IfOk result (λ ms. model_of_tree ms.tree.now ≡ model_of_tree subtree.entry.tree.now) }
        ensures whole { IfOk result (λ ms. ms.whole ≡ subtree.entry.whole) }
    {
        let mut list = Vec::new(self.alloc);
        for k in 0..self.forms.len() {
            self.put_match(subtree, k, &mut list)?;
        }
        Ok(Matches {
            tree: subtree.tree,
            whole: subtree.whole,
            list,
        })
    }
}
