//! The least cost of a tree's covers, and which subtrees of a job are made.

ghost use Rattle.std.specs.Prelude.{◌≡◌, ◌<◌, Some, IfOk, OnOk, length, slice_get};
ghost use Rattle.std.specs.Option.{option_map};
ghost use Rattle.form_model.specs.Trees.{model_of_tree};
ghost use Rattle.form_model.specs.Forms.{model_of_goal};
ghost use Rattle.form_model.specs.Covers.{stock_with};
ghost use Rattle.tree_grammar.specs.Leaves.{model_of_destination};
ghost use Rattle.tree_sharing.specs.Sharing.{job_nodes, exprs_at};
ghost use Rattle.least_costs.specs.Made.{AreMade, IsLeastCost, part_goal};
ghost use Rattle.least_costs.specs.Inner.Made.{Makes, TellsMade};
ghost use Rattle.least_costs.specs.Searches.{search_stock, search_nodes};
ghost use Rattle.least_costs.specs.Tables.{AreRight};

use crate::search::Search;
use crate::table::CostTable;
use form_model::{Form, Forms, Goal, Tree};
use rec_bits::NoMemory;
use std::alloc::Global;
use tree_grammar::{Destination, Subgoal};
use tree_sharing::numbered;

impl<'a> Search<'a> {
    // The least cost of the covers of the tree.
    fn cost_in(&self, whole: bool) -> Result<Option<u64>, NoMemory>
        ensures { IfOk result (λ o. IsLeastCost (search_stock self.now) (model_of_destination self.now.destination)
            (model_of_tree self.now.tree.now) whole o) }
    {
        let mut table = self.new_table()?;
        let goal = Subgoal {
            destination: self.destination,
            tree: self.tree,
            whole,
            at: 0,
        };
        self.least_of(&mut table, &goal)
    }

    // Whether a cover of the tree of number `at`, as a part, begins with the form at `k`.
    fn makes(
        &self,
        table: &mut CostTable<'a>,
        tree: &'a Tree,
        at: u64,
        k: usize,
    ) -> Result<bool, NoMemory>
        requires form { k < length self.now.forms.now }
        requires number { slice_get (search_nodes self.now) at ≡ Some (model_of_tree tree.now) }
        requires right { AreRight self.now table.old }
        ensures makes { IfOk result (λ yes. Makes (search_stock self.now) (model_of_tree tree.now) k yes) }
        ensures right { OnOk result (AreRight self.now table.new) }
    {
        let Some(destination) = part_destination(&self.forms[k]) else {
            return Ok(false);
        };
        let goal = Subgoal {
            destination,
            tree,
            whole: false,
            at,
        };
        match self.form_least(table, &goal, k)? {
            Some(_) => Ok(true),
            None => Ok(false),
        }
    }

    // Whether the tree of number `at` is made.
    fn is_made(&self, table: &mut CostTable<'a>, tree: &'a Tree, at: u64) -> Result<bool, NoMemory>
        requires number { slice_get (search_nodes self.now) at ≡ Some (model_of_tree tree.now) }
        requires right { AreRight self.now table.old }
        ensures made { IfOk result (λ yes. TellsMade (search_stock self.now) (model_of_tree tree.now) yes) }
        ensures right { OnOk result (AreRight self.now table.new) }
    {
        for k in 0..self.forms.len() {
            if self.makes(table, tree, at, k)? {
                return Ok(true);
            }
        }
        Ok(false)
    }

    // Which of the subtrees are made.
    fn made_among(
        &self,
        table: &mut CostTable<'a>,
        nodes: &[&'a Tree],
    ) -> Result<Vec<bool>, NoMemory>
        requires nodes { exprs_at nodes.now ≡ search_nodes self.now }
        requires right { AreRight self.now table.old }
        ensures { IfOk result (λ made. AreMade (search_stock self.now) (search_nodes self.now) made.items) }
    {
        let mut made = Vec::new(self.alloc);
        for at in 0..nodes.len() {
            made.push(self.is_made(table, nodes[at], at as u64)?)?;
        }
        Ok(made)
    }

    // The same with a table of what is found.
    fn made(&self) -> Result<Vec<bool>, NoMemory>
        ensures { IfOk result (λ made. AreMade (search_stock self.now) (search_nodes self.now) made.items) }
    {
        let nodes = numbered(self.alloc, self.destination, self.tree)?;
        let mut table = self.new_table()?;
        self.made_among(&mut table, &nodes)
    }
}

/// The least cost of the orderly covers of a tree that goes to a destination, where so many
/// temporary cells are used: the number of a cover's forms. None exactly where it has no orderly
/// cover. `whole` is asked for a register or the file alone: it says that the tree is the root of
/// its job or the number that is a read's address. Want of memory stands also for a tree or a
/// setting of a form past 64 bits.
pub fn least_cost(
    alloc: Global,
    forms: &Forms,
    destination: Destination,
    tree: &Tree,
    whole: bool,
    temps: u32,
) -> Result<Option<u64>, NoMemory>
    ensures { IfOk result (λ o. IsLeastCost (stock_with forms.now.list.items temps forms.now.file)
        (model_of_destination destination.entry) (model_of_tree tree.now) whole o) }
{
    let search = Search {
        alloc,
        forms: &forms.list,
        temps,
        file: forms.file,
        destination,
        tree,
    };
    search.cost_in(whole)
}

/// Where the form puts a part of a job's tree: into its register, the file or a temporary cell.
/// None for a jump or a branch.
pub fn part_destination(form: &Form) -> Option<Destination<'static>>
    ensures { option_map model_of_destination result ≡ part_goal (model_of_goal form.now.goal) }
{
    match &form.goal {
        Goal::Reg(id) => Some(Destination::Register(*id)),
        Goal::Memory => Some(Destination::Temp),
        Goal::File => Some(Destination::File),
        _ => None,
    }
}

/// For the number of each subtree, of a store's address and then of the tree, whether it is made
/// where so many temporary cells are used: whether it has an orderly cover, as a part, into some
/// register, the file or a temporary cell. Want of memory stands also for a
/// tree or a setting of a form past 64 bits.
pub fn made_parts(
    alloc: Global,
    forms: &Forms,
    destination: Destination,
    tree: &Tree,
    temps: u32,
) -> Result<Vec<bool>, NoMemory>
    ensures { IfOk result (λ made. AreMade (stock_with forms.now.list.items temps forms.now.file)
        (job_nodes (model_of_destination destination.entry) (model_of_tree tree.now)) made.items) }
{
    let search = Search {
        alloc,
        forms: &forms.list,
        temps,
        file: forms.file,
        destination,
        tree,
    };
    search.made()
}
