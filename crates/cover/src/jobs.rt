//! Covers of jobs: of one tree, or the better of two.

ghost use Rattle.std.specs.Prelude.{◌≡◌, ◌<◌, Some, Err, IfOk, length, slice_get};
ghost use Rattle.net_model.specs.Exprs.{ExprModel};
ghost use Rattle.form_model.specs.Trees.{model_of_tree};
ghost use Rattle.form_model.specs.Registers.{AreLow};
ghost use Rattle.form_model.specs.Forms.{aim_destination, models_of_forms};
ghost use Rattle.form_model.specs.Covers.{IsChosen, HasNoCover, job_cost, stock_with};
ghost use Rattle.form_model.specs.CoverModels.{cost, model_of_cover};
ghost use Rattle.tree_grammar.specs.Leaves.{model_of_destination};
ghost use Rattle.cover.specs.Best.{model_of_job_cover};
ghost use Rattle.cover.specs.Inner.Best.{root_subgoal, IsTreeCover, better_of, IsBest};
ghost use Rattle.cover.specs.Jobs.{trees_of};
ghost use Rattle.least_costs.specs.Searches.{search_stock};
ghost use Rattle.least_costs.specs.Tables.{AreRight};

use crate::choice::{Beginning, PartCosts, choose_parts};
use crate::covers::{CoverFault, JobCover, TreeCover};
use form_model::{Aim, Form, Forms, Job};
use least_costs::{CostTable, Limits, Search, cost_of};
use rec_bits::NoMemory;
use std::alloc::Global;
use tree_grammar::{Destination, Subgoal};

// The first cover of least cost of the tree, if there is a cover.
fn cover_tree(search: &Search) -> Result<Option<TreeCover>, NoMemory>
    ensures { IfOk result (λ o. IsTreeCover (search_stock search.now)
        (root_subgoal (model_of_destination search.now.destination) (model_of_tree search.now.tree.now)) o) }
{
    let mut table = search.new_table()?;
    cover_by(search, &mut table)
}

// The same with a table of what was found.
fn cover_by<'a>(
    search: &Search<'a>,
    table: &mut CostTable<'a>,
) -> Result<Option<TreeCover>, NoMemory>
    requires right { AreRight search.now table.old }
    ensures { IfOk result (λ o. IsTreeCover (search_stock search.now)
        (root_subgoal (model_of_destination search.now.destination) (model_of_tree search.now.tree.now)) o) }
{
    let goal = Subgoal {
        destination: search.destination,
        tree: search.tree,
        whole: true,
        at: 0,
    };
    let Some(best) = search.best_fit(table, &goal)? else {
        return Ok(None);
    };
    let cost = cost_of(&best.fit);
    let start = Beginning {
        form: best.form,
        operands: &best.fit.operands,
        cuts: &best.fit.cuts,
        costs: PartCosts {
            operands: best.fit.operands_cost,
            cuts: best.fit.cuts_cost,
        },
    };
    let free = Limits {
        avoid: 0,
        allowed: search.file,
    };
    let cover = choose_parts(search, table, start, free)?;
    Ok(Some(TreeCover { cover, cost }))
}

// The cover that is known, or the cover of the tree at `j` where that is cheaper.
fn better(best: Option<JobCover>, j: usize, tree_cover: Option<TreeCover>) -> Option<JobCover>
    ensures { result ≡ better_of best j tree_cover }
{
    let Some(t) = tree_cover else {
        return best;
    };
    if let Some(b) = best {
        if b.cost <= t.cost {
            return Some(b);
        }
    }
    Some(JobCover {
        which: j,
        cover: t.cover,
        cost: t.cost,
    })
}

// The chosen cover of the job, if it has a cover.
fn best_of(
    alloc: Global,
    forms: &[Form],
    job: &Job,
    temps: u32,
    file: u32,
) -> Result<Option<JobCover>, NoMemory>
    requires { AreLow (models_of_forms forms.now) }
    ensures { IfOk result (λ o. IsBest (stock_with forms.now temps file) (aim_destination job.now.aim)
        (trees_of job.now.trees.items) (length job.now.trees.items) o) }
{
    let mut best = None;
    for j in 0..job.trees.len() {
        let tree_cover = cover_tree_at(alloc, forms, job, temps, file, j)?;
        best = better(best, j, tree_cover);
    }
    Ok(best)
}

// The same of one of a job's trees.
fn cover_tree_at(
    alloc: Global,
    forms: &[Form],
    job: &Job,
    temps: u32,
    file: u32,
    j: usize,
) -> Result<Option<TreeCover>, NoMemory>
    requires low { AreLow (models_of_forms forms.now) }
    requires place { j < length job.now.trees.items }
    ensures { IfOk result (λ o. (t : ExprModel) → slice_get (trees_of job.now.trees.items) j ≡ Some t →
        IsTreeCover (stock_with forms.now temps file) (root_subgoal (aim_destination job.now.aim) t) o) }
{
    let search = Search {
        alloc,
        forms,
        temps,
        file,
        destination: Destination::of(&job.aim),
        tree: &job.trees[j],
    };
    cover_tree(&search)
}

// The cover of a job with the job's cost: that of a test leaves out its branch word.
fn without_branch(aim: &Aim, c: JobCover) -> JobCover
    requires { c.cost ≡ cost (model_of_cover c.cover) }
    ensures choice { model_of_job_cover result ≡ model_of_job_cover c }
    ensures cost { result.cost ≡ job_cost (aim_destination aim.now) (model_of_cover c.cover) }
{
    match aim {
        Aim::Test => JobCover {
            which: c.which,
            cover: c.cover,
            cost: c.cost - 1,
        },
        Aim::Cell(_) => c,
        Aim::Store(_) => c,
        Aim::Temp => c,
    }
}

/// The first among the orderly covers of least cost of a job, where so many temporary cells are
/// used; `NoCover` exactly where no tree of the job has an orderly cover. Covers of equal cost are
/// ordered by the tree that they cover, then by the place of the form, then by the order of the
/// operands, then by their covers in that order, and then by the cuts' covers. Want of memory
/// stands also for a tree or a setting of a form past 64 bits. No cost passes them.
pub fn cover(alloc: Global, forms: &Forms, job: &Job, temps: u32) -> Result<JobCover, CoverFault>
    ensures chosen { IfOk result (λ c. IsChosen (stock_with forms.now.list.items temps forms.now.file)
        (aim_destination job.now.aim) (trees_of job.now.trees.items) (model_of_job_cover c)) }
    ensures cost { IfOk result (λ c. c.cost ≡ job_cost (aim_destination job.now.aim) (model_of_cover c.cover)) }
    ensures none { result ≡ Err CoverFault.NoCover →
        HasNoCover (stock_with forms.now.list.items temps forms.now.file) (aim_destination job.now.aim) (trees_of job.now.trees.items) }
{
    match best_of(alloc, &forms.list, job, temps, forms.file) {
        Ok(Some(c)) => Ok(without_branch(&job.aim, c)),
        Ok(None) => Err(CoverFault::NoCover),
        Err(_) => Err(CoverFault::Memory),
    }
}
