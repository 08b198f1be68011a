//! What is lacking of a job.

ghost use Rattle.std.specs.Prelude.{◌≡◌, ◌<◌, ℕ, [], Some, IfOk, OnOk, length, slice_get, vec_len};
ghost use Rattle.net_model.specs.Exprs.{ExprModel};
ghost use Rattle.form_model.specs.Trees.{model_of_tree};
ghost use Rattle.form_model.specs.Forms.{aim_destination};
ghost use Rattle.form_model.specs.Covers.{stock_with};
ghost use Rattle.tree_grammar.specs.Leaves.{model_of_destination};
ghost use Rattle.tree_sharing.specs.Sharing.{job_nodes, exprs_at};
ghost use Rattle.cover.specs.Jobs.{trees_of};
ghost use Rattle.cover_lacks.specs.Lacks.{AreLacking, IsUncovered, all_nodes};
ghost use Rattle.cover_lacks.specs.Inner.Flags.{IsLackingIn};
ghost use Rattle.cover_lacks.specs.Inner.Listed.{AddsRoot, AreAdded};

use crate::asks::Search;
use crate::flags::lacking_flags;
use crate::listed::in_order;
use form_model::{Forms, Job, Tree};
use least_costs::{least_cost, made_parts};
use rec_bits::NoMemory;
use std::alloc::Global;
use tree_grammar::Destination;
use tree_sharing::numbered;

// For the number of each subtree of a job's tree whether it is lacking, where the tree has no
// cover.
fn flags_of(
    alloc: Global,
    forms: &Forms,
    temps: u32,
    destination: Destination,
    tree: &Tree,
    nodes: &[&Tree],
) -> Result<Vec<bool>, NoMemory>
    requires { exprs_at nodes.now ≡ job_nodes (model_of_destination destination) (model_of_tree tree.now) }
    ensures { IfOk result (λ flags. IsLackingIn (stock_with forms.now.list.items temps forms.now.file)
        (model_of_destination destination.entry) (model_of_tree tree.now) flags.items) }
{
    if least_cost(alloc, forms, destination, tree, true, temps)?.is_some() {
        return Ok(vec![in alloc; false; nodes.len()]?);
    }
    let made = made_parts(alloc, forms, destination, tree, temps)?;
    let search = Search {
        forms: &forms.list,
        temps,
        file: forms.file,
        destination,
        tree,
        nodes,
        made: &made,
    };
    lacking_flags(alloc, &search)
}

// The subtrees of a job's trees, and for each whether it is lacking.
#[derive(Drop)]
struct Flagged<'a> {
    nodes: Vec<&'a Tree>,
    flags: Vec<bool>,
}

// Adds the subtrees of a job's tree, with their flags.
fn add_root<'a>(
    alloc: Global,
    forms: &Forms,
    temps: u32,
    destination: Destination<'a>,
    tree: &'a Tree,
    list: &mut Flagged<'a>,
) -> Result<(), NoMemory>
    ensures { OnOk result (AddsRoot (stock_with forms.now.list.items temps forms.now.file) (model_of_destination destination.entry)
        (model_of_tree tree.now) list.old.nodes.items list.new.nodes.items list.old.flags.items list.new.flags.items) }
{
    let subtrees = numbered(alloc, destination, tree)?;
    let lacking = flags_of(alloc, forms, temps, destination, tree, &subtrees)?;
    list.nodes.extend_from_slice(&subtrees)?;
    list.flags.extend_from_slice(&lacking)?;
    Ok(())
}

// The same of all trees of the job.
fn add_roots<'a>(
    alloc: Global,
    forms: &Forms,
    job: &'a Job,
    temps: u32,
    list: &mut Flagged<'a>,
) -> Result<(), NoMemory>
    requires nodes { list.old.nodes.items ≡ [] }
    requires flags { list.old.flags.items ≡ [] }
    ensures nodes { OnOk result (exprs_at list.new.nodes.items
        ≡ all_nodes (aim_destination job.now.aim) (trees_of job.now.trees.items)) }
    ensures added { OnOk result (AreAdded (stock_with forms.now.list.items temps forms.now.file) (aim_destination job.now.aim)
        (trees_of job.now.trees.items) (length job.now.trees.items) (exprs_at list.new.nodes.items) list.new.flags.items) }
{
    for j in 0..job.trees.len() {
        let destination = Destination::of(&job.aim);
        add_root(alloc, forms, temps, destination, &job.trees[j], list)?;
    }
    Ok(())
}

/// The subtrees that are lacking of a job without a cover, where so many temporary cells are used:
/// those that come into no register and no temporary cell, though all does that forms ask of them;
/// and a tree of the job itself, where all does that forms ask of it and it still has no cover.
/// They are looked for from the root down, through what is asked for and isn't made. Each is named
/// once, in the order of their first places, those of a store's address first. A tree that has no
/// cover lacks something. Want of memory stands for what it does in `cover`.
pub fn lacking<'a>(
    alloc: Global,
    forms: &Forms,
    job: &'a Job,
    temps: u32,
) -> Result<Vec<&'a Tree>, NoMemory>
    ensures list { IfOk result (λ list. AreLacking (stock_with forms.now.list.items temps forms.now.file)
        (aim_destination job.now.aim) (trees_of job.now.trees.items) (exprs_at list.items)) }
    ensures some { IfOk result (λ list. (which : ℕ) (root : ExprModel) →
        slice_get (trees_of job.now.trees.items) which ≡ Some root →
        IsUncovered (stock_with forms.now.list.items temps forms.now.file) (aim_destination job.now.aim) root →
        0 < vec_len list) }
{
    let mut list = Flagged {
        nodes: Vec::new(alloc),
        flags: Vec::new(alloc),
    };
    add_roots(alloc, forms, job, temps, &mut list)?;
    in_order(alloc, &list.nodes, &list.flags)
}
