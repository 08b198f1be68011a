//! The trees that forms ask for and nothing makes, by their numbers.

ghost use Rattle.std.specs.Prelude.{◌≡◌, ◌<◌, Some, IfOk, OnOk, length, slice_get};
ghost use Rattle.std.specs.Bool.{OnTrue, OnFalse};
ghost use Rattle.form_model.specs.Trees.{model_of_tree};
ghost use Rattle.tree_grammar.specs.Leaves.{AreAt, IsPartAt, model_of_destination};
ghost use Rattle.cover_lacks.specs.Lacks.{PartAsks, RootAsks};
ghost use Rattle.cover_lacks.specs.Inner.Asked.{AddsAsked, AddsOfPart, AddsParts, AddsTree, AreAfter, AreUnmade, FirstAsk, IsBelow, IsSearch, LookStands, part_at, part_tree, search_nodes, search_stock};

use form_model::{Form, Tree};
use least_costs::part_destination;
use rec_bits::NoMemory;
use std::alloc::Global;
use tree_grammar::{Destination, Leaf, Subgoal, match_at, tree_size};

/// A tree of a job, and by what it is to be covered.
#[derive(Clone, Copy)]
pub struct Search<'a> {
    pub forms: &'a [Form],
    pub temps: u32,
    pub file: u32,
    pub destination: Destination<'a>,
    pub tree: &'a Tree,
    /// The subtrees in the order of their numbers.
    pub nodes: &'a [&'a Tree],
    /// For each number whether the subtree is made.
    pub made: &'a [bool],
}

/// What a form is asked of, and which of the trees that it asks for count.
#[derive(Clone, Copy)]
pub struct Look<'a> {
    pub goal: Subgoal<'a>,
    /// Only trees with fewer nodes count, where this is some.
    pub below: Option<u64>,
}

// Whether the tree counts.
fn is_below(tree: &Tree, below: Option<u64>) -> Result<bool, NoMemory>
    ensures yes { IfOk result (λ yes. OnTrue yes (IsBelow below (model_of_tree tree.now))) }
    ensures no { IfOk result (λ yes. OnFalse yes (IsBelow below (model_of_tree tree.now) → ⊥)) }
{
    match below {
        None => Ok(true),
        Some(n) => Ok(tree_size(tree)? < n),
    }
}

// Adds the number of a tree that counts, if nothing makes it.
fn add_tree(
    search: &Search,
    below: Option<u64>,
    tree: &Tree,
    at: u64,
    numbers: &mut Vec<u64>,
) -> Result<(), NoMemory>
    requires right { IsSearch search.now }
    requires here { slice_get (search_nodes search.now) at ≡ Some (model_of_tree tree.now) }
    ensures { OnOk result (AddsTree (search_stock search.now) below (model_of_tree tree.now) at
        numbers.old.items numbers.new.items) }
{
    if search.made[at as usize] {
        return Ok(());
    }
    if is_below(tree, below)? {
        numbers.push(at)?;
    }
    Ok(())
}

// The same of a part's tree.
fn add_part(
    search: &Search,
    below: Option<u64>,
    part: Leaf,
    numbers: &mut Vec<u64>,
) -> Result<(), NoMemory>
    requires right { IsSearch search.now }
    requires here { IsPartAt (search_nodes search.now) part }
    ensures { OnOk result (AddsTree (search_stock search.now) below (part_tree part.entry) (part_at part.entry)
        numbers.old.items numbers.new.items) }
{
    match part {
        Leaf::Operand { tree, at, .. } => add_tree(search, below, tree, at, numbers),
        Leaf::Cut { tree, at, .. } => add_tree(search, below, tree, at, numbers),
    }
}

// The same of the parts of a match.
fn add_parts(
    search: &Search,
    below: Option<u64>,
    parts: &[Leaf],
    numbers: &mut Vec<u64>,
) -> Result<(), NoMemory>
    requires right { IsSearch search.now }
    requires at { AreAt (search_nodes search.now) parts.now }
    ensures { OnOk result (AddsParts (search_stock search.now) below parts.now (length parts.now)
        numbers.old.items numbers.new.items) }
{
    for part in parts {
        add_part(search, below, *part, numbers)?;
    }
    Ok(())
}

// Adds the numbers of what the form at `k` asks for and nothing makes.
fn add_asked<'a>(
    alloc: Global,
    search: &Search<'a>,
    look: &Look<'a>,
    k: usize,
    numbers: &mut Vec<u64>,
) -> Result<(), NoMemory>
    requires form { k < length search.now.forms.now }
    requires right { IsSearch search.now }
    requires stands { LookStands (search_nodes search.now) look.now }
    ensures { OnOk result (AddsAsked (search_stock search.now) (search_nodes search.now) look.now k
        numbers.old.items numbers.new.items) }
{
    let Some(found) = match_at(alloc, &search.forms[k], look.goal, search.temps)? else {
        return Ok(());
    };
    add_parts(search, look.below, &found.parts, numbers)
}

// The numbers of the trees that forms ask for of the job's tree and nothing makes.
pub(crate) fn unmade_of_root(alloc: Global, search: &Search) -> Result<Vec<u64>, NoMemory>
    requires right { IsSearch search.now }
    ensures { IfOk result (λ numbers. AreUnmade (search_stock search.now) (search_nodes search.now)
        (FirstAsk (RootAsks (search_stock search.now) (model_of_destination search.now.destination)
        (model_of_tree search.now.tree.now)) (length search.now.forms.now)) numbers.items) }
{
    let look = Look {
        goal: Subgoal {
            destination: search.destination,
            tree: search.tree,
            whole: true,
            at: 0,
        },
        below: None,
    };
    let mut numbers = Vec::new(alloc);
    for k in 0..search.forms.len() {
        add_asked(alloc, search, &look, k, &mut numbers)?;
    }
    Ok(numbers)
}

// Adds the numbers of what the form at `k` asks for of the part of number `at` and nothing makes.
fn add_of_part(
    alloc: Global,
    search: &Search,
    part: &Tree,
    at: u64,
    k: usize,
    numbers: &mut Vec<u64>,
) -> Result<(), NoMemory>
    requires form { k < length search.now.forms.now }
    requires right { IsSearch search.now }
    requires here { slice_get (search_nodes search.now) at ≡ Some (model_of_tree part.now) }
    ensures { OnOk result (AddsOfPart (search_stock search.now) (search_nodes search.now) (model_of_tree part.now) at k
        numbers.old.items numbers.new.items) }
{
    let Some(destination) = part_destination(&search.forms[k]) else {
        return Ok(());
    };
    let look = Look {
        goal: Subgoal {
            destination,
            tree: part,
            whole: false,
            at,
        },
        below: Some(tree_size(part)?),
    };
    add_asked(alloc, search, &look, k, numbers)
}

// The numbers of the trees that forms ask for of the part of number `at` and nothing makes.
pub(crate) fn unmade_of_part(
    alloc: Global,
    search: &Search,
    part: &Tree,
    at: u64,
) -> Result<Vec<u64>, NoMemory>
    requires right { IsSearch search.now }
    requires here { slice_get (search_nodes search.now) at ≡ Some (model_of_tree part.now) }
    ensures unmade { IfOk result (λ numbers. AreUnmade (search_stock search.now) (search_nodes search.now)
        (FirstAsk (PartAsks (search_stock search.now) (model_of_tree part.now)) (length search.now.forms.now))
        numbers.items) }
    ensures after { IfOk result (λ numbers. AreAfter at numbers.items) }
{
    let mut numbers = Vec::new(alloc);
    for k in 0..search.forms.len() {
        add_of_part(alloc, search, part, at, k, &mut numbers)?;
    }
    Ok(numbers)
}
