//! Which subtrees of a job's tree are missed, and which are lacking.

ghost use Rattle.std.specs.Prelude.{◌≡◌, ◌+◌, ◌<◌, ℕ, Some, IfOk, OnOk, length, slice_get};
ghost use Rattle.form_model.specs.Trees.{model_of_tree};
ghost use Rattle.tree_grammar.specs.Leaves.{model_of_destination};
ghost use Rattle.cover_lacks.specs.Lacks.{IsLacking};
ghost use Rattle.cover_lacks.specs.Inner.Asked.{IsSearch, search_nodes, search_stock};
ghost use Rattle.cover_lacks.specs.Inner.Flags.{AreClear, AreFlags, IsSome, IsVisited, Marked};

use crate::asks::{Search, unmade_of_part, unmade_of_root};
use rec_bits::NoMemory;
use std::alloc::Global;
use tree_grammar::tree_size;

/// For the number of each subtree whether it is missed, and whether it is lacking.
#[derive(Drop)]
pub struct Flags {
    pub missed: Vec<bool>,
    pub lacking: Vec<bool>,
}

// Sets the flags of the numbers.
fn mark(flags: &mut Vec<bool>, numbers: &[u64])
    requires within { (i m : ℕ) → slice_get numbers.now i ≡ Some m → m < length flags.old.items }
    ensures { Marked flags.old.items flags.new.items numbers.now (length numbers.now) }
{
    for number in numbers {
        flags[*number as usize] = true;
    }
}

// The number of the job's tree, which comes behind a store's address.
fn root_number(search: &Search) -> Result<usize, NoMemory>
    requires { IsSearch search.now }
    ensures { IfOk result (λ n. slice_get (search_nodes search.now) n ≡ Some (model_of_tree search.now.tree.now)) }
{
    let size = tree_size(search.tree)?;
    Ok(search.nodes.len() - size as usize)
}

// Flags what forms ask for of the job's tree and nothing makes, or the tree itself.
fn visit_root(alloc: Global, search: &Search, flags: &mut Flags) -> Result<(), NoMemory>
    requires right { IsSearch search.now }
    requires clear { AreClear (search_nodes search.now) flags.old.missed.items flags.old.lacking.items }
    ensures { OnOk result (IsVisited (search_stock search.now) (model_of_destination search.now.destination)
        (model_of_tree search.now.tree.now) 0 flags.new.missed.items flags.new.lacking.items) }
{
    let numbers = unmade_of_root(alloc, search)?;
    if !numbers.is_empty() {
        mark(&mut flags.missed, &numbers);
        return Ok(());
    }
    let root = root_number(search)?;
    flags.lacking[root] = true;
    Ok(())
}

// The same of the part of number `at`, if it is missed.
fn visit_part(alloc: Global, search: &Search, at: usize, flags: &mut Flags) -> Result<(), NoMemory>
    requires right { IsSearch search.now }
    requires at { at < length (search_nodes search.now) }
    requires visited { IsVisited (search_stock search.now) (model_of_destination search.now.destination)
        (model_of_tree search.now.tree.now) at flags.old.missed.items flags.old.lacking.items }
    ensures { OnOk result (IsVisited (search_stock search.now) (model_of_destination search.now.destination)
        (model_of_tree search.now.tree.now) (at + 1) flags.new.missed.items flags.new.lacking.items) }
{
    if !flags.missed[at] {
        return Ok(());
    }
    let numbers = unmade_of_part(alloc, search, search.nodes[at], at as u64)?;
    if !numbers.is_empty() {
        mark(&mut flags.missed, &numbers);
        return Ok(());
    }
    flags.lacking[at] = true;
    Ok(())
}

// Flags all that is missed and lacking.
fn visit_all(alloc: Global, search: &Search, flags: &mut Flags) -> Result<(), NoMemory>
    requires right { IsSearch search.now }
    requires clear { AreClear (search_nodes search.now) flags.old.missed.items flags.old.lacking.items }
    ensures { OnOk result (IsVisited (search_stock search.now) (model_of_destination search.now.destination)
        (model_of_tree search.now.tree.now) (length (search_nodes search.now))
        flags.new.missed.items flags.new.lacking.items) }
{
    visit_root(alloc, search, flags)?;
    for at in 0..search.nodes.len() {
        visit_part(alloc, search, at, flags)?;
    }
    Ok(())
}

// For the number of each subtree whether it is lacking.
pub(crate) fn lacking_flags(alloc: Global, search: &Search) -> Result<Vec<bool>, NoMemory>
    requires { IsSearch search.now }
    ensures flags { IfOk result (λ flags. AreFlags (search_nodes search.now) (IsLacking (search_stock search.now)
        (model_of_destination search.now.destination) (model_of_tree search.now.tree.now)) flags.items) }
    ensures some { IfOk result (λ flags. IsSome (search_nodes search.now) flags.items) }
{
    let count = search.nodes.len();
    let mut flags = Flags {
        missed: vec![in alloc; false; count]?,
        lacking: vec![in alloc; false; count]?,
    };
    visit_all(alloc, search, &mut flags)?;
    Ok(flags.lacking)
}
