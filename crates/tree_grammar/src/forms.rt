//! What a form takes of a tree that goes to a destination.

ghost use Rattle.std.specs.Prelude.{◌≡◌, ℕ, Some, IfOk, IfSome, OnOk, List};
ghost use Rattle.std.specs.Option.{option_map};
ghost use Rattle.net_model.specs.Exprs.{ExprModel, model_of_expr};
ghost use Rattle.form_model.specs.Trees.{model_of_tree};
ghost use Rattle.form_model.specs.Forms.{model_of_form};
ghost use Rattle.form_model.specs.Matches.{address_match, both, matched, taken};
ghost use Rattle.tree_grammar.specs.Leaves.{AddressStands, AreAt, Stands, Taken, model_of_destination, model_of_match, is_whole, models_of_leaves, value_at};

use crate::parts::{Destination, Leaf, Match, Subgoal, Subtree};
use crate::shapes::{is_field_shape, setting_of, shows_all};
use crate::terms::{past, take};
use form_model::{Form, Goal, Tree};
use net_model::Expr;
use rec_bits::NoMemory;
use std::alloc::Global;

// The number of the value's tree, which comes behind a store's address.
fn value_number(destination: Destination, at: u64) -> Result<u64, NoMemory>
    ensures { IfOk result (λ n. n ≡ value_at (model_of_destination destination.entry) at) }
{
    match destination {
        Destination::Store(address) => past(at, address),
        _ => Ok(at),
    }
}

// Whether the tree is the root of its job, so that it can't be a cut.
fn is_root(destination: Destination) -> bool
    ensures { result ≡ is_whole (model_of_destination destination.entry) }
{
    match destination {
        Destination::Cell(_) => true,
        Destination::Test => true,
        _ => false,
    }
}

// What the address of a memory form takes.
fn take_address<'a>(
    parts: &mut Vec<Leaf<'a>>,
    temps: u32,
    addr: &'a Expr,
    destination: Destination<'a>,
    at: u64,
) -> Result<Option<u64>, NoMemory>
    ensures found { IfOk result (λ o. Taken (models_of_leaves parts.old.items) (models_of_leaves parts.new.items)
        (address_match temps (Some (model_of_expr addr.now)) (model_of_destination destination.entry)) o) }
    ensures at { OnOk result ((nodes : List ExprModel) → AddressStands nodes at (model_of_destination destination.entry) →
        AreAt nodes parts.old.items → AreAt nodes parts.new.items) }
{
    match destination {
        Destination::Cell(address) => {
            if !is_field_shape(addr) {
                return Ok(None);
            }
            setting_of(addr, u64::from(address))
        }
        Destination::Store(address) => take(parts, temps, addr, Subtree::inner(address, at)),
        Destination::Temp => {
            if !is_field_shape(addr) {
                return Ok(None);
            }
            if shows_all(addr, temps) {
                Ok(Some(0))
            } else {
                Ok(None)
            }
        }
        Destination::Register(_) => Ok(None),
        Destination::File => Ok(None),
        Destination::Test => Ok(None),
    }
}

// What a memory form takes.
fn take_memory<'a>(
    parts: &mut Vec<Leaf<'a>>,
    temps: u32,
    form: &'a Form,
    goal: Subgoal<'a>,
) -> Result<Option<u64>, NoMemory>
    ensures found { IfOk result (λ o. Taken (models_of_leaves parts.old.items) (models_of_leaves parts.new.items)
        (both (address_match temps (model_of_form form.now).addr (model_of_destination goal.entry.destination))
        (matched temps (model_of_form form.now).value (model_of_tree goal.entry.tree.now)
        (is_whole (model_of_destination goal.entry.destination)))) o) }
    ensures at { OnOk result ((nodes : List ExprModel) →
        Stands nodes goal.entry.at (model_of_destination goal.entry.destination) (model_of_tree goal.entry.tree.now) →
        AreAt nodes parts.old.items → AreAt nodes parts.new.items) }
{
    let Some(addr) = &form.addr else {
        return Ok(None);
    };
    let value = Subtree {
        tree: goal.tree,
        whole: is_root(goal.destination),
        at: value_number(goal.destination, goal.at)?,
    };
    let Some(x) = take_address(parts, temps, addr, goal.destination, goal.at)? else {
        return Ok(None);
    };
    let Some(y) = take(parts, temps, &form.value, value)? else {
        return Ok(None);
    };
    Ok(Some(x | y))
}

// Adds the parts that a form leaves open, and gives the bits that it settles, or none where it
// doesn't match.
fn take_form<'a>(
    parts: &mut Vec<Leaf<'a>>,
    temps: u32,
    form: &'a Form,
    goal: Subgoal<'a>,
) -> Result<Option<u64>, NoMemory>
    ensures found { IfOk result (λ o. Taken (models_of_leaves parts.old.items) (models_of_leaves parts.new.items)
        (taken temps (model_of_form form.now) (model_of_destination goal.entry.destination)
        (model_of_tree goal.entry.tree.now) goal.entry.whole) o) }
    ensures at { OnOk result ((nodes : List ExprModel) →
        Stands nodes goal.entry.at (model_of_destination goal.entry.destination) (model_of_tree goal.entry.tree.now) →
        AreAt nodes parts.old.items → AreAt nodes parts.new.items) }
{
    let Subgoal {
        destination,
        tree,
        whole,
        at,
    } = goal;
    match &form.goal {
        Goal::Reg(r) => {
            let Destination::Register(id) = destination else {
                return Ok(None);
            };
            if *r != id {
                return Ok(None);
            }
            take(parts, temps, &form.value, Subtree { tree, whole, at })
        }
        Goal::File => {
            let Destination::File = destination else {
                return Ok(None);
            };
            take(parts, temps, &form.value, Subtree { tree, whole, at })
        }
        Goal::Memory => take_memory(parts, temps, form, goal),
        Goal::Branch { .. } => {
            let Destination::Test = destination else {
                return Ok(None);
            };
            let tested = Subtree {
                tree,
                whole: true,
                at,
            };
            take(parts, temps, &form.value, tested)
        }
        Goal::Jump { .. } => Ok(None),
    }
}

/// What a form takes of a tree that goes to a destination, where so many temporary cells are used;
/// none exactly where it doesn't match. A form and a tree have one match at most. Each part carries
/// the number of its tree. Want of memory stands also for a field above bit 63 of the word, and for
/// a tree of more nodes than can be counted.
pub fn match_at<'a>(
    alloc: Global,
    form: &'a Form,
    goal: Subgoal<'a>,
    temps: u32,
) -> Result<Option<Match<'a>>, NoMemory>
    ensures found { IfOk result (λ o. option_map model_of_match o
        ≡ taken temps (model_of_form form.now) (model_of_destination goal.entry.destination)
        (model_of_tree goal.entry.tree.now) goal.entry.whole) }
    ensures at { IfOk result (λ o. IfSome o (λ m. (nodes : List ExprModel) →
        Stands nodes goal.entry.at (model_of_destination goal.entry.destination) (model_of_tree goal.entry.tree.now) →
        AreAt nodes m.parts.items)) }
{
    let mut parts = Vec::new(alloc);
    match take_form(&mut parts, temps, form, goal)? {
        Some(setting) => Ok(Some(Match { setting, parts })),
        None => Ok(None),
    }
}
