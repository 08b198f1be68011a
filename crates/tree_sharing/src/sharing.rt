//! Which of the numbered subtrees are equal.

ghost use Rattle.std.specs.Prelude.{◌≡◌, ◌+◌, ◌≤◌, ◌<◌, IfOk, OnOk, List, [], slice_index_or, vec_len};
ghost use Rattle.net_model.specs.Exprs.{ExprModel, size_of};
ghost use Rattle.form_model.specs.Trees.{model_of_tree};
ghost use Rattle.tree_sharing.specs.Sharing.{AreFirstEqual, job_nodes};
ghost use Rattle.tree_grammar.specs.Leaves.{AddressStands, model_of_destination, value_at};
ghost use Rattle.tree_sharing.specs.Inner.Sharing.{AreDoneBelow, AreFirstOperands, HaveNumbers, IsRootOf, MeetsFirst, OperandShared, Rooted, Shared, first_of, operand_size, operand_expr, second_of};

use form_model::Tree;
use indexmap::IndexMap;
use rec_bits::{NoMemory, Op1, Op2};
use std::alloc::Global;
use tree_grammar::{Destination, tree_size};

/// The root of a subtree, with the number of the first subtree that equals each operand. Equal
/// subtrees have one root.
#[derive(Clone, Copy, PartialEq, Eq, Hash)]
pub enum Root {
    Lit { width: u8, value: u64 },
    Read(u64, u8),
    Un(Op1, u64),
    Bin(Op2, u64, u64),
    Slice(u64, u8, u8),
    Zext(u64, u8),
    Sext(u64, u8),
}

/// What is known of equal subtrees.
#[derive(Drop)]
pub struct Sharing {
    /// For each number that of the first equal subtree, and 0 where it isn't known yet.
    pub firsts: Vec<u64>,
    /// The number of the first subtree with a root.
    pub roots: IndexMap<Root, u64>,
}

// The number of the first subtree that equals a subtree, and the number behind the subtree.
#[derive(Clone, Copy)]
struct Numbered {
    first: u64,
    next: u64,
}

// The number of the first subtree with the root, which is `at` where none was met.
fn meet(roots: &mut IndexMap<Root, u64>, root: Root, at: u64) -> Result<u64, NoMemory>
    ensures { IfOk result (λ first. MeetsFirst roots.old.entries roots.new.entries at root first) }
{
    if let Some(known) = roots.get(&root) {
        return Ok(*known);
    }
    roots.insert(root, at)?;
    Ok(at)
}

// The number of the first subtree with the root of the subtree of number `at`.
fn first_with(sharing: &mut Sharing, root: Root, at: u64) -> Result<u64, NoMemory>
    requires { at < vec_len sharing.old.firsts }
    ensures len { vec_len sharing.new.firsts ≡ vec_len sharing.old.firsts }
    ensures first { IfOk result (λ first. Rooted sharing.old sharing.new at root first) }
{
    let first = meet(&mut sharing.roots, root, at)?;
    sharing.firsts[at as usize] = first;
    Ok(first)
}

// The root of a tree whose operands have these first numbers; the second is for an operator of two
// operands alone.
fn root_of(tree: &Tree, first: u64, second: u64) -> Root
    ensures { (nodes : List ExprModel) → AreFirstOperands nodes (model_of_tree tree.now) first second →
        IsRootOf nodes result (model_of_tree tree.now) }
{
    match tree {
        Tree::Lit { width, value } => Root::Lit {
            width: *width,
            value: *value,
        },
        Tree::Read(_, w) => Root::Read(first, *w),
        Tree::Un(op, _) => Root::Un(*op, first),
        Tree::Bin(op, _, _) => Root::Bin(*op, first, second),
        Tree::Slice(_, hi, lo) => Root::Slice(first, *hi, *lo),
        Tree::Zext(_, w) => Root::Zext(first, *w),
        Tree::Sext(_, w) => Root::Sext(first, *w),
    }
}

pub(crate) fn first_operand(tree: &Tree) -> Option<&Tree>
    ensures { operand_expr result ≡ first_of (model_of_tree tree.now) }
{
    match tree {
        Tree::Lit { .. } => None,
        Tree::Read(a, _) => Some(a),
        Tree::Un(_, a) => Some(a),
        Tree::Bin(_, a, _) => Some(a),
        Tree::Slice(a, _, _) => Some(a),
        Tree::Zext(a, _) => Some(a),
        Tree::Sext(a, _) => Some(a),
    }
}

pub(crate) fn second_operand(tree: &Tree) -> Option<&Tree>
    ensures { operand_expr result ≡ second_of (model_of_tree tree.now) }
{
    match tree {
        Tree::Bin(_, _, b) => Some(b),
        _ => None,
    }
}

// Finds the equal ones among a tree's subtrees, which have their numbers from `at` on, and those
// before them.
#[cycle(sharing)]
fn share(sharing: &mut Sharing, tree: &Tree, at: u64) -> Result<Numbered, NoMemory>
    requires { at + size_of (model_of_tree tree.now) ≤ vec_len sharing.old.firsts }
    ensures len { vec_len sharing.new.firsts ≡ vec_len sharing.old.firsts }
    ensures next { IfOk result (λ n. n.next ≡ at + size_of (model_of_tree tree.now)) }
    ensures shared { IfOk result (λ n. Shared sharing.old sharing.new at (model_of_tree tree.now) n.first) }
{
    let x = share_operand(sharing, first_operand(tree), at + 1)?;
    let y = share_operand(sharing, second_operand(tree), x.next)?;
    let first = first_with(sharing, root_of(tree, x.first, y.first), at)?;
    Ok(Numbered {
        first,
        next: y.next,
    })
}

// The same of an operand, where there is one.
#[cycle(sharing)]
fn share_operand(
    sharing: &mut Sharing,
    operand: Option<&Tree>,
    at: u64,
) -> Result<Numbered, NoMemory>
    requires { at + operand_size (operand_expr operand) ≤ vec_len sharing.old.firsts }
    ensures len { vec_len sharing.new.firsts ≡ vec_len sharing.old.firsts }
    ensures next { IfOk result (λ n. n.next ≡ at + operand_size (operand_expr operand.entry)) }
    ensures shared { IfOk result (λ n. OperandShared sharing.old sharing.new at (operand_expr operand.entry) n.first) }
{
    match operand {
        Some(tree) => share(sharing, tree, at),
        None => Ok(Numbered {
            first: at,
            next: at,
        }),
    }
}

// How many nodes the address of a store has.
fn address_size(destination: Destination) -> Result<u64, NoMemory>
    ensures { IfOk result (λ n. n ≡ value_at (model_of_destination destination.entry) 0) }
{
    match destination {
        Destination::Store(address) => tree_size(address),
        _ => Ok(0),
    }
}

// Finds the equal ones among the subtrees of a store's address.
fn share_address(sharing: &mut Sharing, destination: Destination) -> Result<(), NoMemory>
    requires { value_at (model_of_destination destination) 0 ≤ vec_len sharing.old.firsts }
    ensures len { vec_len sharing.new.firsts ≡ vec_len sharing.old.firsts }
    ensures done { OnOk result ((nodes : List ExprModel) → AddressStands nodes 0 (model_of_destination destination.entry) →
        HaveNumbers nodes sharing.old.roots.entries →
        AreDoneBelow nodes sharing.new (value_at (model_of_destination destination.entry) 0)) }
{
    match destination {
        Destination::Store(address) => {
            share(sharing, address, 0)?;
            Ok(())
        }
        _ => Ok(()),
    }
}

// Finds the equal ones among all subtrees, of which those of the tree have their numbers from `at`
// on.
fn share_all(
    sharing: &mut Sharing,
    destination: Destination,
    tree: &Tree,
    at: u64,
) -> Result<(), NoMemory>
    requires at { at ≡ value_at (model_of_destination destination) 0 }
    requires len { vec_len sharing.old.firsts ≡ at + size_of (model_of_tree tree.now) }
    requires none { sharing.old.roots.entries ≡ [] }
    ensures { OnOk result (AreFirstEqual (job_nodes (model_of_destination destination.entry) (model_of_tree tree.now))
        sharing.new.firsts.items) }
{
    share_address(sharing, destination)?;
    share(sharing, tree, at)?;
    Ok(())
}

/// For the number of each subtree, of a store's address and then of the tree, the least number of
/// an equal one.
pub fn first_numbers(
    alloc: Global,
    destination: Destination,
    tree: &Tree,
) -> Result<Vec<u64>, NoMemory>
    ensures { IfOk result (λ firsts.
        AreFirstEqual (job_nodes (model_of_destination destination.entry) (model_of_tree tree.now)) firsts.items) }
{
    let at = address_size(destination)?;
    let count = at.checked_add(tree_size(tree)?).ok_or(NoMemory)?;
    let mut sharing = Sharing {
        firsts: vec![in alloc; 0; count as usize]?,
        roots: IndexMap::new(alloc),
    };
    share_all(&mut sharing, destination, tree, at)?;
    Ok(sharing.firsts)
}

/// The least number of a subtree that equals the one of this number; a number past the list is its
/// own.
pub fn first_equal(firsts: &[u64], number: u64) -> u64
    ensures { result ≡ slice_index_or firsts.now number number }
{
    firsts.get(number as usize).copied().unwrap_or(number)
}
