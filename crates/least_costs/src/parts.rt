//! Operands and cuts among a match's parts, and where it goes on from.

ghost use Rattle.std.specs.Prelude.{◌≡◌, [], ◌∷◌, ◌<◌, IfOk, OnOk, IfSome, length, remove, List};
ghost use Rattle.net_model.specs.Exprs.{ExprModel};
ghost use Rattle.form_model.specs.Covers.{operands_of, cuts_of};
ghost use Rattle.tree_grammar.specs.Leaves.{model_of_leaf, models_of_leaves, AreAt};
ghost use Rattle.least_costs.specs.Searches.{open_operands, open_cuts, EachOperandAt, EachCutAt, HasOperand, HasCut};
ghost use Rattle.least_costs.specs.Matched.{rest_at, AreLowLeaves};
ghost use Rattle.least_costs.specs.Slots.{IsEntry};

use crate::opened::{OpenCut, OpenOperand};
use crate::slots::{Slot, slot_of};
use rec_bits::NoMemory;
use std::alloc::Global;
use tree_grammar::Leaf;

// The operands among the parts, from left to right.
pub(crate) fn operands_in<'a>(
    alloc: Global,
    parts: &[Leaf<'a>],
) -> Result<Vec<OpenOperand<'a>>, NoMemory>
    requires low { AreLowLeaves (models_of_leaves parts.now) }
    ensures operands { IfOk result (λ v. open_operands v.items ≡ operands_of (models_of_leaves parts.now)) }
    ensures at { IfOk result (λ v. (nodes : List ExprModel) → AreAt nodes parts.now → EachOperandAt nodes v.items) }
{
    let mut out = Vec::new(alloc);
    for part in parts {
        put_operand(&mut out, *part)?;
    }
    Ok(out)
}

fn put_operand<'a>(out: &mut Vec<OpenOperand<'a>>, part: Leaf<'a>) -> Result<(), NoMemory>
    requires { AreLowLeaves (model_of_leaf part ∷ []) }
    ensures { OnOk result (HasOperand part.entry out.old.items out.new.items) }
{
    match part {
        Leaf::Operand {
            home,
            tree,
            whole,
            at,
        } => {
            out.push(OpenOperand {
                home,
                tree,
                whole,
                at,
            })?;
            Ok(())
        }
        Leaf::Cut { .. } => Ok(()),
    }
}

// The cuts among the parts, from left to right.
pub(crate) fn cuts_in<'a>(alloc: Global, parts: &[Leaf<'a>]) -> Result<Vec<OpenCut<'a>>, NoMemory>
    ensures cuts { IfOk result (λ v. open_cuts v.items ≡ cuts_of (models_of_leaves parts.now)) }
    ensures at { IfOk result (λ v. (nodes : List ExprModel) → AreAt nodes parts.now → EachCutAt nodes v.items) }
{
    let mut out = Vec::new(alloc);
    for part in parts {
        put_cut(&mut out, *part)?;
    }
    Ok(out)
}

fn put_cut<'a>(out: &mut Vec<OpenCut<'a>>, part: Leaf<'a>) -> Result<(), NoMemory>
    ensures { OnOk result (HasCut part.entry out.old.items out.new.items) }
{
    match part {
        Leaf::Operand { .. } => Ok(()),
        Leaf::Cut { tree, at, .. } => {
            out.push(OpenCut { tree, at })?;
            Ok(())
        }
    }
}

/// The operands without the one at `i`.
pub fn without<'a>(
    alloc: Global,
    ops: &[OpenOperand<'a>],
    i: usize,
) -> Result<Vec<OpenOperand<'a>>, NoMemory>
    requires { i < length ops.now }
    ensures { IfOk result (λ rest. rest.items ≡ remove ops.now i) }
{
    let mut rest = Vec::new(alloc);
    rest.extend_from_slice(&ops[..i])?;
    rest.extend_from_slice(&ops[i + 1..])?;
    Ok(rest)
}

// The entry of the same tree's row from which a match goes on where all is free, if
// its one part is the whole tree, which alone has the tree's number.
pub(crate) fn rest_of(parts: &[Leaf], number: u64) -> Option<Slot>
    requires low { AreLowLeaves (models_of_leaves parts.now) }
    ensures is { result ≡ rest_at number parts.now }
    ensures register { IfSome result IsEntry }
{
    if parts.len() != 1 {
        return None;
    }
    rest_of_one(parts[0], number)
}

fn rest_of_one(part: Leaf, number: u64) -> Option<Slot>
    requires low { AreLowLeaves (model_of_leaf part ∷ []) }
    ensures is { result ≡ rest_at number (part.entry ∷ []) }
    ensures register { IfSome result IsEntry }
{
    match part {
        Leaf::Operand { home, at, .. } => {
            if at != number {
                return None;
            }
            Some(slot_of(home))
        }
        Leaf::Cut { at, .. } => {
            if at != number {
                return None;
            }
            Some(Slot::Temporary)
        }
    }
}
