//! Expressions of a program as formulas.

ghost use Rattle.std.specs.Prelude.{◌≡◌, List, IfOk};
ghost use Rattle.src_model.specs.Written.{model_of_src_node, spot_node, model_of_spot, model_of_src_test};
ghost use Rattle.src_model.specs.Meaning.{holds};
ghost use Rattle.src_model.specs.Fitting.{Fitting, FitsSides};
ghost use Rattle.rec_bits.specs.Operators.{IsWidth};
ghost use Rattle.src_eval.specs.Inner.Resolved.{Resolves, ResolvesIndex, ResolvesTest};

use crate::formula::{Comparison, Formula};
use crate::table::Scope;
use rec_bits::NoMemory;
use src_model::{Spot, SrcExpr, SrcNode, SrcTest, operand_width, width_of};
use std::alloc::Global;

/// The formula of an expression. A literal in it has the width `asked`.
#[cycle(resolve)]
pub fn resolve(
    alloc: Global,
    scope: &Scope<'_>,
    asked: u8,
    e: &SrcExpr,
) -> Result<Formula, NoMemory>
    requires word { IsWidth scope.now.word }
    requires asked { IsWidth asked }
    requires fitting { Fitting scope.now.word asked (model_of_src_node e.now.node) }
    ensures { IfOk result (Resolves scope.now.word scope.now.table asked (model_of_src_node e.now.node)) }
{
    match &e.node {
        SrcNode::Num(n) => Ok(Formula::Number(*n)),
        SrcNode::Var(spot) => read(alloc, scope, asked, spot),
        SrcNode::Un(op, x) => {
            let width = width_of(scope.word, asked, x);
            let operand = operand(alloc, scope, asked, x)?;
            Ok(Formula::Un(*op, width, operand))
        }
        SrcNode::Bin(op, x, y) => {
            let width = operand_width(scope.word, x, y);
            let left = operand(alloc, scope, width, x)?;
            let right = operand(alloc, scope, width, y)?;
            Ok(Formula::Bin(*op, width, left, right))
        }
        SrcNode::Zext(x, _) => resolve(alloc, scope, scope.word, x),
        SrcNode::Sext(x, to) => {
            let from = width_of(scope.word, scope.word, x);
            let operand = operand(alloc, scope, scope.word, x)?;
            Ok(Formula::Sext(from, *to as u8, operand))
        }
        SrcNode::Low(x, width) => {
            let operand = operand(alloc, scope, scope.word, x)?;
            Ok(Formula::Low(*width as u8, operand))
        }
    }
}

// The same in a box, for an operator or an index.
#[cycle(resolve)]
fn operand(
    alloc: Global,
    scope: &Scope<'_>,
    asked: u8,
    e: &SrcExpr,
) -> Result<Box<Formula>, NoMemory>
    requires word { IsWidth scope.now.word }
    requires asked { IsWidth asked }
    requires fitting { Fitting scope.now.word asked (model_of_src_node e.now.node) }
    ensures { IfOk result (λ made. Resolves scope.now.word scope.now.table asked (model_of_src_node e.now.node) made.value) }
{
    let formula = resolve(alloc, scope, asked, e)?;
    let made = Box::new(alloc, formula)?;
    Ok(made)
}

// What a place holds.
#[cycle(resolve)]
fn read(alloc: Global, scope: &Scope<'_>, asked: u8, spot: &Spot) -> Result<Formula, NoMemory>
    requires word { IsWidth scope.now.word }
    requires fitting { Fitting scope.now.word scope.now.word (spot_node spot.now) }
    ensures { IfOk result (Resolves scope.now.word scope.now.table asked (spot_node spot.now)) }
{
    let first = scope.table.first_cell(&spot.name);
    match &spot.index {
        None => Ok(Formula::Cell(first)),
        Some(x) => {
            let index = operand(alloc, scope, scope.word, x)?;
            Ok(Formula::Element(first, index))
        }
    }
}

/// The index of a place; that of a plain variable is 0.
pub fn resolve_index(alloc: Global, scope: &Scope<'_>, spot: &Spot) -> Result<Formula, NoMemory>
    requires word { IsWidth scope.now.word }
    requires fitting { Fitting scope.now.word scope.now.word (spot_node spot.now) }
    ensures { IfOk result (ResolvesIndex scope.now.word scope.now.table (model_of_spot spot.now).index) }
{
    match &spot.index {
        None => Ok(Formula::Number(0)),
        Some(x) => {
            let index = resolve(alloc, scope, scope.word, x)?;
            Ok(index)
        }
    }
}

/// A test with formulas for its sides.
pub fn resolve_test(
    alloc: Global,
    scope: &Scope<'_>,
    test: &SrcTest,
) -> Result<Comparison, NoMemory>
    requires word { IsWidth scope.now.word }
    requires fitting { FitsSides scope.now.word (model_of_src_node test.now.left.node) (model_of_src_node test.now.right.node) }
    ensures { IfOk result (ResolvesTest scope.now.word scope.now.table (model_of_src_test test.now)) }
{
    let width = operand_width(scope.word, &test.left, &test.right);
    let left = resolve(alloc, scope, width, &test.left)?;
    let right = resolve(alloc, scope, width, &test.right)?;
    Ok(Comparison {
        cmp: test.cmp,
        width,
        left,
        right,
    })
}
