//! The trees of expressions.

ghost use Rattle.std.specs.Prelude.{◌≡◌, Ok, IfOk};
ghost use Rattle.net_model.specs.declared.hardware.Space.TheVariants.{Memory as InMemory};
ghost use Rattle.net_model.specs.Exprs.{read, bin};
ghost use Rattle.src_model.specs.Written.{model_of_src_node, spot_node};
ghost use Rattle.src_model.specs.Fitting.{Fitting};
ghost use Rattle.form_model.specs.Trees.{model_of_tree};
ghost use Rattle.src_trees.specs.Lowered.{narrowed, computed_address, tree_of};
ghost use Rattle.src_trees.specs.Inner.Near.{IsNear};
ghost use Rattle.rec_bits.specs.Operators.{IsWidth};

use crate::memory::DataMemory;
use form_model::Tree;
use rec_bits::{Name, NoMemory, Op2};
use src_model::{Spot, SrcExpr, SrcNode, number_of, operand_width};
use std::alloc::Global;

/// The value beside what was made behind it. The value is let go here where nothing was made,
/// whatever its type, so that a maker has only its own ways out.
pub(crate) fn keeping<T: Drop, R>(value: T, made: Result<R, NoMemory>) -> Result<(T, R), NoMemory>
    ensures kept { IfOk result (λ x. x.0 ≡ value) }
    ensures made { IfOk result (λ x. made ≡ Ok x.1) }
{
    let made = made?;
    Ok((value, made))
}

fn boxes<T: Drop>(alloc: Global, x: T, y: T) -> Result<(Box<T>, Box<T>), NoMemory>
    ensures left { IfOk result (λ made. made.0.value ≡ x) }
    ensures right { IfOk result (λ made. made.1.value ≡ y) }
{
    let left = Box::new(alloc, x)?;
    let right = Box::new(alloc, y)?;
    Ok((left, right))
}

/// An operator over two trees.
pub(crate) fn over(alloc: Global, op: Op2, x: Tree, y: Tree) -> Result<Tree, NoMemory>
    ensures { IfOk result (λ made. model_of_tree made ≡ bin op (model_of_tree x) (model_of_tree y)) }
{
    let (left, right) = boxes(alloc, x, y)?;
    Ok(Tree::Bin(op, left, right))
}

// A value of a cell's width as an address.
fn narrowed(alloc: Global, memory: &DataMemory<'_>, value: Tree) -> Result<Tree, NoMemory>
    ensures { IfOk result (λ made. model_of_tree made ≡ narrowed memory.now (model_of_tree value)) }
{
    let addr = memory.addr();
    if addr < memory.word() {
        let of = Box::new(alloc, value)?;
        Ok(Tree::Slice(of, addr - 1, 0))
    } else {
        Ok(value)
    }
}

/// The address of an array's element, given the tree of its index.
pub(crate) fn computed(
    alloc: Global,
    memory: &DataMemory<'_>,
    name: &Name,
    index: Tree,
) -> Result<Tree, NoMemory>
    ensures { IfOk result (λ made. model_of_tree made ≡ computed_address memory.now name.now (model_of_tree index)) }
{
    let base = Tree::Lit {
        width: memory.word(),
        value: u64::from(memory.base(name)),
    };
    let sum = over(alloc, Op2::Add, index, base)?;
    let address = narrowed(alloc, memory, sum)?;
    Ok(address)
}

/// The tree of an expression. A literal that isn't an operand's, an index or an argument has the
/// width `asked`.
#[cycle(tree)]
pub(crate) fn tree(
    alloc: Global,
    memory: &DataMemory<'_>,
    asked: u8,
    e: &SrcExpr,
) -> Result<Tree, NoMemory>
    requires asked { IsWidth asked }
    requires fitting { Fitting memory.now.word asked (model_of_src_node e.now.node) }
    requires near { IsNear memory.now.places (model_of_src_node e.now.node) }
    ensures { IfOk result (λ made. model_of_tree made ≡ tree_of memory.now asked (model_of_src_node e.now.node)) }
{
    let word = memory.word();
    match &e.node {
        SrcNode::Num(n) => Ok(Tree::Lit {
            width: asked,
            value: *n,
        }),
        SrcNode::Var(spot) => {
            let place = Box::new(alloc, address(alloc, memory, spot)?)?;
            Ok(Tree::Read(place, word))
        }
        SrcNode::Un(op, x) => {
            let operand = operand(alloc, memory, asked, x)?;
            Ok(Tree::Un(*op, operand))
        }
        SrcNode::Bin(op, x, y) => {
            let width = operand_width(word, x, y);
            let left = operand(alloc, memory, width, x)?;
            let (left, right) = keeping(left, operand(alloc, memory, width, y))?;
            Ok(Tree::Bin(*op, left, right))
        }
        SrcNode::Zext(x, to) => {
            let operand = operand(alloc, memory, word, x)?;
            Ok(Tree::Zext(operand, *to as u8))
        }
        SrcNode::Sext(x, to) => {
            let operand = operand(alloc, memory, word, x)?;
            Ok(Tree::Sext(operand, *to as u8))
        }
        SrcNode::Low(x, width) => {
            let operand = operand(alloc, memory, word, x)?;
            Ok(Tree::Slice(operand, (*width - 1) as u8, 0))
        }
    }
}

/// The same in a box, for an operator.
#[cycle(tree)]
pub(crate) fn operand(
    alloc: Global,
    memory: &DataMemory<'_>,
    asked: u8,
    e: &SrcExpr,
) -> Result<Box<Tree>, NoMemory>
    requires asked { IsWidth asked }
    requires fitting { Fitting memory.now.word asked (model_of_src_node e.now.node) }
    requires near { IsNear memory.now.places (model_of_src_node e.now.node) }
    ensures { IfOk result (λ made. model_of_tree made.value ≡ tree_of memory.now asked (model_of_src_node e.now.node)) }
{
    let tree = tree(alloc, memory, asked, e)?;
    let made = Box::new(alloc, tree)?;
    Ok(made)
}

// The address of a place.
#[cycle(tree)]
fn address(alloc: Global, memory: &DataMemory<'_>, spot: &Spot) -> Result<Tree, NoMemory>
    requires fitting { Fitting memory.now.word memory.now.word (spot_node spot.now) }
    requires near { IsNear memory.now.places (spot_node spot.now) }
    ensures { IfOk result (λ made. read InMemory (model_of_tree made) memory.now.word
        ≡ tree_of memory.now memory.now.word (spot_node spot.now)) }
{
    let first = u64::from(memory.base(&spot.name));
    let width = memory.addr();
    match &spot.index {
        None => Ok(Tree::Lit {
            width,
            value: first,
        }),
        Some(x) => match number_of(x) {
            Some(n) => Ok(Tree::Lit {
                width,
                value: first + n,
            }),
            None => {
                let index = tree(alloc, memory, memory.word(), x)?;
                let address = computed(alloc, memory, &spot.name, index)?;
                Ok(address)
            }
        },
    }
}
