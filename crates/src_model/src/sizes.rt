//! The sizes of programs: their statements, the nodes of their trees, and the temporary cells.

ghost use Rattle.std.specs.Prelude.{◌≡◌, [], ◌∷◌, map};
ghost use Rattle.src_model.specs.Written.{model_of_src_node, spot_node, model_of_spot, model_of_src_test, model_of_stmt, stmts_of};
ghost use Rattle.src_model.specs.Widths.{is_literal};
ghost use Rattle.src_model.specs.Indexes.{number_of};
ghost use Rattle.src_model.specs.Sizes.{nodes, is_word, all_of, paired, part, side_parts, assigned_root, tested_roots, roots, roots_in, statements, statements_in, capped_part, measured, together};
ghost use Rattle.rec_bits.specs.Counts.{capped};

use crate::{Cmp, Spot, SrcExpr, SrcNode, SrcTest, Stmt};
use rec_bits::written_result_width;

// What a tree tells: its width, and how many nodes of a word's width there are, at its root and
// below it. Reads at literal addresses are left out.
#[derive(Drop)]
struct Subtree {
    width: u64,
    own: u64,
    below: u64,
}

/// Whether an expression counts as a literal: a number, or a sign over a literal.
pub fn is_literal(e: &SrcExpr) -> bool
    ensures { result ≡ is_literal (model_of_src_node e.now.node) }
{
    match &e.node {
        SrcNode::Num(_) => true,
        SrcNode::Un(_, x) => is_literal(x),
        _ => false,
    }
}

/// The number that an expression is, where it is a number alone.
pub fn number_of(e: &SrcExpr) -> Option<u64>
    ensures { result ≡ number_of (model_of_src_node e.now.node) }
{
    match &e.node {
        SrcNode::Num(n) => Some(*n),
        _ => None,
    }
}

#[cycle(nodes)]
fn nodes(e: &SrcExpr) -> u64
    ensures { result ≡ capped (nodes (model_of_src_node e.now.node)) }
{
    match &e.node {
        SrcNode::Num(_) => 1,
        SrcNode::Var(spot) => spot_nodes(spot),
        SrcNode::Un(_, x) | SrcNode::Zext(x, _) | SrcNode::Sext(x, _) | SrcNode::Low(x, _) => {
            nodes(x).saturating_add(1)
        }
        SrcNode::Bin(_, x, y) => nodes(x).saturating_add(nodes(y)).saturating_add(1),
    }
}

#[cycle(nodes)]
fn spot_nodes(spot: &Spot) -> u64
    ensures { result ≡ capped (nodes (spot_node spot.now)) }
{
    match &spot.index {
        None => 1,
        Some(x) => match number_of(x) {
            Some(_) => 1,
            None => nodes(x).saturating_add(4),
        },
    }
}

fn is_word(word: u64, width: u64) -> u64
    ensures { result ≡ is_word word width }
{
    if width == word { 1 } else { 0 }
}

// A node over parts with so many nodes of a word's width.
fn node(word: u64, width: u64, below: u64) -> Subtree
    ensures width { result.width ≡ width }
    ensures own { result.own ≡ is_word word width }
    ensures below { result.below ≡ below }
{
    Subtree {
        width,
        own: is_word(word, width),
        below,
    }
}

fn all_of(part: Subtree) -> u64
    ensures { result ≡ capped (all_of part) }
{
    part.own.saturating_add(part.below)
}

// Two operands of this width.
fn paired(width: u64, left: Subtree, right: Subtree) -> Subtree
    ensures { result ≡ capped_part (paired width left right) }
{
    Subtree {
        width,
        own: 0,
        below: all_of(left).saturating_add(all_of(right)),
    }
}

#[cycle(part)]
fn part(word: u64, asked: u64, e: &SrcExpr) -> Subtree
    ensures { result ≡ capped_part (part word asked (model_of_src_node e.now.node)) }
{
    match &e.node {
        SrcNode::Num(_) => node(word, asked, 0),
        SrcNode::Var(spot) => spot_part(word, spot),
        SrcNode::Un(_, x) => {
            let operand = part(word, asked, x);
            node(word, operand.width, all_of(operand))
        }
        SrcNode::Bin(op, x, y) => {
            let operands = sides(word, x, y);
            node(
                word,
                written_result_width(*op, operands.width),
                operands.below,
            )
        }
        SrcNode::Zext(x, width) | SrcNode::Sext(x, width) | SrcNode::Low(x, width) => {
            node(word, *width, all_of(part(word, word, x)))
        }
    }
}

#[cycle(part)]
fn spot_part(word: u64, spot: &Spot) -> Subtree
    ensures { result ≡ capped_part (part word word (spot_node spot.now)) }
{
    let at_literal = Subtree {
        width: word,
        own: 0,
        below: 0,
    };
    match &spot.index {
        None => at_literal,
        Some(x) => match number_of(x) {
            Some(_) => at_literal,
            None => node(word, word, all_of(part(word, word, x)).saturating_add(2)),
        },
    }
}

// The operands of an operator, or the sides of a test. A literal has the width of the other one.
#[cycle(part)]
fn sides(word: u64, x: &SrcExpr, y: &SrcExpr) -> Subtree
    ensures { result ≡ capped_part (side_parts word (model_of_src_node x.now.node) (model_of_src_node y.now.node)) }
{
    if is_literal(x) {
        let right = part(word, word, y);
        let left = part(word, right.width, x);
        paired(right.width, left, right)
    } else {
        let left = part(word, word, x);
        let right = part(word, left.width, y);
        paired(left.width, left, right)
    }
}

/// The sizes of statements. A number past the greatest of 64 bits stands there.
#[derive(Drop)]
pub struct Sizes {
    /// How many assignments and tests there are, with three for each `for`.
    pub statements: u64,
    /// The greatest number of nodes of a tree.
    pub nodes: u64,
    /// The greatest number of nodes of a word's width below the root of a tree, reads at literal
    /// addresses left out.
    pub temps: u64,
}

const NOTHING: Sizes = Sizes {
    statements: 0,
    nodes: 0,
    temps: 0,
};

// The start, the test and the step of a `for`.
const FOR: Sizes = Sizes {
    statements: 3,
    nodes: 5,
    temps: 3,
};

fn together(a: Sizes, b: Sizes) -> Sizes
    ensures { result ≡ together a b }
{
    Sizes {
        statements: a.statements.saturating_add(b.statements),
        nodes: a.nodes.max(b.nodes),
        temps: a.temps.max(b.temps),
    }
}

fn assigned(word: u64, place: &Spot, value: &SrcExpr) -> Sizes
    ensures { result ≡ measured word (assigned_root (model_of_spot place.now).index (model_of_src_node value.now.node) ∷ []) 1 }
{
    let read = nodes(value);
    let of_value = part(word, word, value);
    let at_literal = Sizes {
        statements: 1,
        nodes: read,
        temps: of_value.below,
    };
    match &place.index {
        None => at_literal,
        Some(index) => match number_of(index) {
            Some(_) => at_literal,
            None => {
                let address = all_of(part(word, word, index)).saturating_add(2);
                Sizes {
                    statements: 1,
                    nodes: read.saturating_add(nodes(index)).saturating_add(4),
                    temps: all_of(of_value).saturating_add(address),
                }
            }
        },
    }
}

fn tested(word: u64, test: &SrcTest) -> Sizes
    ensures { result ≡ measured word (tested_roots (model_of_src_test test.now)) 1 }
{
    let operands = sides(word, &test.left, &test.right);
    let read = nodes(&test.left).saturating_add(nodes(&test.right));
    match test.cmp {
        Cmp::Eq | Cmp::Ne => Sizes {
            statements: 1,
            nodes: read.saturating_add(3),
            temps: operands
                .below
                .saturating_add(2 * is_word(word, operands.width)),
        },
        _ => Sizes {
            statements: 1,
            nodes: read.saturating_add(1),
            temps: operands.below,
        },
    }
}

#[cycle(sizes)]
fn statement_sizes(word: u64, statement: &Stmt) -> Sizes
    ensures { result ≡ measured word (roots (model_of_stmt statement.now)) (statements (model_of_stmt statement.now)) }
{
    match statement {
        Stmt::Assign { place, value } => assigned(word, place, value),
        Stmt::If { test, yes, no } => {
            let sizes = together(tested(word, test), block_sizes(word, yes));
            match no {
                None => sizes,
                Some(other) => together(sizes, block_sizes(word, other)),
            }
        }
        Stmt::While { test, body } => together(tested(word, test), block_sizes(word, body)),
        Stmt::For { body, .. } => together(FOR, block_sizes(word, body)),
    }
}

/// The sizes of a block's statements, for words of so many bits.
#[cycle(sizes)]
pub fn block_sizes(word: u64, block: &[Stmt]) -> Sizes
    ensures { result
        ≡ measured word (roots_in (stmts_of (map model_of_stmt block.now))) (statements_in (stmts_of (map model_of_stmt block.now))) }
{
    let mut sizes = NOTHING;
    for statement in block {
        sizes = together(sizes, statement_sizes(word, statement));
    }
    sizes
}
