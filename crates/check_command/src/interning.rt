//! Expressions, put into a pool.

ghost use Rattle.std.specs.Prelude.{◌≡◌, ◌<◌, ◌≤◌, true, IfOk, IfSome, length};
ghost use Rattle.sym_expr.specs.Pools.{AllBelow, Grows, HeadFits, children_of, expr_of_id, node_expr};

use net_model::Expr;
use rec_bits::{NoMemory, mask};
use std::alloc::Global;
use sym_expr::{ExprId, Node, Pool};

/// The greatest width.
const MAX_WIDTH: u8 = 64;

fn is_width(width: u8) -> bool
    ensures low { result ≡ true → 1 ≤ width }
    ensures high { result ≡ true → width ≤ 64 }
{
    1 <= width && width <= MAX_WIDTH
}

// Whether a node's operands have the widths that it asks for. Expressions of texts have no words and
// no choices.
fn fits(pool: &Pool, node: Node) -> bool
    requires { AllBelow (length pool.now) (children_of node) }
    ensures { result ≡ true → HeadFits (node_expr node (expr_of_id pool.now)) }
{
    match node {
        Node::Reg(_, width) | Node::Read(_, width) | Node::Cell(_, width) => is_width(width),
        Node::Const { width, value } => is_width(width) && value <= mask(width),
        Node::Un(_, _) => true,
        Node::Bin(_, a, b) => pool.width(a) == pool.width(b),
        Node::Slice(a, hi, lo) => lo <= hi && hi < pool.width(a),
        Node::Cat(a, b) => pool.width(a) + pool.width(b) <= MAX_WIDTH,
        Node::Zext(a, width) | Node::Sext(a, width) => {
            pool.width(a) < width && width <= MAX_WIDTH
        }
        Node::Word(_) | Node::Select(_, _, _) => false,
    }
}

// A node over ids of the pool, put into it.
fn put_node(alloc: Global, pool: &mut Pool, node: Node) -> Result<Option<ExprId>, NoMemory>
    requires { AllBelow (length pool.old) (children_of node) }
    ensures grows { Grows pool.old pool.new }
    ensures within { IfOk result (λ found. IfSome found (λ id. id < length pool.new)) }
{
    if !fits(pool, node) {
        return Ok(None);
    }
    let id = pool.intern(alloc, node)?;
    Ok(Some(id))
}

// The ids of two expressions.
#[cycle(put)]
fn put_both(
    alloc: Global,
    pool: &mut Pool,
    a: &Expr,
    b: &Expr,
) -> Result<Option<(ExprId, ExprId)>, NoMemory>
    ensures grows { Grows pool.old pool.new }
    ensures within { IfOk result (λ found. IfSome found (λ ids.
        (ids.0 < length pool.new) × (ids.1 < length pool.new))) }
{
    let Some(a) = put_expr(alloc, pool, a)? else {
        return Ok(None);
    };
    let Some(b) = put_expr(alloc, pool, b)? else {
        return Ok(None);
    };
    Ok(Some((a, b)))
}

// The node of an expression, whose parts are put into the pool.
#[cycle(put)]
fn node_of(alloc: Global, pool: &mut Pool, expr: &Expr) -> Result<Option<Node>, NoMemory>
    ensures grows { Grows pool.old pool.new }
    ensures within { IfOk result (λ found. IfSome found (λ node. AllBelow (length pool.new) (children_of node))) }
{
    Ok(match expr {
        Expr::Reg(register, width) => Some(Node::Reg(*register, *width)),
        Expr::Const { width, value } => Some(Node::Const {
            width: *width,
            value: *value,
        }),
        Expr::Read(a, width) => put_expr(alloc, pool, a)?.map(|a| Node::Read(a, *width)),
        Expr::Cell(a, width) => put_expr(alloc, pool, a)?.map(|a| Node::Cell(a, *width)),
        Expr::Un(op, a) => put_expr(alloc, pool, a)?.map(|a| Node::Un(*op, a)),
        Expr::Bin(op, a, b) => put_both(alloc, pool, a, b)?.map(|(a, b)| Node::Bin(*op, a, b)),
        Expr::Slice(a, hi, lo) => put_expr(alloc, pool, a)?.map(|a| Node::Slice(a, *hi, *lo)),
        Expr::Cat(a, b) => put_both(alloc, pool, a, b)?.map(|(a, b)| Node::Cat(a, b)),
        Expr::Zext(a, width) => put_expr(alloc, pool, a)?.map(|a| Node::Zext(a, *width)),
        Expr::Sext(a, width) => put_expr(alloc, pool, a)?.map(|a| Node::Sext(a, *width)),
        Expr::Word(_) | Expr::Select(_, _, _) => None,
    })
}

/// The id of an expression that is put into the pool; None where its widths don't agree, or where it
/// names the instruction word or a choice.
#[cycle(put)]
pub fn put_expr(alloc: Global, pool: &mut Pool, expr: &Expr) -> Result<Option<ExprId>, NoMemory>
    ensures grows { Grows pool.old pool.new }
    ensures within { IfOk result (λ found. IfSome found (λ id. id < length pool.new)) }
{
    match node_of(alloc, pool, expr)? {
        Some(node) => put_node(alloc, pool, node),
        None => Ok(None),
    }
}
