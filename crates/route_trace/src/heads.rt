//! Operators that lack their last operand.

ghost use Rattle.std.specs.Prelude.{◌≡◌, ℕ, ◌<◌, ◌≤◌, length, IfOk};
ghost use Rattle.net_model.specs.Symbolic.{sliced};
ghost use Rattle.net_model.specs.Exprs.{expr_width};
ghost use Rattle.sym_expr.specs.Pools.{AllBelow, Grows, expr_of_id};
ghost use Rattle.route_trace.specs.Inner.Heads.{LastFits, binary_head, head_parts, head_expr, slice_parts};

use net_model::Space;
use rec_bits::{NoMemory, Op1, Op2};
use std::alloc::Global;
use sym_expr::{ExprId, Node, Pool};

// An operator that lacks its last operand, or nothing around it.
#[derive(Clone, Copy)]
pub(crate) enum Head {
    Same,
    Read(Space, u8),
    Un(Op1),
    Slice(u8, u8),
    Zext(u8),
    Sext(u8),
    Bin(Op2, ExprId),
    Cat(ExprId),
    Select(ExprId, ExprId),
}

// The operand and the ends of a slice.
fn slice_of_node(node: Node) -> Option<(ExprId, u8, u8)>
    ensures { result ≡ slice_parts node }
{
    match node {
        Node::Slice(a, hi, lo) => Some((a, hi, lo)),
        Node::Word(_) => None,
        Node::Reg(..) => None,
        Node::Const { .. } => None,
        Node::Read(..) | Node::Cell(..) => None,
        Node::Un(..) => None,
        Node::Bin(..) => None,
        Node::Cat(..) => None,
        Node::Zext(..) => None,
        Node::Sext(..) => None,
        Node::Select(..) => None,
    }
}

// A slice, of which a slice of a slice is one slice and a slice of the whole is its operand.
pub(crate) fn make_slice(
    alloc: Global,
    pool: &mut Pool,
    of: ExprId,
    hi: u8,
    lo: u8,
) -> Result<ExprId, NoMemory>
    requires of { of < length pool.old }
    requires ends { lo ≤ hi }
    requires high { hi < expr_width (expr_of_id pool.old of) }
    ensures grows { Grows pool.old pool.new }
    ensures within { IfOk result (λ id. id < length pool.new) }
    ensures expr { IfOk result (λ id. expr_of_id pool.new id ≡ sliced (expr_of_id pool.old of) hi lo) }
{
    match slice_of_node(pool.node(of)) {
        Some((a, _, low)) => pool.intern(alloc, Node::Slice(a, low + hi, low + lo)),
        None => {
            if lo == 0 && hi + 1 == pool.width(of) {
                Ok(of)
            } else {
                pool.intern(alloc, Node::Slice(of, hi, lo))
            }
        }
    }
}

// The operator with its last operand.
pub(crate) fn close(
    alloc: Global,
    pool: &mut Pool,
    head: Head,
    last: ExprId,
) -> Result<ExprId, NoMemory>
    requires last { last < length pool.old }
    requires parts { AllBelow (length pool.old) (head_parts head) }
    requires fits { LastFits head (expr_of_id pool.old) (expr_width (expr_of_id pool.old last)) }
    ensures grows { Grows pool.old pool.new }
    ensures within { IfOk result (λ id. id < length pool.new) }
    ensures expr { IfOk result (λ id. expr_of_id pool.new id ≡ head_expr head (expr_of_id pool.old) (expr_of_id pool.old last)) }
{
    match head {
        Head::Same => Ok(last),
        Head::Read(Space::Memory, width) => pool.intern(alloc, Node::Read(last, width)),
        Head::Read(Space::File, width) => pool.intern(alloc, Node::Cell(last, width)),
        Head::Un(op) => pool.intern(alloc, Node::Un(op, last)),
        Head::Slice(hi, lo) => make_slice(alloc, pool, last, hi, lo),
        Head::Zext(width) => pool.intern(alloc, Node::Zext(last, width)),
        Head::Sext(width) => pool.intern(alloc, Node::Sext(last, width)),
        Head::Bin(op, a) => pool.intern(alloc, Node::Bin(op, a, last)),
        Head::Cat(a) => pool.intern(alloc, Node::Cat(a, last)),
        Head::Select(c, a) => pool.intern(alloc, Node::Select(c, a, last)),
    }
}

// An operator that lacks its last two operands.
#[derive(Clone, Copy)]
pub(crate) enum Binary {
    Bin(Op2),
    Cat,
    Select(ExprId),
}

// The operator with the first of the two.
pub(crate) fn with_first(binary: Binary, a: ExprId) -> Head
    ensures { result ≡ binary_head binary a }
{
    match binary {
        Binary::Bin(op) => Head::Bin(op, a),
        Binary::Cat => Head::Cat(a),
        Binary::Select(c) => Head::Select(c, a),
    }
}
