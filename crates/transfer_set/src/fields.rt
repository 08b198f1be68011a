//! The instruction bits that occur in an expression.

ghost use Rattle.std.specs.Prelude.{◌≡◌, ◌<◌, ◌≤◌, length};
ghost use Rattle.sym_expr.specs.Pools.{expr_of_id};
ghost use Rattle.net_model.specs.Fields.{bits_between, fields as fields_in};

use rec_bits::mask;
use sym_expr::{ExprId, Node, Pool};

/// The bits of a word from `hi` down to `lo`, as a mask.
pub fn span(hi: u8, lo: u8) -> u64
    requires order { lo ≤ hi }
    requires high { hi ≤ 63 }
    ensures { result ≡ bits_between hi lo }
{
    if lo == 0 {
        mask(hi + 1)
    } else {
        mask(hi + 1) - mask(lo)
    }
}

/// The instruction bits that occur in an expression, as a mask.
pub fn expr_fields(pool: &Pool, expr: ExprId) -> u64
    requires { expr < length pool.now }
    ensures { result ≡ fields_in (expr_of_id pool.now expr) }
{
    match pool.node(expr) {
        Node::Word(width) => mask(width),
        Node::Reg(..) | Node::Const { .. } => 0,
        Node::Read(a, _)
        | Node::Cell(a, _)
        | Node::Un(_, a)
        | Node::Zext(a, _)
        | Node::Sext(a, _) => expr_fields(pool, a),
        Node::Bin(_, a, b) | Node::Cat(a, b) => expr_fields(pool, a) | expr_fields(pool, b),
        Node::Slice(a, hi, lo) => match pool.node(a) {
            Node::Word(_) => span(hi, lo),
            _ => expr_fields(pool, a),
        },
        Node::Select(c, a, b) => expr_fields(pool, c) | expr_fields(pool, a) | expr_fields(pool, b),
    }
}
