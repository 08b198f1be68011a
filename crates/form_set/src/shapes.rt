//! Field shapes, and the parts of expressions that have to be some.

ghost use Rattle.std.specs.Prelude.{◌≡◌, ◌^◌, ◌%◌, ◌==◌, ◌<◌, ◌≤◌, nat_lt, is_some, true, length, option_map, IfSome, Some};
ghost use Rattle.rec_bits.specs.Operators.{sext_of};
ghost use Rattle.form_model.specs.Shapes.{is_field as is_field_of, is_plain as is_plain_of, is_shape as is_shape_of, is_shape_in as is_shape_of_edition, moved_reach, plain_reach, plain_setting, reach_of, shows, shows_below, sum_of, sum_setting, summands as summands_of};
ghost use Rattle.form_set.specs.Inner.Copies.{IsSumOf, ids_sum};
ghost use Rattle.form_set.specs.Static.{has_shapes as has_shapes_in, is_static_expr as is_settled_of, transfer_shaped as move_shaped_of, shows_cells as shows_cells_of, reads_shown as reads_shown_of, transfer_shown as move_shown_of};
ghost use Rattle.net_model.specs.Exprs.{expr_width};
ghost use Rattle.transfer_set.specs.Entries.{IsAddrKnown, ids_transfer};
ghost use Rattle.sym_expr.specs.Pools.{expr_of_id};

use rec_bits::{Op2, apply2, sext, slice};
use sym_expr::{ExprId, Node, Pool};

// ---- what is a field shape

// Whether an expression is the instruction word or a slice of it.
fn is_field(pool: &Pool, expr: ExprId) -> bool
    requires { expr < length pool.now }
    ensures { result ≡ is_field_of (expr_of_id pool.now expr) }
{
    match pool.node(expr) {
        Node::Word(_) => true,
        Node::Slice(a, _, _) => match pool.node(a) {
            Node::Word(_) => true,
            _ => false,
        },
        _ => false,
    }
}

// Whether an expression is one of these, one of these extended, or a constant.
fn is_plain(pool: &Pool, expr: ExprId) -> bool
    requires { expr < length pool.now }
    ensures { result ≡ is_plain_of (expr_of_id pool.now expr) }
{
    match pool.node(expr) {
        Node::Const { .. } => true,
        Node::Zext(a, _) | Node::Sext(a, _) => is_field(pool, a),
        Node::Word(_) => true,
        Node::Slice(a, _, _) => match pool.node(a) {
            Node::Word(_) => true,
            _ => false,
        },
        _ => false,
    }
}

// A constant, with its width, and what it is added to.
#[derive(Clone, Copy)]
struct SumIds {
    width: u8,
    added: u64,
    to: ExprId,
}

// Two expressions, one of which is a constant.
fn summands(pool: &Pool, a: ExprId, b: ExprId) -> Option<SumIds>
    requires first { a < length pool.now }
    requires second { b < length pool.now }
    requires width { expr_width (expr_of_id pool.now b) ≡ expr_width (expr_of_id pool.now a) }
    ensures known { IfSome result (IsSumOf pool.now) }
    ensures sum { option_map (ids_sum pool.now) result ≡ summands_of (expr_of_id pool.now a) (expr_of_id pool.now b) }
{
    match (pool.node(a), pool.node(b)) {
        (Node::Const { width, value }, _) => Some(SumIds {
            width,
            added: value,
            to: b,
        }),
        (_, Node::Const { width, value }) => Some(SumIds {
            width,
            added: value,
            to: a,
        }),
        _ => None,
    }
}

// The sum that an operator with its operands is, either way round.
fn sum_at(pool: &Pool, op: Op2, a: ExprId, b: ExprId) -> Option<SumIds>
    requires first { a < length pool.now }
    requires second { b < length pool.now }
    requires width { expr_width (expr_of_id pool.now b) ≡ expr_width (expr_of_id pool.now a) }
    ensures known { IfSome result (IsSumOf pool.now) }
    ensures sum { option_map (ids_sum pool.now) result ≡ sum_of op (expr_of_id pool.now a) (expr_of_id pool.now b) }
{
    match op {
        Op2::Add => summands(pool, a, b),
        _ => None,
    }
}

// Whether an expression is a field shape.
fn is_shape(pool: &Pool, expr: ExprId) -> bool
    requires { expr < length pool.now }
    ensures { result ≡ is_shape_of (expr_of_id pool.now expr) }
{
    match pool.node(expr) {
        Node::Bin(op, a, b) => match sum_at(pool, op, a, b) {
            Some(sum) => is_plain(pool, sum.to),
            None => false,
        },
        _ => is_plain(pool, expr),
    }
}

// Whether an expression is a field shape in texts of an edition.
pub(crate) fn is_shape_in(pool: &Pool, edition: u8, expr: ExprId) -> bool
    requires { expr < length pool.now }
    ensures { result ≡ is_shape_of_edition edition (expr_of_id pool.now expr) }
{
    if edition < 2 {
        is_plain(pool, expr)
    } else {
        is_shape(pool, expr)
    }
}

// Whether an expression is one over the instruction word and constants.
fn is_static(pool: &Pool, expr: ExprId) -> bool
    requires { expr < length pool.now }
    ensures { result ≡ is_settled_of (expr_of_id pool.now expr) }
{
    match pool.node(expr) {
        Node::Word(_) | Node::Const { .. } => true,
        Node::Reg(..) | Node::Read(..) | Node::Cell(..) => false,
        Node::Un(_, a) | Node::Slice(a, _, _) | Node::Zext(a, _) | Node::Sext(a, _) => {
            is_static(pool, a)
        }
        Node::Bin(_, a, b) | Node::Cat(a, b) => is_static(pool, a) && is_static(pool, b),
        Node::Select(c, a, b) => {
            is_static(pool, c) && (is_static(pool, a) && is_static(pool, b))
        }
    }
}

// Whether each static part of an expression that isn't inside another one is a field shape in texts
// of an edition.
pub(crate) fn has_shapes(pool: &Pool, edition: u8, expr: ExprId) -> bool
    requires { expr < length pool.now }
    ensures { result ≡ has_shapes_in edition (expr_of_id pool.now expr) }
{
    if is_static(pool, expr) {
        return is_shape_in(pool, edition, expr);
    }
    match pool.node(expr) {
        Node::Word(_) | Node::Const { .. } | Node::Reg(..) => true,
        Node::Read(a, _)
        | Node::Cell(a, _)
        | Node::Un(_, a)
        | Node::Slice(a, _, _)
        | Node::Zext(a, _)
        | Node::Sext(a, _) => has_shapes(pool, edition, a),
        Node::Bin(_, a, b) | Node::Cat(a, b) => {
            has_shapes(pool, edition, a) && has_shapes(pool, edition, b)
        }
        Node::Select(c, a, b) => {
            has_shapes(pool, edition, c)
                && (has_shapes(pool, edition, a) && has_shapes(pool, edition, b))
        }
    }
}

// Whether each such part of a transfer is a field shape.
pub(crate) fn move_shaped(pool: &Pool, edition: u8, addr: Option<ExprId>, value: ExprId) -> bool
    requires addr { IsAddrKnown (length pool.now) addr }
    requires value { value < length pool.now }
    ensures { result ≡ move_shaped_of edition (ids_transfer pool.now addr value) }
{
    match addr {
        None => has_shapes(pool, edition, value),
        Some(addr) => has_shapes(pool, edition, addr) && has_shapes(pool, edition, value),
    }
}

// ---- which numbers a shape shows

// Whether a number has at most so many bits.
fn is_within(value: u64, width: u8) -> bool
    requires { width ≤ 64 }
    ensures { result ≡ nat_lt value (2 ^ width) }
{
    u128::from(value) < 1u128 << width
}

// Whether a number is its own low bits, so many, with copies of their top bit.
fn is_extension(value: u64, from: u8, to: u8) -> bool
    requires low { 1 ≤ from }
    requires order { from < to }
    requires high { to ≤ 64 }
    ensures { result ≡ (sext_of (value % 2 ^ from) from to == value) }
{
    sext(slice(value, from - 1, 0), from, to) == value
}

// Whether some word gives a field shape that is no sum this value.
fn plain_shows(pool: &Pool, expr: ExprId, value: u64) -> bool
    requires within { expr < length pool.now }
    requires plain { is_plain_of (expr_of_id pool.now expr) ≡ true }
    ensures { result ≡ is_some (plain_setting (expr_of_id pool.now expr) value) }
{
    // the operators of a pool's expressions get what they ask for
    let _len = pool.len();
    match pool.node(expr) {
        Node::Const { value: only, .. } => value == only,
        Node::Zext(a, _) => is_within(value, pool.width(a)),
        Node::Sext(a, width) => is_extension(value, pool.width(a), width),
        _ => is_within(value, pool.width(expr)),
    }
}

// Whether some word gives a sum this value: what the constant is added to then has the rest.
fn sum_shows(pool: &Pool, sum: SumIds, value: u64) -> bool
    requires within { sum.to < length pool.now }
    requires plain { is_plain_of (expr_of_id pool.now sum.to) ≡ true }
    requires low { 1 ≤ sum.width }
    requires high { sum.width ≤ 64 }
    requires added { sum.added < 2 ^ sum.width }
    ensures { result ≡ is_some (sum_setting (Some (ids_sum pool.now sum)) value) }
{
    is_within(value, sum.width)
        && plain_shows(pool, sum.to, apply2(Op2::Sub, sum.width, value, sum.added))
}

// Whether some word gives a field shape this value.
pub(crate) fn shape_shows(pool: &Pool, expr: ExprId, value: u64) -> bool
    requires within { expr < length pool.now }
    requires shape { is_shape_of (expr_of_id pool.now expr) ≡ true }
    ensures { result ≡ shows (expr_of_id pool.now expr) value }
{
    // the operators of a pool's expressions get what they ask for
    let _len = pool.len();
    match pool.node(expr) {
        Node::Bin(op, a, b) => match sum_at(pool, op, a, b) {
            Some(sum) => sum_shows(pool, sum, value),
            None => false,
        },
        _ => plain_shows(pool, expr, value),
    }
}

// The least number that a field shape of few bits doesn't show, which is no sum.
fn plain_least(pool: &Pool, expr: ExprId) -> u64
    requires within { expr < length pool.now }
    requires narrow { expr_width (expr_of_id pool.now expr) ≤ 16 }
    ensures { result ≡ plain_reach (expr_of_id pool.now expr) }
{
    let width = pool.width(expr);
    match pool.node(expr) {
        Node::Const { value, .. } => { if value == 0 { 1 } else { 0 } }
        Node::Sext(a, _) => 1 << (pool.width(a) - 1),
        Node::Zext(a, _) => 1 << pool.width(a),
        _ => 1 << width,
    }
}

// The same where a constant is added: what is shown moves up by it, and what gets past the width
// begins at 0.
fn moved_least(pool: &Pool, sum: SumIds) -> u64
    requires within { sum.to < length pool.now }
    requires narrow { expr_width (expr_of_id pool.now sum.to) ≤ 16 }
    requires added { sum.added < 2 ^ expr_width (expr_of_id pool.now sum.to) }
    ensures { result ≡ moved_reach sum.added (expr_of_id pool.now sum.to) }
{
    let past: u64 = 1 << pool.width(sum.to);
    match pool.node(sum.to) {
        Node::Const { value, .. } => {
            if (sum.added + value) % past == 0 {
                1
            } else {
                0
            }
        }
        Node::Sext(a, _) => {
            let half: u64 = 1 << (pool.width(a) - 1);
            if sum.added <= half {
                half + sum.added
            } else {
                (half + sum.added).saturating_sub(past)
            }
        }
        Node::Zext(a, _) => {
            let count: u64 = 1 << pool.width(a);
            if sum.added == 0 {
                count
            } else {
                (count + sum.added).saturating_sub(past)
            }
        }
        _ => past,
    }
}

// The least number that a field shape of few bits doesn't show.
pub(crate) fn shape_reach(pool: &Pool, expr: ExprId) -> u64
    requires within { expr < length pool.now }
    requires narrow { expr_width (expr_of_id pool.now expr) ≤ 16 }
    requires shape { is_shape_of (expr_of_id pool.now expr) ≡ true }
    ensures { result ≡ reach_of (expr_of_id pool.now expr) }
{
    // the operators of a pool's expressions get what they ask for
    let _len = pool.len();
    match pool.node(expr) {
        Node::Bin(op, a, b) => match sum_at(pool, op, a, b) {
            Some(sum) => moved_least(pool, sum),
            None => 0,
        },
        _ => plain_least(pool, expr),
    }
}

// ---- addresses of the register file

// Whether a field shape shows each number below this one.
fn shows_each(pool: &Pool, expr: ExprId, count: u32) -> bool
    requires within { expr < length pool.now }
    requires shape { is_shape_of (expr_of_id pool.now expr) ≡ true }
    ensures { result ≡ shows_below (expr_of_id pool.now expr) count }
{
    for value in 0..count {
        if !shape_shows(pool, expr, u64::from(value)) {
            return false;
        }
    }
    true
}

// Whether an address is a field shape that shows each of so many cells.
fn shows_cells(pool: &Pool, size: u32, addr: ExprId) -> bool
    requires { addr < length pool.now }
    ensures { result ≡ shows_cells_of size (expr_of_id pool.now addr) }
{
    is_shape(pool, addr) && shows_each(pool, addr, size)
}

// Whether the address of each read of the file in an expression is one.
pub(crate) fn reads_shown(pool: &Pool, size: u32, expr: ExprId) -> bool
    requires { expr < length pool.now }
    ensures { result ≡ reads_shown_of size (expr_of_id pool.now expr) }
{
    match pool.node(expr) {
        Node::Word(_) | Node::Const { .. } | Node::Reg(..) => true,
        Node::Cell(a, _) => shows_cells(pool, size, a),
        Node::Read(a, _)
        | Node::Un(_, a)
        | Node::Slice(a, _, _)
        | Node::Zext(a, _)
        | Node::Sext(a, _) => reads_shown(pool, size, a),
        Node::Bin(_, a, b) | Node::Cat(a, b) => {
            reads_shown(pool, size, a) && reads_shown(pool, size, b)
        }
        Node::Select(c, a, b) => {
            reads_shown(pool, size, c) && (reads_shown(pool, size, a) && reads_shown(pool, size, b))
        }
    }
}

// Whether that of each read and write of the file in a transfer is one; `filed` tells whether the
// transfer writes the file.
pub(crate) fn move_shown(
    pool: &Pool,
    filed: bool,
    size: u32,
    addr: Option<ExprId>,
    value: ExprId,
) -> bool
    requires addr { IsAddrKnown (length pool.now) addr }
    requires value { value < length pool.now }
    ensures { result ≡ move_shown_of filed size (ids_transfer pool.now addr value) }
{
    match addr {
        None => reads_shown(pool, size, value),
        Some(addr) => {
            let shown = if filed {
                shows_cells(pool, size, addr)
            } else {
                reads_shown(pool, size, addr)
            };
            shown && reads_shown(pool, size, value)
        }
    }
}
