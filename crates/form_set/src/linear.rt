//! Whether a register or an instruction bit occurs twice in an expression.

ghost use Rattle.std.specs.Prelude.{◌≡◌, ◌↔◌, ◌^◌, ◌<◌, IsTrue, is_some, length};
ghost use Rattle.form_set.specs.Inner.Linear.{are_apart as are_apart_of, is_linear as is_linear_of, meet_in as meet_in_of, transfer_linear as move_linear_of};
ghost use Rattle.form_set.specs.Tied.{counted, tied_place};
ghost use Rattle.net_model.specs.Occurs.{IsLinear, registers as registers_in};
ghost use Rattle.sym_expr.specs.Pools.{expr_of_id};
ghost use Rattle.transfer_set.specs.Entries.{IsAddrKnown, ids_transfer};
ghost use Rattle.transfer_set.specs.TextMarks.{IsTransferOf, IsExprOf};

use net_model::Checked;
use sym_expr::{ExprId, Node, Pool};
use transfer_set::expr_fields;

// The set of one register.
pub(crate) fn one(id: u32) -> u16
    requires { id < 16 }
    ensures { result ≡ 2 ^ id }
{
    1 << id
}

// The registers that occur in an expression, one bit for each.
fn registers(checked: &Checked, pool: &Pool, expr: ExprId) -> u16
    requires within { expr < length pool.now }
    requires exprs { IsExprOf checked.now.netlist (expr_of_id pool.now expr) }
    ensures { result ≡ registers_in (expr_of_id pool.now expr) }
{
    // a checked netlist has few storages
    let _netlist = checked.netlist();
    match pool.node(expr) {
        Node::Reg(id, _) => one(id),
        Node::Word(..) | Node::Const { .. } => 0,
        Node::Read(a, _)
        | Node::Cell(a, _)
        | Node::Un(_, a)
        | Node::Slice(a, _, _)
        | Node::Zext(a, _)
        | Node::Sext(a, _) => registers(checked, pool, a),
        Node::Bin(_, a, b) | Node::Cat(a, b) => {
            registers(checked, pool, a) | registers(checked, pool, b)
        }
        Node::Select(c, a, b) => {
            registers(checked, pool, c) | registers(checked, pool, a) | registers(checked, pool, b)
        }
    }
}

// Whether two sets have no more in common than a third.
fn meet_in(set: u64, a: u64, b: u64) -> bool
    ensures { result ≡ meet_in_of set a b }
{
    (a & b) | set == set
}

// Whether two expressions have no instruction bit in common, and no register but the free ones.
fn are_apart(checked: &Checked, pool: &Pool, free: u16, a: ExprId, b: ExprId) -> bool
    requires first { a < length pool.now }
    requires second { b < length pool.now }
    requires first_terms { IsExprOf checked.now.netlist (expr_of_id pool.now a) }
    requires second_terms { IsExprOf checked.now.netlist (expr_of_id pool.now b) }
    ensures { result ≡ are_apart_of free (expr_of_id pool.now a) (expr_of_id pool.now b) }
{
    let here = u64::from(registers(checked, pool, a));
    let there = u64::from(registers(checked, pool, b));
    meet_in(u64::from(free), here, there) && meet_in(0, expr_fields(pool, a), expr_fields(pool, b))
}

// Whether no register but the free ones and no instruction bit occurs twice in an expression.
fn is_linear(checked: &Checked, pool: &Pool, free: u16, expr: ExprId) -> bool
    requires within { expr < length pool.now }
    requires exprs { IsExprOf checked.now.netlist (expr_of_id pool.now expr) }
    ensures { result ≡ is_linear_of free (expr_of_id pool.now expr) }
{
    match pool.node(expr) {
        Node::Word(..) | Node::Reg(..) | Node::Const { .. } => true,
        Node::Read(a, _)
        | Node::Cell(a, _)
        | Node::Un(_, a)
        | Node::Slice(a, _, _)
        | Node::Zext(a, _)
        | Node::Sext(a, _) => is_linear(checked, pool, free, a),
        Node::Bin(_, a, b) | Node::Cat(a, b) => {
            are_apart(checked, pool, free, a, b)
                && (is_linear(checked, pool, free, a) && is_linear(checked, pool, free, b))
        }
        Node::Select(c, a, b) => {
            (are_apart(checked, pool, free, c, a)
                && (are_apart(checked, pool, free, c, b) && are_apart(checked, pool, free, a, b)))
                && (is_linear(checked, pool, free, c)
                    && (is_linear(checked, pool, free, a) && is_linear(checked, pool, free, b)))
        }
    }
}

// Whether an expression reads the register file at an address.
fn reads_at(pool: &Pool, addr: ExprId, expr: ExprId) -> bool
    requires addr { addr < length pool.now }
    requires expr { expr < length pool.now }
    ensures { result ≡ is_some (tied_place (expr_of_id pool.now addr) (expr_of_id pool.now expr)) }
{
    // of what is in a pool, expressions are equal exactly where their ids are
    let _len = pool.len();
    match pool.node(expr) {
        Node::Word(..) | Node::Reg(..) | Node::Const { .. } => false,
        Node::Cell(a, _) => a == addr,
        Node::Read(a, _)
        | Node::Un(_, a)
        | Node::Slice(a, _, _)
        | Node::Zext(a, _)
        | Node::Sext(a, _) => reads_at(pool, addr, a),
        Node::Bin(_, a, b) | Node::Cat(a, b) => {
            reads_at(pool, addr, a) || reads_at(pool, addr, b)
        }
        Node::Select(c, a, b) => {
            reads_at(pool, addr, c) || (reads_at(pool, addr, a) || reads_at(pool, addr, b))
        }
    }
}

// Whether address and value of a transfer are so, and have nothing in common but a tied read's
// address.
fn are_linear(
    checked: &Checked,
    pool: &Pool,
    free: u16,
    filed: bool,
    addr: Option<ExprId>,
    value: ExprId,
) -> bool
    requires addr { IsAddrKnown (length pool.now) addr }
    requires value { value < length pool.now }
    requires exprs { IsTransferOf checked.now.netlist (ids_transfer pool.now addr value) }
    ensures { result ≡ move_linear_of free (counted filed (ids_transfer pool.now addr value)) }
{
    match addr {
        None => is_linear(checked, pool, free, value),
        Some(addr) => {
            if filed && reads_at(pool, addr, value) {
                return is_linear(checked, pool, free, value);
            }
            are_apart(checked, pool, free, addr, value)
                && (is_linear(checked, pool, free, addr) && is_linear(checked, pool, free, value))
        }
    }
}

// Whether no register but the free ones and no instruction bit occurs twice in a transfer, where a
// tied read's address isn't counted again; `filed` tells whether the transfer writes the register
// file.
pub(crate) fn move_linear(
    checked: &Checked,
    pool: &Pool,
    free: u16,
    filed: bool,
    addr: Option<ExprId>,
    value: ExprId,
) -> bool
    requires addr { IsAddrKnown (length pool.now) addr }
    requires value { value < length pool.now }
    requires exprs { IsTransferOf checked.now.netlist (ids_transfer pool.now addr value) }
    ensures { IsTrue result ↔ IsLinear free (counted filed (ids_transfer pool.now addr value)) }
{
    let linear = are_linear(checked, pool, free, filed, addr, value);
    linear
}
