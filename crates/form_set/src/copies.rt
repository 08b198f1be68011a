//! Expressions of a pool as values of their own.

ghost use Rattle.std.specs.Prelude.{◌≡◌, ◌-◌, ◌^◌, ◌<◌, ◌≤◌, length, IfOk, option_map};
ghost use Rattle.form_set.specs.Inner.Copies.{ids_sides};
ghost use Rattle.operand_swaps.specs.Sides.{model_of_sides};
ghost use Rattle.operand_swaps.specs.Swaps.{SidesWithin, IsAddrWithin, levels, swap_count as swap_count_of, swapped};
ghost use Rattle.net_model.specs.Exprs.{model_of_expr};
ghost use Rattle.sym_expr.specs.Pools.{expr_of_id};
ghost use Rattle.transfer_set.specs.Entries.{IsAddrKnown};

use net_model::Expr;
use operand_swaps::{Sides, swap_count, swap_sides};
use rec_bits::NoMemory;
use std::alloc::Global;
use sym_expr::{ExprId, Pool};

// The expression of an id.
pub(crate) fn expr_at(alloc: Global, pool: &Pool, expr: ExprId) -> Result<Expr, NoMemory>
    requires { expr < length pool.now }
    ensures copy { IfOk result (λ copy. model_of_expr copy ≡ expr_of_id pool.now expr) }
    ensures levels { IfOk result (λ copy. levels (model_of_expr copy) ≤ 2 ^ 64 - 1) }
{
    // the pool's length bounds the levels of its expressions
    let _len = pool.len();
    pool.expr(alloc, expr)
}

// The address of a transfer, where it has one.
fn addr_at(alloc: Global, pool: &Pool, addr: Option<ExprId>) -> Result<Option<Expr>, NoMemory>
    requires { IsAddrKnown (length pool.now) addr }
    ensures copy { IfOk result (λ copy. option_map model_of_expr copy ≡ option_map (expr_of_id pool.now) addr) }
    ensures levels { IfOk result (λ copy. IsAddrWithin (2 ^ 64 - 1) (option_map model_of_expr copy)) }
{
    match addr {
        Some(addr) => {
            let copy = expr_at(alloc, pool, addr)?;
            Ok(Some(copy))
        }
        None => Ok(None),
    }
}

// The address and the value of a transfer.
pub(crate) fn sides_at(
    alloc: Global,
    pool: &Pool,
    addr: Option<ExprId>,
    value: ExprId,
) -> Result<Sides, NoMemory>
    requires addr { IsAddrKnown (length pool.now) addr }
    requires value { value < length pool.now }
    ensures sides { IfOk result (λ sides. model_of_sides sides ≡ ids_sides pool.now addr value) }
    ensures levels { IfOk result (λ sides. SidesWithin (2 ^ 64 - 1) (model_of_sides sides)) }
{
    let addr = addr_at(alloc, pool, addr)?;
    let value = expr_at(alloc, pool, value)?;
    Ok(Sides { addr, value })
}

// How many operators of a transfer are swapped.
pub(crate) fn count_at(
    alloc: Global,
    pool: &Pool,
    addr: Option<ExprId>,
    value: ExprId,
) -> Result<u8, NoMemory>
    requires addr { IsAddrKnown (length pool.now) addr }
    requires value { value < length pool.now }
    ensures count { IfOk result (λ count. count ≡ swap_count_of (ids_sides pool.now addr value)) }
    ensures few { IfOk result (λ count. count ≤ 8) }
{
    let sides = sides_at(alloc, pool, addr, value)?;
    let count = swap_count(&sides);
    Ok(count)
}

// The address and the value of a transfer with the swaps of a choice.
pub(crate) fn swapped_at(
    alloc: Global,
    pool: &Pool,
    addr: Option<ExprId>,
    value: ExprId,
    choice: u16,
) -> Result<Sides, NoMemory>
    requires addr { IsAddrKnown (length pool.now) addr }
    requires value { value < length pool.now }
    ensures { IfOk result (λ sides. model_of_sides sides ≡ swapped choice (ids_sides pool.now addr value)) }
{
    let mut sides = sides_at(alloc, pool, addr, value)?;
    swap_sides(&mut sides, choice);
    Ok(sides)
}
