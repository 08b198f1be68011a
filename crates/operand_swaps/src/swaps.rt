//! The operators of an expression that can be swapped, by their numbers.

ghost use Rattle.std.specs.Prelude.{◌≡◌, ◌+◌, ◌-◌, ◌^◌, ◌<◌, ◌≤◌, true, min, option_map};
ghost use Rattle.operand_swaps.specs.Sides.{model_of_sides};
ghost use Rattle.operand_swaps.specs.Swaps.{SidesWithin, IsAddrWithin, addr_paths, can_swap as can_swap_of, levels as levels_of, operator_paths, picks, swap_at, swap_count as swap_count_of, swapped, swaps_here as swaps_here_of};
ghost use Rattle.operand_swaps.specs.Inner.LevelSwaps.{addr_swaps as addr_swaps_of, left_behind, left_levels, left_of as left_of_term, swap_level as swap_level_of, swap_levels as swap_levels_of, swaps_of as swaps_of_term};
ghost use Rattle.form_model.specs.Shapes.{is_field as is_field_of, is_plain as is_plain_of, is_plain_sum, sum_with, summands};
ghost use Rattle.net_model.specs.Exprs.{model_of_expr, expr_width};

use net_model::Expr;
use rec_bits::Op2;

// Whether an operator has one value in either order of its operands.
fn can_swap(op: Op2) -> bool
    ensures { result ≡ can_swap_of op }
{
    match op {
        Op2::Add | Op2::Mul | Op2::And | Op2::Or | Op2::Xor | Op2::Eq => true,
        Op2::Sub | Op2::Shl | Op2::Shr | Op2::Sar | Op2::Ltu | Op2::Lts => false,
    }
}

// Whether an expression is the instruction word or a slice of it.
fn is_field(expr: &Expr) -> bool
    ensures { result ≡ is_field_of (model_of_expr expr.now) }
{
    match expr {
        Expr::Word(_) => true,
        Expr::Slice(a, _, _) => match &**a {
            Expr::Word(_) => true,
            _ => false,
        },
        _ => false,
    }
}

// Whether an expression is one of these, one of these extended, or a constant.
fn is_plain(expr: &Expr) -> bool
    ensures { result ≡ is_plain_of (model_of_expr expr.now) }
{
    match expr {
        Expr::Const { .. } => true,
        Expr::Zext(a, _) | Expr::Sext(a, _) => is_field(a),
        _ => is_field(expr),
    }
}

// The width of such an expression.
fn plain_width(expr: &Expr) -> u16
    requires { is_plain_of (model_of_expr expr.now) ≡ true }
    ensures { result ≡ expr_width (model_of_expr expr.now) }
{
    match expr {
        Expr::Word(width) | Expr::Zext(_, width) | Expr::Sext(_, width) => u16::from(*width),
        Expr::Const { width, .. } => u16::from(*width),
        Expr::Slice(_, hi, lo) => (u16::from(*hi) + 1).saturating_sub(u16::from(*lo)),
        _ => 0,
    }
}

// Whether the sum of a constant and an expression is a field shape: the constant has at most 64 bits
// and is of its width, and so is the expression.
fn is_sum_with(width: u8, value: u64, to: &Expr) -> bool
    ensures { result ≡ is_plain_sum (sum_with width value (model_of_expr to.now)) }
{
    width <= 64
        && u128::from(value) < 1u128 << width
        && is_plain(to)
        && plain_width(to) == u16::from(width)
}

// Whether the sum of two expressions is a field shape: one is a constant.
fn is_shape_sum(a: &Expr, b: &Expr) -> bool
    ensures { result ≡ is_plain_sum (summands (model_of_expr a.now) (model_of_expr b.now)) }
{
    match (a, b) {
        (Expr::Const { width, value }, _) => is_sum_with(*width, *value, b),
        (_, Expr::Const { width, value }) => is_sum_with(*width, *value, a),
        _ => false,
    }
}

// Whether an operator has one value in either order of these operands, and isn't that of a field
// shape.
fn swaps_here(op: Op2, a: &Expr, b: &Expr) -> bool
    ensures { result ≡ swaps_here_of op (model_of_expr a.now) (model_of_expr b.now) }
{
    match op {
        Op2::Add => !is_shape_sum(a, b),
        _ => can_swap(op),
    }
}

// What is left of a choice behind the operators of a level, whose bits are its lowest.
fn left_of(expr: &Expr, level: u64, choice: u16) -> u16
    ensures { result ≡ left_of_term level choice (model_of_expr expr.now) }
{
    match expr {
        Expr::Word(_) | Expr::Reg(..) | Expr::Const { .. } => choice,
        Expr::Read(a, _)
        | Expr::Cell(a, _)
        | Expr::Un(_, a)
        | Expr::Slice(a, _, _)
        | Expr::Zext(a, _)
        | Expr::Sext(a, _) => {
            if level == 0 {
                choice
            } else {
                left_of(a, level - 1, choice)
            }
        }
        Expr::Bin(op, a, b) => {
            if level > 0 {
                let rest = left_of(a, level - 1, choice);
                left_of(b, level - 1, rest)
            } else if swaps_here(*op, a, b) {
                choice / 2
            } else {
                choice
            }
        }
        Expr::Cat(a, b) => {
            if level == 0 {
                choice
            } else {
                let rest = left_of(a, level - 1, choice);
                left_of(b, level - 1, rest)
            }
        }
        Expr::Select(c, a, b) => {
            if level == 0 {
                choice
            } else {
                let behind = left_of(c, level - 1, choice);
                let rest = left_of(a, level - 1, behind);
                left_of(b, level - 1, rest)
            }
        }
    }
}

// How many operators of an expression can be swapped, 8 standing for more.
fn swaps_of(expr: &Expr) -> u8
    ensures { result ≡ min 8 (swaps_of_term (model_of_expr expr.now)) }
{
    match expr {
        Expr::Word(_) | Expr::Reg(..) | Expr::Const { .. } => 0,
        Expr::Read(a, _)
        | Expr::Cell(a, _)
        | Expr::Un(_, a)
        | Expr::Slice(a, _, _)
        | Expr::Zext(a, _)
        | Expr::Sext(a, _) => swaps_of(a),
        Expr::Bin(op, a, b) => {
            let here = if swaps_here(*op, a, b) { 1 } else { 0 };
            (here + (swaps_of(a) + swaps_of(b))).min(8)
        }
        Expr::Cat(a, b) => (swaps_of(a) + swaps_of(b)).min(8),
        Expr::Select(c, a, b) => (swaps_of(c) + (swaps_of(a) + swaps_of(b))).min(8),
    }
}

// Swaps the operator at the root, where it can be swapped and the choice's lowest bit is set, and
// gives what is left of the choice.
fn swap_root(expr: &mut Expr, choice: u16) -> u16
    ensures left { result ≡ left_of_term 0 choice (model_of_expr expr.old) }
    ensures swapped { model_of_expr expr.new ≡ swap_level_of 0 choice (model_of_expr expr.old) }
{
    let Expr::Bin(op, a, b) = expr else {
        return choice;
    };
    if !swaps_here(*op, a, b) {
        return choice;
    }
    if choice % 2 == 1 {
        std::mem::swap(a, b);
    }
    choice / 2
}

// Swaps the chosen operators of a level, whose bits are the lowest of the choice, and gives what is
// left of it.
fn swap_level(expr: &mut Expr, level: u64, choice: u16) -> u16
    ensures left { result ≡ left_of_term level choice (model_of_expr expr.old) }
    ensures swapped { model_of_expr expr.new ≡ swap_level_of level choice (model_of_expr expr.old) }
{
    if level == 0 {
        return swap_root(expr, choice);
    }
    match expr {
        Expr::Word(_) | Expr::Reg(..) | Expr::Const { .. } => choice,
        Expr::Read(a, _) => swap_level(a, level - 1, choice),
        Expr::Cell(a, _) => swap_level(a, level - 1, choice),
        Expr::Un(_, a) => swap_level(a, level - 1, choice),
        Expr::Slice(a, _, _) => swap_level(a, level - 1, choice),
        Expr::Zext(a, _) => swap_level(a, level - 1, choice),
        Expr::Sext(a, _) => swap_level(a, level - 1, choice),
        Expr::Bin(_, a, b) => {
            let rest = swap_level(a, level - 1, choice);
            swap_level(b, level - 1, rest)
        }
        Expr::Cat(a, b) => {
            let rest = swap_level(a, level - 1, choice);
            swap_level(b, level - 1, rest)
        }
        Expr::Select(c, a, b) => {
            let behind = swap_level(c, level - 1, choice);
            let rest = swap_level(a, level - 1, behind);
            swap_level(b, level - 1, rest)
        }
    }
}

// How many levels an expression has.
fn levels(expr: &Expr) -> u64
    requires { levels_of (model_of_expr expr.now) < 2 ^ 64 }
    ensures { result ≡ levels_of (model_of_expr expr.now) }
{
    match expr {
        Expr::Word(_) | Expr::Reg(..) | Expr::Const { .. } => 1,
        Expr::Read(a, _)
        | Expr::Cell(a, _)
        | Expr::Un(_, a)
        | Expr::Slice(a, _, _)
        | Expr::Zext(a, _)
        | Expr::Sext(a, _) => levels(a) + 1,
        Expr::Bin(_, a, b) | Expr::Cat(a, b) => levels(a).max(levels(b)) + 1,
        Expr::Select(c, a, b) => levels(c).max(levels(a).max(levels(b))) + 1,
    }
}

// Swaps the chosen operators of so many levels from this one on, and gives what is left of the
// choice. A swap moves the operators below it, so they go first.
fn swap_levels(expr: &mut Expr, levels: u64, level: u64, choice: u16) -> u16
    requires { level + levels < 2 ^ 64 }
    ensures left { result ≡ left_levels levels level choice (model_of_expr expr.old) }
    ensures swapped { model_of_expr expr.new ≡ swap_levels_of levels level choice (model_of_expr expr.old) }
{
    if levels == 0 {
        return choice;
    }
    let rest = left_of(expr, level, choice);
    let left = swap_levels(expr, levels - 1, level + 1, rest);
    swap_level(expr, level, choice);
    left
}

// Swaps the chosen operators of an expression, and gives what is left of the choice behind them.
fn swap_expr(expr: &mut Expr, choice: u16) -> u16
    requires { levels_of (model_of_expr expr.old) < 2 ^ 64 }
    ensures left { result ≡ left_behind choice (operator_paths (model_of_expr expr.old)) }
    ensures swapped { model_of_expr expr.new ≡ swap_at (picks choice (operator_paths (model_of_expr expr.old))) (model_of_expr expr.old) }
{
    let levels = levels(expr);
    swap_levels(expr, levels, 0, choice)
}

/// The address of a transfer, where it has one, and its value.
#[derive(Drop)]
pub struct Sides {
    pub addr: Option<Expr>,
    pub value: Expr,
}

// How many operators of an address can be swapped, 8 standing for more.
fn addr_swaps(addr: &Option<Expr>) -> u8
    ensures { result ≡ min 8 (addr_swaps_of (option_map model_of_expr addr.now)) }
{
    match addr {
        Some(addr) => swaps_of(addr),
        None => 0,
    }
}

// Swaps the chosen operators of an address, and gives what is left of the choice behind them.
fn swap_addr(addr: &mut Option<Expr>, choice: u16) -> u16
    requires { IsAddrWithin (2 ^ 64 - 1) (option_map model_of_expr addr.old) }
    ensures left { result ≡ left_behind choice (addr_paths (option_map model_of_expr addr.old)) }
    ensures swapped { option_map model_of_expr addr.new
        ≡ option_map (swap_at (picks choice (addr_paths (option_map model_of_expr addr.old)))) (option_map model_of_expr addr.old) }
{
    match addr {
        Some(addr) => swap_expr(addr, choice),
        None => choice,
    }
}

/// How many operators of an address and a value can be swapped; 8 where there are more, since no
/// more than eight are.
pub fn swap_count(sides: &Sides) -> u8
    ensures count { result ≡ swap_count_of (model_of_sides sides.now) }
    ensures few { result ≤ 8 }
{
    (addr_swaps(&sides.addr) + swaps_of(&sides.value)).min(8)
}

/// Swaps the operators whose bit is set in the choice, of which the lowest eight count: those of the
/// address before those of the value, each level by level from the root.
pub fn swap_sides(sides: &mut Sides, choice: u16)
    requires { SidesWithin (2 ^ 64 - 1) (model_of_sides sides.old) }
    ensures { model_of_sides sides.new ≡ swapped choice (model_of_sides sides.old) }
{
    // no more than eight operators are swapped
    let chosen = choice % 256;
    let rest = swap_addr(&mut sides.addr, chosen);
    swap_expr(&mut sides.value, rest);
}
