//! The parts of branches.

ghost use Rattle.std.specs.Prelude.{◌≡◌, ◌<◌, ◌≤◌, ◌&&◌, true, length, option_map, IfSome};
ghost use Rattle.form_model.specs.Shapes.{is_shape_in, shows};
ghost use Rattle.form_set.specs.Inner.Copies.{AreBranchIds, id_target, ids_branch};
ghost use Rattle.form_set.specs.Listing.{counter_at};
ghost use Rattle.form_set.specs.Targets.{allowed_target, branch_if, relative_target, select_branch, expr_branch};
ghost use Rattle.net_model.specs.Exprs.{expr_width};
ghost use Rattle.sym_expr.specs.Pools.{expr_of_id};
ghost use Rattle.transfer_set.specs.Stepping.{is_next};

use crate::shapes::{is_shape_in, shape_reach, shape_shows};
use net_model::Checked;
use rec_bits::Op2;
use sym_expr::{ExprId, Node, Pool};
use transfer_set::{Counter, is_register, is_step};

// Where a branch goes: to an address, or so many words on.
#[derive(Clone, Copy)]
pub(crate) struct TargetId {
    pub(crate) relative: bool,
    pub(crate) expr: ExprId,
}

// A branch, by its condition and its target, and whether it goes there where the condition is 1.
#[derive(Clone, Copy)]
pub(crate) struct BranchIds {
    pub(crate) when_one: bool,
    pub(crate) test: ExprId,
    pub(crate) target: TargetId,
}

// Which targets are used: those of an edition of netlist texts and of a program counter, with
// addresses that reach at least so far.
#[derive(Clone, Copy)]
struct TargetRules {
    edition: u8,
    counter: Counter,
    reach: u64,
}

// Whether an expression is a distance that is used.
fn is_distance(pool: &Pool, edition: u8, expr: ExprId) -> bool
    requires within { expr < length pool.now }
    requires narrow { expr_width (expr_of_id pool.now expr) ≤ 16 }
    ensures { result ≡ (is_shape_in edition (expr_of_id pool.now expr) && shows (expr_of_id pool.now expr) 2) }
{
    if is_shape_in(pool, edition, expr) {
        shape_shows(pool, expr, 2)
    } else {
        false
    }
}

// The distance of a relative target.
fn distance_at(pool: &Pool, rules: TargetRules, expr: ExprId) -> Option<TargetId>
    requires within { expr < length pool.now }
    requires narrow { expr_width (expr_of_id pool.now expr) ≤ 16 }
    ensures known { IfSome result (λ target. target.expr < length pool.now) }
    ensures target { option_map (id_target pool.now) result
        ≡ relative_target rules.edition rules.counter (expr_of_id pool.now expr) }
{
    match pool.node(expr) {
        Node::Bin(Op2::Add, a, b) => {
            if is_register(pool, a, rules.counter) && is_distance(pool, rules.edition, b) {
                Some(TargetId {
                    relative: true,
                    expr: b,
                })
            } else if is_register(pool, b, rules.counter) && is_distance(pool, rules.edition, a) {
                Some(TargetId {
                    relative: true,
                    expr: a,
                })
            } else {
                None
            }
        }
        _ => None,
    }
}

// The target that an expression is, where it is used.
fn target_at(pool: &Pool, rules: TargetRules, expr: ExprId) -> Option<TargetId>
    requires within { expr < length pool.now }
    requires narrow { expr_width (expr_of_id pool.now expr) ≤ 16 }
    ensures known { IfSome result (λ target. target.expr < length pool.now) }
    ensures target { option_map (id_target pool.now) result
        ≡ allowed_target rules.edition rules.counter rules.reach (expr_of_id pool.now expr) }
{
    if is_shape_in(pool, rules.edition, expr) && rules.reach <= shape_reach(pool, expr) {
        Some(TargetId {
            relative: false,
            expr,
        })
    } else {
        distance_at(pool, rules, expr)
    }
}

// The branch with this condition, where one expression is the step and the other a target that is
// used.
fn branch_to(
    pool: &Pool,
    rules: TargetRules,
    when_one: bool,
    test: ExprId,
    to: ExprId,
    step: ExprId,
) -> Option<BranchIds>
    requires test { test < length pool.now }
    requires to { to < length pool.now }
    requires step { step < length pool.now }
    requires narrow { expr_width (expr_of_id pool.now to) ≤ 16 }
    ensures known { IfSome result (AreBranchIds (length pool.now)) }
    ensures branch { option_map (ids_branch pool.now) result
        ≡ branch_if (is_next rules.counter (expr_of_id pool.now step)) when_one (expr_of_id pool.now test)
        (allowed_target rules.edition rules.counter rules.reach (expr_of_id pool.now to)) }
{
    if !is_step(pool, step, rules.counter) {
        return None;
    }
    let target = target_at(pool, rules, to)?;
    Some(BranchIds {
        when_one,
        test,
        target,
    })
}

// The branch that a choice is as the program counter's next value, by its condition and what it
// chooses from.
fn choice_at(
    pool: &Pool,
    rules: TargetRules,
    test: ExprId,
    a: ExprId,
    b: ExprId,
) -> Option<BranchIds>
    requires test { test < length pool.now }
    requires first { a < length pool.now }
    requires second { b < length pool.now }
    requires narrow_first { expr_width (expr_of_id pool.now a) ≤ 16 }
    requires narrow_second { expr_width (expr_of_id pool.now b) ≤ 16 }
    ensures known { IfSome result (AreBranchIds (length pool.now)) }
    ensures branch { option_map (ids_branch pool.now) result
        ≡ select_branch rules.edition rules.counter rules.reach
        (expr_of_id pool.now test) (expr_of_id pool.now a) (expr_of_id pool.now b) }
{
    match branch_to(pool, rules, true, test, a, b) {
        Some(branch) => Some(branch),
        None => branch_to(pool, rules, false, test, b, a),
    }
}

// The branch that an expression is as the program counter's next value.
pub(crate) fn branch_at(
    checked: &Checked,
    pool: &Pool,
    reach: u64,
    value: ExprId,
) -> Option<BranchIds>
    requires within { value < length pool.now }
    requires narrow { expr_width (expr_of_id pool.now value) ≤ 16 }
    ensures known { IfSome result (AreBranchIds (length pool.now)) }
    ensures branch { option_map (ids_branch pool.now) result
        ≡ expr_branch checked.now.netlist.edition (counter_at checked.now.netlist) reach (expr_of_id pool.now value) }
{
    let rules = TargetRules {
        edition: checked.netlist().edition,
        counter: Counter::of(checked),
        reach,
    };
    match pool.node(value) {
        Node::Select(test, a, b) => choice_at(pool, rules, test, a, b),
        _ => None,
    }
}
