//! The steps of a program's statements.

ghost use Rattle.std.specs.Prelude.{◌≡◌, ◌+◌, ◌<◌, ◌≤◌, ◌^◌, ℕ, List, OnOk, map, length};
ghost use Rattle.src_model.specs.Written.{model_of_stmt, stmts_of, model_of_spot, model_of_src_expr, model_of_src_test, model_of_src_node};
ghost use Rattle.src_model.specs.Loops.{place_shape};
ghost use Rattle.src_model.specs.Sizes.{statements, statements_in};
ghost use Rattle.src_model.specs.Meaning.{assigned, holds};
ghost use Rattle.src_model.specs.Trace.{started, stepped, counting};
ghost use Rattle.src_model.specs.Fitting.{Fitting, FitsWord, FitsSides};
ghost use Rattle.src_model.specs.Inner.Fitting.{FitsCount, FitsStmt, FitsStmts};
ghost use Rattle.rec_bits.specs.Operators.{IsWidth};
ghost use Rattle.src_eval.specs.Inner.Laid.{IsDoing, IsAsking, entry, Laid, LaidIn, Pushed, Ready, Built};

use crate::formula::{Comparison, Formula};
use crate::machine::Step;
use crate::resolve::{resolve, resolve_index, resolve_test};
use crate::table::Scope;
use rec_bits::{Items, Name, NoMemory, Op2};
use src_model::{Cmp, Spot, SrcExpr, SrcTest, Stmt, block_sizes};
use std::alloc::Global;

// The number of trees of some statements.
fn trees_in(block: &[Stmt]) -> usize
    requires { statements_in (stmts_of (map model_of_stmt block.now)) ≤ 65536 }
    ensures { result ≡ statements_in (stmts_of (map model_of_stmt block.now)) }
{
    block_sizes(1, block).statements as usize
}

fn trees(statement: &Stmt) -> usize
    requires { statements (model_of_stmt statement.now) ≤ 65536 }
    ensures { result ≡ statements (model_of_stmt statement.now) }
{
    match statement {
        Stmt::Assign { .. } => 1,
        Stmt::If { yes, no, .. } => {
            let taken = trees_in(yes);
            match no {
                None => 1 + taken,
                Some(other) => 1 + taken + trees_in(other),
            }
        }
        Stmt::While { body, .. } => 1 + trees_in(body),
        Stmt::For { body, .. } => 3 + trees_in(body),
    }
}

// Where a block begins whose first tree has this number; an empty one is what comes after it.
fn entry(block: &[Stmt], tree: usize, next: usize) -> usize
    ensures { result ≡ entry (stmts_of (map model_of_stmt block.now)) tree next }
{
    match block.split_first() {
        None => next,
        Some((_first, _rest)) => tree,
    }
}

// The step of an assignment.
fn push_assign(
    alloc: Global,
    scope: &Scope<'_>,
    steps: &mut Items<Step>,
    place: &Spot,
    e: &SrcExpr,
    next: usize,
) -> Result<(), NoMemory>
    requires word { IsWidth scope.now.word }
    requires place { Fitting scope.now.word scope.now.word (place_shape (model_of_spot place.now)) }
    requires value { FitsWord scope.now.word (model_of_src_node e.now.node) }
    ensures { OnOk result (Pushed scope.now.word steps.old steps.new
        (IsDoing (assigned scope.now.word scope.now.table (model_of_spot place.now) (model_of_src_expr e.now)) next)) }
{
    let first = scope.table.first_cell(&place.name);
    let index = resolve_index(alloc, scope, place)?;
    let value = resolve(alloc, scope, scope.word, e)?;
    steps.push(Step::Assign {
        first,
        index,
        value,
        next,
    })?;
    Ok(())
}

// The start of a `for`.
fn push_start(
    scope: &Scope<'_>,
    steps: &mut Items<Step>,
    counter: &Name,
    from: u64,
    next: usize,
) -> Result<(), NoMemory>
    requires { from < 2 ^ scope.now.word }
    ensures { OnOk result (Pushed scope.now.word steps.old steps.new
        (IsDoing (started scope.now.table counter.now from) next)) }
{
    steps.push(Step::Assign {
        first: scope.table.first_cell(counter),
        index: Formula::Number(0),
        value: Formula::Number(from),
        next,
    })?;
    Ok(())
}

// The step of a `for`.
fn push_step(
    alloc: Global,
    scope: &Scope<'_>,
    steps: &mut Items<Step>,
    counter: &Name,
    next: usize,
) -> Result<(), NoMemory>
    requires word { IsWidth scope.now.word }
    ensures { OnOk result (Pushed scope.now.word steps.old steps.new
        (IsDoing (stepped scope.now.word scope.now.table counter.now) next)) }
{
    let first = scope.table.first_cell(counter);
    let count = Box::new(alloc, Formula::Cell(first))?;
    let one = Box::new(alloc, Formula::Number(1))?;
    steps.push(Step::Assign {
        first,
        index: Formula::Number(0),
        value: Formula::Bin(Op2::Add, scope.word, count, one),
        next,
    })?;
    Ok(())
}

// The step of a test.
fn push_test(
    alloc: Global,
    scope: &Scope<'_>,
    steps: &mut Items<Step>,
    test: &SrcTest,
    on_true: usize,
    on_false: usize,
) -> Result<(), NoMemory>
    requires word { IsWidth scope.now.word }
    requires fitting { FitsSides scope.now.word (model_of_src_node test.now.left.node) (model_of_src_node test.now.right.node) }
    ensures { OnOk result (Pushed scope.now.word steps.old steps.new
        (IsAsking (holds scope.now.word scope.now.table (model_of_src_test test.now)) on_true on_false)) }
{
    let test = resolve_test(alloc, scope, test)?;
    steps.push(Step::Test {
        test,
        on_true,
        on_false,
    })?;
    Ok(())
}

// The test of a `for`.
fn push_counting(
    scope: &Scope<'_>,
    steps: &mut Items<Step>,
    counter: &Name,
    to: u64,
    on_true: usize,
    on_false: usize,
) -> Result<(), NoMemory>
    requires word { IsWidth scope.now.word }
    requires last { to + 1 < 2 ^ scope.now.word }
    ensures { OnOk result (Pushed scope.now.word steps.old steps.new
        (IsAsking (counting scope.now.table counter.now to) on_true on_false)) }
{
    let test = Comparison {
        cmp: Cmp::Ne,
        width: scope.word,
        left: Formula::Cell(scope.table.first_cell(counter)),
        right: Formula::Number(to + 1),
    };
    steps.push(Step::Test {
        test,
        on_true,
        on_false,
    })?;
    Ok(())
}

/// Adds the steps of a statement, behind which the run goes on at `next`.
#[cycle(build)]
pub fn build(
    alloc: Global,
    scope: &Scope<'_>,
    steps: &mut Items<Step>,
    statement: &Stmt,
    next: usize,
) -> Result<(), NoMemory>
    requires ready { Ready scope.now.word steps.old (statements (model_of_stmt statement.now)) next }
    requires fits { FitsStmt scope.now.word (model_of_stmt statement.now) }
    ensures { OnOk result (Built scope.now.word steps.old steps.new (statements (model_of_stmt statement.now)) (λ last.
        Laid scope.now.word scope.now.table last (model_of_stmt statement.now) (length steps.old) next)) }
{
    match statement {
        Stmt::Assign { place, value } => { push_assign(alloc, scope, steps, place, value, next) }
        Stmt::If { test, yes, no } => {
            let tree = steps.len();
            let on_true = entry(yes, tree + 1, next);
            match no {
                None => {
                    push_test(alloc, scope, steps, test, on_true, next)?;
                    build_block(alloc, scope, steps, yes, next)
                }
                Some(other) => {
                    let on_false = entry(other, tree + 1 + trees_in(yes), next);
                    push_test(alloc, scope, steps, test, on_true, on_false)?;
                    build_block(alloc, scope, steps, yes, next)?;
                    build_block(alloc, scope, steps, other, next)
                }
            }
        }
        Stmt::While { test, body } => {
            let tree = steps.len();
            let on_true = entry(body, tree + 1, tree);
            push_test(alloc, scope, steps, test, on_true, next)?;
            build_block(alloc, scope, steps, body, tree)
        }
        Stmt::For {
            counter,
            at: _,
            from,
            to,
            body,
        } => {
            let tree = steps.len();
            let step = tree + 2 + trees_in(body);
            let on_true = entry(body, tree + 2, step);
            push_start(scope, steps, counter, *from, tree + 1)?;
            push_counting(scope, steps, counter, *to, on_true, next)?;
            build_block(alloc, scope, steps, body, step)?;
            push_step(alloc, scope, steps, counter, tree + 1)
        }
    }
}

/// Adds the steps of a block's statements, behind which the run goes on at `next`.
#[cycle(build)]
pub fn build_block(
    alloc: Global,
    scope: &Scope<'_>,
    steps: &mut Items<Step>,
    block: &[Stmt],
    next: usize,
) -> Result<(), NoMemory>
    requires ready { Ready scope.now.word steps.old (statements_in (stmts_of (map model_of_stmt block.now))) next }
    requires fits { FitsStmts scope.now.word (stmts_of (map model_of_stmt block.now)) }
    ensures { OnOk result (Built scope.now.word steps.old steps.new
        (statements_in (stmts_of (map model_of_stmt block.now))) (λ last.
        LaidIn scope.now.word scope.now.table last (stmts_of (map model_of_stmt block.now)) (length steps.old) next)) }
{
    let mut left = block;
    while let Some((statement, rest)) = left.split_first() {
        let after = entry(rest, steps.len() + trees(statement), next);
        build(alloc, scope, steps, statement, after)?;
        left = rest;
    }
    Ok(())
}
