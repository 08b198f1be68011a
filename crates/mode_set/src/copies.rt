//! Copies of forms.

ghost use Rattle.std.specs.Prelude.{◌≡◌, IfOk, option_map};
ghost use Rattle.form_model.specs.Forms.{model_of_target, model_of_goal, model_of_form};
ghost use Rattle.net_model.specs.Exprs.{model_of_expr};

use form_model::{Form, Goal, Target};
use net_model::Expr;
use rec_bits::NoMemory;
use std::alloc::Global;

// A copy of an expression.
#[cycle(copying)]
fn copy_expr(alloc: Global, expr: &Expr) -> Result<Expr, NoMemory>
    ensures { IfOk result (λ copy. model_of_expr copy ≡ model_of_expr expr.now) }
{
    Ok(match expr {
        Expr::Word(width) => Expr::Word(*width),
        Expr::Reg(register, width) => Expr::Reg(*register, *width),
        Expr::Const { width, value } => Expr::Const {
            width: *width,
            value: *value,
        },
        Expr::Read(addr, width) => Expr::Read(copy_operand(alloc, addr)?, *width),
        Expr::Cell(addr, width) => Expr::Cell(copy_operand(alloc, addr)?, *width),
        Expr::Un(op, a) => Expr::Un(*op, copy_operand(alloc, a)?),
        Expr::Bin(op, a, b) => { Expr::Bin(*op, copy_operand(alloc, a)?, copy_operand(alloc, b)?) }
        Expr::Slice(a, hi, lo) => Expr::Slice(copy_operand(alloc, a)?, *hi, *lo),
        Expr::Cat(a, b) => Expr::Cat(copy_operand(alloc, a)?, copy_operand(alloc, b)?),
        Expr::Zext(a, width) => Expr::Zext(copy_operand(alloc, a)?, *width),
        Expr::Sext(a, width) => Expr::Sext(copy_operand(alloc, a)?, *width),
        Expr::Select(c, a, b) => Expr::Select(
            copy_operand(alloc, c)?,
            copy_operand(alloc, a)?,
            copy_operand(alloc, b)?,
        ),
    })
}

// A copy of an operand.
#[cycle(copying)]
fn copy_operand(alloc: Global, expr: &Expr) -> Result<Box<Expr>, NoMemory>
    ensures { IfOk result (λ held. model_of_expr held.value ≡ model_of_expr expr.now) }
{
    let copy = copy_expr(alloc, expr)?;
    let held = Box::new(alloc, copy)?;
    Ok(held)
}

// A copy of an address, if there is one.
fn copy_addr(alloc: Global, addr: &Option<Expr>) -> Result<Option<Expr>, NoMemory>
    ensures { IfOk result (λ copy. option_map model_of_expr copy ≡ option_map model_of_expr addr.now) }
{
    match addr {
        Some(expr) => Ok(Some(copy_expr(alloc, expr)?)),
        None => Ok(None),
    }
}

// A copy of a branch's target.
fn copy_target(alloc: Global, target: &Target) -> Result<Target, NoMemory>
    ensures { IfOk result (λ copy. model_of_target copy ≡ model_of_target target.now) }
{
    match target {
        Target::Absolute(expr) => Ok(Target::Absolute(copy_expr(alloc, expr)?)),
        Target::Relative(expr) => Ok(Target::Relative(copy_expr(alloc, expr)?)),
    }
}

// A copy of a goal.
fn copy_goal(alloc: Global, goal: &Goal) -> Result<Goal, NoMemory>
    ensures { IfOk result (λ copy. model_of_goal copy ≡ model_of_goal goal.now) }
{
    Ok(match goal {
        Goal::Reg(id) => Goal::Reg(*id),
        Goal::Memory => Goal::Memory,
        Goal::File => Goal::File,
        Goal::Jump { reach } => Goal::Jump { reach: *reach },
        Goal::Branch { when_one, target } => Goal::Branch {
            when_one: *when_one,
            target: copy_target(alloc, target)?,
        },
    })
}

/// A copy of a form. The only error is want of memory.
pub(crate) fn copy_form(alloc: Global, form: &Form) -> Result<Form, NoMemory>
    ensures { IfOk result (λ copy. model_of_form copy ≡ model_of_form form.now) }
{
    let goal = copy_goal(alloc, &form.goal)?;
    let addr = copy_addr(alloc, &form.addr)?;
    let value = copy_expr(alloc, &form.value)?;
    Ok(Form {
        pattern: form.pattern,
        goal,
        addr,
        value,
        fields: form.fields,
        clobbers: form.clobbers,
        tied: form.tied,
    })
}
