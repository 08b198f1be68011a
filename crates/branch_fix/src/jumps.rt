//! Jump and branch words.

ghost use Rattle.std.specs.Prelude.{◌≡◌, IfOk, MatchOption, None, Some, bit_or, slice_get, unwrap_or};
ghost use Rattle.net_model.specs.Exprs.{model_of_expr};
ghost use Rattle.form_model.specs.Forms.{model_of_goal, model_of_form, models_of_forms};
ghost use Rattle.form_model.specs.Shapes.{shape_setting};
ghost use Rattle.branch_fix.specs.Items.{branch_step, jump_form, jump_step, goal_setting, reaches, form_in};

use crate::cut::form_at;
use crate::part::BranchedTest;
use crate::widen::distance;
use form_model::{Form, Goal, Step, Target};
use net_model::Expr;
use rec_bits::NoMemory;
use tree_grammar::setting_of;

fn reaches(form: &Form, reach: u64) -> bool
    ensures { result ≡ reaches (model_of_goal form.now.goal) reach }
{
    match &form.goal {
        Goal::Jump { reach: own } => *own == reach,
        _ => false,
    }
}

/// The first jump form of this reach.
pub fn jump_form(forms: &[Form], reach: u64) -> Option<&Form>
    ensures { MatchOption result (jump_form (models_of_forms forms.now) reach ≡ None) (λ form.
        jump_form (models_of_forms forms.now) reach ≡ Some (model_of_form form.now)) }
{
    for form in forms {
        if reaches(form, reach) {
            return Some(form);
        }
    }
    None
}

// The bits that give a field shape a value, and none where it doesn't show it.
fn setting(shape: &Expr, value: u64) -> Result<u64, NoMemory>
    ensures { IfOk result (λ bits. bits ≡ unwrap_or (shape_setting (model_of_expr shape.now) value) 0) }
{
    let bits = setting_of(shape, value)?;
    Ok(bits.unwrap_or(0))
}

// The bits of a branch form's target; a branch of three words goes two words on.
fn kind_setting(form: &Form, from: u64, to: u64, long: bool) -> Result<u64, NoMemory>
    ensures { IfOk result (λ bits. bits ≡ goal_setting (model_of_goal form.now.goal) from to long) }
{
    match &form.goal {
        Goal::Branch {
            target: Target::Absolute(shape),
            ..
        } => setting(shape, to),
        Goal::Branch {
            target: Target::Relative(shape),
            ..
        } => {
            if long {
                setting(shape, 2)
            } else {
                setting(shape, distance(shape, from, to))
            }
        }
        _ => Ok(0),
    }
}

/// The branch word of a test, from an address to another.
pub fn branch_step(forms: &[Form], fork: BranchedTest, from: u64, to: u64) -> Result<Step, NoMemory>
    ensures { IfOk result (λ step. step
        ≡ branch_step (slice_get (models_of_forms forms.now) fork.form) fork.setting from to fork.long) }
{
    match form_at(forms, fork.form) {
        None => Ok(Step {
            pattern: 0,
            setting: 0,
        }),
        Some(form) => {
            let target = kind_setting(form, from, to, fork.long)?;
            Ok(Step {
                pattern: form.pattern,
                setting: fork.setting | target,
            })
        }
    }
}

/// The jump word to an address.
pub fn jump_step(jump: Option<&Form>, to: u64) -> Result<Step, NoMemory>
    ensures { IfOk result (λ step. step ≡ jump_step (form_in jump.entry) to) }
{
    match jump {
        None => Ok(Step {
            pattern: 0,
            setting: 0,
        }),
        Some(form) => {
            let setting = setting(&form.value, to)?;
            Ok(Step {
                pattern: form.pattern,
                setting,
            })
        }
    }
}
