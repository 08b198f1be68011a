//! What a cover has to keep to: registers that it doesn't write, and cells of the file.

ghost use Rattle.std.specs.Prelude.{◌≡◌};
ghost use Rattle.std.specs.Bool.{OnTrue, OnFalse};
ghost use Rattle.form_model.specs.Forms.{model_of_goal};
ghost use Rattle.form_model.specs.Covers.{cells_of_goal};
ghost use Rattle.tree_grammar.specs.Leaves.{model_of_home};
ghost use Rattle.least_costs.specs.Subgoals.{KeepsTo, after, is_free};
ghost use Rattle.least_costs.specs.Slots.{IsLowHome};

use form_model::{Goal, RegSet};
use tree_grammar::Home;

/// What a cover has to keep to: the registers that it doesn't write, and how many cells of the file
/// it may need.
#[derive(Clone, Copy)]
pub struct Limits {
    pub avoid: RegSet,
    pub allowed: u32,
}

/// What the operands behind one with this home have to keep to.
pub fn after_home(limits: Limits, home: Home) -> Limits
    requires { IsLowHome (model_of_home home) }
    ensures { result ≡ after limits (model_of_home home.entry) }
{
    match home {
        Home::Register(id) => Limits {
            avoid: limits.avoid | (1 << id),
            allowed: limits.allowed,
        },
        Home::File(_) => Limits {
            avoid: limits.avoid,
            allowed: limits.allowed.saturating_sub(1),
        },
    }
}

// Whether there is nothing to avoid and the whole file to use.
pub(crate) fn is_all_free(file: u32, limits: Limits) -> bool
    ensures { result ≡ is_free file limits }
{
    limits.avoid == 0 && limits.allowed == file
}

// The cells of the file in which a form leaves its value.
pub(crate) fn cells_of(goal: &Goal) -> u32
    ensures { result ≡ cells_of_goal (model_of_goal goal.now) }
{
    match goal {
        Goal::File => 1,
        _ => 0,
    }
}

/// Whether a form with these clobbers that leaves its value in so many cells of the file keeps to
/// the limits.
pub fn keeps_to(limits: Limits, clobbers: RegSet, cells: u32) -> bool
    ensures yes { OnTrue result (KeepsTo limits clobbers cells) }
    ensures no { OnFalse result (KeepsTo limits clobbers cells → ⊥) }
{
    clobbers & limits.avoid == 0 && cells <= limits.allowed
}
