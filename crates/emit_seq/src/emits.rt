//! The steps of a cover.

ghost use Rattle.std.specs.Prelude.{◌≡◌, IfOk, map, true};
ghost use Rattle.form_model.specs.Covers.{Covers, IsOrderly, stock_with};
ghost use Rattle.form_model.specs.CoverModels.{model_of_cover};
ghost use Rattle.form_model.specs.Forms.{aim_destination};
ghost use Rattle.form_model.specs.Steps.{cover_steps, cover_setting};
ghost use Rattle.form_model.specs.Trees.{model_of_tree};
ghost use Rattle.tree_grammar.specs.Leaves.{model_of_destination};
ghost use Rattle.emit_seq.specs.Emits.{IsEmitted, branch_of as branch_setting_of, setting_of_test};
ghost use Rattle.emit_seq.specs.Models.{model_of_stock};

use crate::cuts::all_steps;
use crate::roots::{Covered, Stock, root_of};
use form_model::{Cover, Forms, Job, Step, Tree};
use rec_bits::{Items, NoMemory};
use std::alloc::Global;
use tree_grammar::Destination;

/// The steps of a job, and for a test the setting of the bits of its branch's condition, with 0 in
/// all other bits.
#[derive(Drop)]
pub struct Emitted {
    pub steps: Items<Step>,
    pub branch: Option<u64>,
}

// For a test, the setting of the bits of its branch's condition.
fn branch_of<'a>(
    alloc: Global,
    stock: Stock<'a>,
    cover: &Cover,
    covered: Covered<'a>,
) -> Result<Option<u64>, NoMemory>
    requires { IsOrderly (model_of_stock stock) (model_of_destination covered.destination)
        (model_of_tree covered.tree.now) covered.whole (model_of_cover cover.now) }
    ensures { IfOk result (λ branch. branch
        ≡ setting_of_test (model_of_destination covered.entry.destination)
        (cover_setting (model_of_stock stock.entry) (model_of_cover cover.now) covered.entry.first covered.entry.held
        (model_of_destination covered.entry.destination) (model_of_tree covered.entry.tree.now)
        covered.entry.whole)) }
{
    match covered.destination {
        Destination::Test => {
            let root = root_of(alloc, stock, cover, covered)?;
            Ok(Some(root.step.setting))
        }
        _ => Ok(None),
    }
}

fn emit_at<'a>(
    alloc: Global,
    stock: Stock<'a>,
    cover: &Cover,
    destination: Destination<'a>,
    tree: &'a Tree,
) -> Result<Emitted, NoMemory>
    requires { IsOrderly (model_of_stock stock) (model_of_destination destination) (model_of_tree tree.now) true
        (model_of_cover cover.now) }
    ensures steps { IfOk result (λ e. e.steps
        ≡ cover_steps (model_of_stock stock.entry) (model_of_destination destination.entry) (model_of_tree tree.now)
        (model_of_cover cover.now)) }
    ensures branch { IfOk result (λ e. e.branch
        ≡ branch_setting_of (model_of_stock stock.entry) (model_of_destination destination.entry)
        (model_of_tree tree.now) (model_of_cover cover.now)) }
{
    let covered = Covered {
        tree,
        destination,
        whole: true,
        first: 0,
        held: 0,
    };
    let branch = branch_of(alloc, stock, cover, covered)?;
    let steps = all_steps(alloc, stock, cover, covered)?;
    Ok(Emitted { steps, branch })
}

/// The steps of a job whose tree of number `which` this orderly cover covers: first those that put
/// its cuts into the temporary cells 0, 1 and so on, from left to right and a cut after those
/// inside it, then those of its operands in their order, and then the form's own. A test's branch
/// is no step.
pub fn emit(
    alloc: Global,
    forms: &Forms,
    job: &Job,
    which: usize,
    cover: &Cover,
    temps: u32,
) -> Result<Emitted, NoMemory>
    requires { Covers (stock_with forms.now.list.items temps forms.now.file) (aim_destination job.now.aim)
        (map model_of_tree job.now.trees.items) (record { which = which; cover = model_of_cover cover.now }) }
    ensures { IfOk result (λ e. IsEmitted (stock_with forms.now.list.items temps forms.now.file) (aim_destination job.now.aim)
        (map model_of_tree job.now.trees.items) (record { which = which; cover = model_of_cover cover.now }) e) }
{
    let stock = Stock {
        forms: forms.list.as_slice(),
        temps,
        file: forms.file,
    };
    let tree = &job.trees[which];
    emit_at(alloc, stock, cover, Destination::of(&job.aim), tree)
}
