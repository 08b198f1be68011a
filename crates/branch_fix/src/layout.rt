//! The layout of code.

ghost use Rattle.std.specs.Prelude.{◌≡◌, ◌+◌, ◌<◌, ◌≤◌, ◌^◌, IfOk, IfErr};
ghost use Rattle.form_model.specs.Forms.{models_of_forms};
ghost use Rattle.branch_fix.specs.Parts.{parts_of, starts, marks_from, total};
ghost use Rattle.branch_fix.specs.Rounds.{IsFixpoint};
ghost use Rattle.branch_fix.specs.Bounds.{control_words, sum_of};
ghost use Rattle.branch_fix.specs.Items.{jump_form, items_from};
ghost use Rattle.branch_fix.specs.Laid.{IsLaid, IsLayFault, model_of_outline};

use crate::cut::parts;
use crate::fault::LayFault;
use crate::items::items;
use crate::jumps::jump_form;
use crate::laid::Laid;
use crate::marks::marks;
use crate::outline::Outline;
use crate::part::LayoutPart;
use crate::rooms::{starts, total};
use crate::widen::settled;
use form_model::Forms;
use rec_bits::{Items, NoMemory};
use std::alloc::Global;

// The words and the marks of parts.
fn lay(alloc: Global, forms: &Forms, parts: &[LayoutPart]) -> Result<Laid, NoMemory>
    requires { total parts.now < 2 ^ 64 }
    ensures items { IfOk result (λ laid. laid.items ≡ items_from (models_of_forms forms.now.list.items)
        (jump_form (models_of_forms forms.now.list.items) forms.now.reach) (starts parts.now) 0 parts.now) }
    ensures marks { IfOk result (λ laid. laid.marks ≡ marks_from 0 parts.now) }
{
    let list = forms.list.as_slice();
    let jump = jump_form(list, forms.reach);
    let addresses = starts(alloc, parts)?;
    let items = items(alloc, list, jump, addresses.as_slice(), parts)?;
    let marks = marks(alloc, parts)?;
    Ok(Laid { items, marks })
}

// The parts of an outline's flow, after the rounds.
fn settled_parts(alloc: Global, outline: &Outline<'_>) -> Result<Items<LayoutPart>, NoMemory>
    requires { sum_of outline.now.sizes.now + control_words outline.now.flow.now < 2 ^ 64 }
    ensures { IfOk result (λ last. IsFixpoint (models_of_forms outline.now.forms.now.list.items)
        (parts_of (models_of_forms outline.now.forms.now.list.items) outline.now.flow.now outline.now.sizes.now
        outline.now.branches.now) last) }
{
    let first = parts(alloc, outline)?;
    settled(alloc, outline.forms.list.as_slice(), first)
}

/// Lays out code: where the words of its blocks stand, its jump and branch words, and its marks.
///
/// Refused are a code that may be longer than a jump reaches, and then one that is longer than
/// there is room for.
pub fn lay_out(alloc: Global, outline: &Outline<'_>) -> Result<Laid, LayFault>
    requires bound { sum_of outline.now.sizes.now + control_words outline.now.flow.now ≤ outline.now.bound }
    ensures laid { IfOk result (IsLaid (model_of_outline outline.now)) }
    ensures refused { IfErr result (IsLayFault (model_of_outline outline.now)) }
{
    let bound = outline.bound;
    let reach = outline.forms.reach;
    if bound > reach {
        return Err(LayFault::NoReach { bound, reach });
    }
    let parts = settled_parts(alloc, outline)?;
    let len = total(parts.as_slice());
    if len > outline.words {
        return Err(LayFault::ImageFull {
            len,
            size: outline.words,
            bound,
        });
    }
    let laid = lay(alloc, outline.forms, parts.as_slice())?;
    Ok(laid)
}
