//! The first rule that an image with views breaks.

ghost use Rattle.std.specs.Prelude.{◌≡◌, ◌≤◌, ◌↔◌, IfOk, IfNone, IfSome, IsTrue, Some};
ghost use Rattle.net_model.specs.Nets.{memory_size, memory_width};
ghost use Rattle.src_model.specs.Written.{model_of_program};
ghost use Rattle.code_model.specs.ImageFits.{IsFitting, limits_of};
ghost use Rattle.src_trees.specs.Flows.{program_flow};
ghost use Rattle.follow.specs.MarkFaults.{AreMarksRight, IsMarkFault};
ghost use Rattle.followed.specs.Inner.Ascending.{ComeFrom};
ghost use Rattle.check_command.specs.Inner.Stops.{IsBroken, IsPlaceStop, task_of};
ghost use Rattle.check_command.specs.Places.{ArePlacesRight};
ghost use Rattle.check_command.specs.Rules.{ArePlaced, EndsPlainly, HasTemps};
ghost use Rattle.check_command.specs.declared.fault.CheckFault.{CheckFault};

use crate::end_word::is_end_word;
use crate::fault::{CheckFault, CheckStop, RuleFault};
use crate::places::place_fault;
use crate::views::view_fault;
use code_model::{Image, Viewed};
use follow::{MarkFault, mark_fault, places_of};
use followed::addr_width;
use net_model::{Checked, Space};
use rec_bits::{Items, Name, NoMemory};
use src_model::Typed;
use src_trees::lower;
use std::alloc::Global;

// A broken rule that tells a name.
fn named(alloc: Global, fault: RuleFault, name: &Name) -> Result<CheckStop, NoMemory>
    ensures { IfOk result (λ stop. stop ≡ record { fault = CheckFault.Rule fault; name = Some name.now }) }
{
    let name = Items::from_slice(alloc, name.as_slice())?;
    Ok(CheckStop {
        fault: CheckFault::Rule(fault),
        name: Some(name),
    })
}

// What is wrong with the cells of variables and the temporary ones.
fn place_stop(
    alloc: Global,
    checked: &Checked,
    typed: &Typed,
    image: &Image,
) -> Result<Option<CheckStop>, NoMemory>
    ensures { IfOk result (IsPlaceStop checked.now.netlist (model_of_program typed.now.program) image.now) }
{
    let size = checked.size(Space::Memory);
    if let Some(name) = place_fault(typed.program().vars.as_slice(), image, size) {
        return Ok(Some(named(alloc, RuleFault::Place, name)?));
    }
    if image.temps > size {
        return Ok(Some(CheckStop::from(CheckFault::Rule(RuleFault::Temps))));
    }
    Ok(None)
}

// What is wrong with the marks.
fn marks_fault(
    alloc: Global,
    checked: &Checked,
    typed: &Typed,
    image: &Image,
) -> Result<Option<MarkFault>, NoMemory>
    requires fits { IsFitting (limits_of checked.now.netlist) image.now }
    requires word { memory_width checked.now.netlist.storages ≡ typed.now.width }
    requires placed { ArePlacesRight (model_of_program typed.now.program).vars image.now (memory_size checked.now.netlist.storages) }
    requires temps { image.now.temps ≤ memory_size checked.now.netlist.storages }
    ensures fault { IfOk result (λ found. IfSome found (IsMarkFault (program_flow (model_of_program typed.now.program)) image.now)) }
    ensures right { IfOk result (λ found. IfNone found (AreMarksRight (program_flow (model_of_program typed.now.program)) image.now)) }
{
    let places = places_of(alloc, image)?;
    let blocks = lower(alloc, typed, &places, addr_width(checked))?;
    Ok(mark_fault(blocks.flow.as_slice(), image))
}

// Whether the last word plainly goes to itself.
fn ends_plainly(alloc: Global, checked: &Checked, image: &Image) -> Result<bool, NoMemory>
    requires { IsFitting (limits_of checked.now.netlist) image.now }
    ensures { IfOk result (λ said. IsTrue said ↔ EndsPlainly checked.now.netlist image.now) }
{
    let _netlist = checked.netlist();
    let words = image.words.as_slice();
    let count = words.len();
    if count == 0 {
        return Ok(false);
    }
    let last = count - 1;
    is_end_word(alloc, checked, words[last].word, last as u64)
}

// The first broken rule of those behind the places.
fn behind_places(
    alloc: Global,
    checked: &Checked,
    typed: &Typed,
    viewed: &Viewed,
) -> Result<Option<CheckStop>, NoMemory>
    requires fits { IsFitting (limits_of checked.now.netlist) viewed.now.image }
    requires word { memory_width checked.now.netlist.storages ≡ typed.now.width }
    requires placed { ArePlaced (task_of checked.now.netlist typed.now viewed.now) }
    requires temps { HasTemps (task_of checked.now.netlist typed.now viewed.now) }
    requires views { ComeFrom 0 viewed.now.views }
    ensures { IfOk result (IsBroken (task_of checked.now.netlist typed.now viewed.now)) }
{
    let image = &viewed.image;
    if let Some(fault) = marks_fault(alloc, checked, typed, image)? {
        return Ok(Some(CheckStop::from(CheckFault::Rule(RuleFault::Mark(fault)))));
    }
    if let Some(view) = view_fault(checked, image, viewed.views.as_slice()) {
        return Ok(Some(named(alloc, RuleFault::View(view.address), &view.name)?));
    }
    if !ends_plainly(alloc, checked, image)? {
        return Ok(Some(CheckStop::from(CheckFault::Rule(RuleFault::EndWord))));
    }
    Ok(None)
}

/// The first rule that an image with views breaks, if it breaks one; its views go up the addresses.
pub fn broken_rule(
    alloc: Global,
    checked: &Checked,
    typed: &Typed,
    viewed: &Viewed,
) -> Result<Option<CheckStop>, NoMemory>
    requires fits { IsFitting (limits_of checked.now.netlist) viewed.now.image }
    requires word { memory_width checked.now.netlist.storages ≡ typed.now.width }
    requires views { ComeFrom 0 viewed.now.views }
    ensures { IfOk result (IsBroken (task_of checked.now.netlist typed.now viewed.now)) }
{
    if let Some(stop) = place_stop(alloc, checked, typed, &viewed.image)? {
        return Ok(Some(stop));
    }
    behind_places(alloc, checked, typed, viewed)
}
