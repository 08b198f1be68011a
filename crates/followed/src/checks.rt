//! The check.

ghost use Rattle.std.specs.Prelude.{◌≡◌, IfOk, None};
ghost use Rattle.std.specs.List.{AllByRecursion};
ghost use Rattle.net_model.specs.Nets.{memory_width};
ghost use Rattle.net_model.specs.Widths.{WordFits};
ghost use Rattle.src_model.specs.Written.{model_of_program};
ghost use Rattle.code_model.specs.ImageFits.{AreMarksAfter, IsFitting, limits_of};
ghost use Rattle.code_model.specs.Places.{words_of};
ghost use Rattle.follow.specs.Checked.{PassesCheck};
ghost use Rattle.follow.specs.RightByViews.{IsLaidFor, image_memory};
ghost use Rattle.src_trees.specs.Flows.{program_flow, program_jobs};
ghost use Rattle.src_trees.specs.Jobs.{models_of_jobs};
ghost use Rattle.followed.specs.Inner.Ascending.{ComeFrom};
ghost use Rattle.followed.specs.Inner.Led.{HasFollowed};
ghost use Rattle.followed.specs.Passing.{AreWays, HasPassed};
ghost use Rattle.followed.specs.Said.{relation_at};
ghost use Rattle.sym_expr.specs.Pools.{Grows};

use crate::claim::Claim;
use crate::code::code_of;
use crate::fault::CheckFault;
use crate::laid::{addr_width, is_laid, misplaced};
use crate::passed::Passed;
use crate::plain::first_odd;
use crate::said::hides_none;
use crate::whole::ways_of;
use code_model::words_of;
use follow::{has_marks_of, label_at, places_of};
use form_model::Blocks;
use src_trees::lower;
use std::alloc::Global;
use sym_expr::Pool;

// The ways of an image's words, where all that is asked of its places, marks and views is found.
fn ways(
    alloc: Global,
    claim: &Claim<'_>,
    pool: &mut Pool,
    blocks: &Blocks,
) -> Result<Passed, CheckFault>
    requires words { AllByRecursion (WordFits claim.now.checked.now.netlist) (words_of claim.now.viewed.now.image) }
    requires modeless { claim.now.checked.now.netlist.special ≡ None }
    requires word { memory_width claim.now.checked.now.netlist.storages ≡ claim.now.typed.now.width }
    requires laid { IsLaidFor claim.now.checked.now.netlist claim.now.typed.now.width (model_of_program claim.now.typed.now.program)
        claim.now.viewed.now.image }
    requires flow { blocks.now.flow ≡ program_flow (model_of_program claim.now.typed.now.program) }
    requires jobs { models_of_jobs blocks.now.jobs.items
        ≡ program_jobs (image_memory claim.now.checked.now.netlist claim.now.typed.now.width claim.now.viewed.now.image)
        (model_of_program claim.now.typed.now.program) }
    requires views { ComeFrom 0 claim.now.viewed.now.views }
    ensures grows { Grows pool.old pool.new }
    ensures ways { IfOk result (HasFollowed claim.now.checked.now.netlist claim.now.typed.now.width (model_of_program claim.now.typed.now.program)
        claim.now.viewed.now (relation_at pool.new claim.now.hints.now)) }
{
    let words = words_of(alloc, &claim.viewed.image)?;
    let code = code_of(alloc, claim.checked, pool, words.as_slice())?;
    ways_of(alloc, claim, pool, blocks, code.as_slice())
}

// The ways of an image that passes, whose marks ascend.
fn passed(alloc: Global, claim: &Claim<'_>, pool: &mut Pool) -> Result<Passed, CheckFault>
    requires words { AllByRecursion (WordFits claim.now.checked.now.netlist) (words_of claim.now.viewed.now.image) }
    requires order { AreMarksAfter None claim.now.viewed.now.image.marks }
    ensures grows { Grows pool.old pool.new }
    ensures passes { IfOk result (λ passed. PassesCheck claim.now.checked.now.netlist claim.now.typed.now.width
        (model_of_program claim.now.typed.now.program) claim.now.viewed.now (relation_at pool.new claim.now.hints.now)) }
    ensures ways { IfOk result (AreWays claim.now.checked.now.netlist claim.now.typed.now.width (model_of_program claim.now.typed.now.program)
        claim.now.viewed.now (relation_at pool.new claim.now.hints.now)) }
{
    let checked = claim.checked;
    let image = &claim.viewed.image;
    let width = claim.typed.width();
    if checked.netlist().special.is_some() {
        return Err(CheckFault::Mode);
    }
    if checked.memory_width() != width {
        return Err(CheckFault::Width);
    }
    if !is_laid(checked, claim.typed, image) {
        return Err(misplaced_in(claim));
    }
    let places = places_of(alloc, image)?;
    let blocks = lower(alloc, claim.typed, &places, addr_width(checked))?;
    if image.words.is_empty() {
        return Err(CheckFault::Marks);
    }
    if !has_marks_of(blocks.flow.as_slice(), image) {
        return Err(CheckFault::Marks);
    }
    let views = claim.viewed.views.as_slice();
    if let Some(at) = first_odd(width, image, views) {
        return Err(CheckFault::View(at));
    }
    if !hides_none(
        claim.viewed.hidden.as_slice(),
        label_at(image.marks.as_slice(), 0),
    ) {
        return Err(CheckFault::Hidden);
    }
    ways(alloc, claim, pool, &blocks)
}

// The place that isn't that of its variable.
fn misplaced_in(claim: &Claim<'_>) -> CheckFault {
    let image = &claim.viewed.image;
    let vars = claim.typed.program().vars.as_slice();
    let size = claim.checked.memory_size();
    CheckFault::Place(misplaced(image.places.as_slice(), vars, image.temps, size, 0))
}

/// The ways of an image's words, where the image is right code by its views for the program. The pool
/// grows. A fault but for want of memory says how far the check came, and nothing of the image.
pub fn passes(alloc: Global, claim: &Claim<'_>, pool: &mut Pool) -> Result<Passed, CheckFault>
    requires { IsFitting (limits_of claim.now.checked.now.netlist) claim.now.viewed.now.image }
    ensures grows { Grows pool.old pool.new }
    ensures passed { IfOk result (HasPassed claim.now.checked.now.netlist claim.now.typed.now.width (model_of_program claim.now.typed.now.program)
        claim.now.viewed.now (relation_at pool.new claim.now.hints.now)) }
{
    let _netlist = claim.checked.netlist();
    passed(alloc, claim, pool)
}
