//! Relative branches that don't show their distance become three words.

ghost use Rattle.std.specs.Prelude.{◌≡◌, ◌+◌, ◌<◌, ◌≤◌, ◌^◌, ℕ, IfOk, is_some, length, slice_get};
ghost use Rattle.net_model.specs.Exprs.{model_of_expr, expr_width};
ghost use Rattle.form_model.specs.Forms.{model_of_goal, models_of_forms};
ghost use Rattle.branch_fix.specs.Parts.{room, total};
ghost use Rattle.branch_fix.specs.Rounds.{distance, is_long, goal_shows, long_tests, round, rounds, form_shows, widened, widened_from, widened_part, IsFixpoint};

use crate::cut::form_at;
use crate::part::{BranchedTest, LayoutPart};
use crate::rooms::{address_at, room, starts};
use form_model::{Form, Goal, Target};
use net_model::Expr;
use rec_bits::{Items, NoMemory};
use std::alloc::Global;
use tree_grammar::{expr_width, low_bits, setting_of};

/// How far one address lies behind another, modulo the shape's width.
pub fn distance(shape: &Expr, from: u64, to: u64) -> u64
    ensures { result ≡ distance (expr_width (model_of_expr shape.now)) from to }
{
    low_bits(to.wrapping_sub(from), expr_width(shape))
}

// Whether a branch form shows its target.
fn form_shows(form: &Form, from: u64, to: u64) -> Result<bool, NoMemory>
    ensures { IfOk result (λ shown. shown ≡ goal_shows (model_of_goal form.now.goal) from to) }
{
    match &form.goal {
        Goal::Branch {
            target: Target::Relative(shape),
            ..
        } => {
            let setting = setting_of(shape, distance(shape, from, to))?;
            Ok(setting.is_some())
        }
        _ => Ok(true),
    }
}

fn shows_target(forms: &[Form], form: usize, from: u64, to: u64) -> Result<bool, NoMemory>
    ensures { IfOk result (λ shown. shown ≡ form_shows (slice_get (models_of_forms forms.now) form) from to) }
{
    match form_at(forms, form) {
        None => Ok(true),
        Some(form) => form_shows(form, from, to),
    }
}

// A test at an address, after a round.
fn widened_fork(
    forms: &[Form],
    addresses: &[u64],
    at: u64,
    fork: BranchedTest,
) -> Result<BranchedTest, NoMemory>
    requires { at + fork.words < 2 ^ 64 }
    ensures { IfOk result (λ new. new ≡ widened (models_of_forms forms.now) addresses.now at fork) }
{
    let shown = shows_target(
        forms,
        fork.form,
        at + u64::from(fork.words),
        address_at(addresses, fork.to),
    )?;
    Ok(BranchedTest {
        long: fork.long || !shown,
        ..fork
    })
}

fn widened_part(
    forms: &[Form],
    addresses: &[u64],
    at: u64,
    part: LayoutPart,
) -> Result<LayoutPart, NoMemory>
    requires { at + room part < 2 ^ 64 }
    ensures { IfOk result (λ new. new ≡ widened_part (models_of_forms forms.now) addresses.now at part) }
{
    match part {
        LayoutPart::Test(fork) => {
            let fork = widened_fork(forms, addresses, at, fork)?;
            Ok(LayoutPart::Test(fork))
        }
        other => Ok(other),
    }
}

// The parts after a round, given their addresses.
fn widened(
    alloc: Global,
    forms: &[Form],
    addresses: &[u64],
    parts: &[LayoutPart],
) -> Result<Items<LayoutPart>, NoMemory>
    requires { total parts.now < 2 ^ 64 }
    ensures { IfOk result (λ new. new ≡ widened_from (models_of_forms forms.now) addresses.now 0 parts.now) }
{
    let mut new = Items::new(alloc);
    let mut address = 0;
    for part in parts {
        let after = widened_part(forms, addresses, address, *part)?;
        new.push(after)?;
        address += room(*part);
    }
    Ok(new)
}

fn after_round(
    alloc: Global,
    forms: &[Form],
    parts: &[LayoutPart],
) -> Result<Items<LayoutPart>, NoMemory>
    requires { total parts.now < 2 ^ 64 }
    ensures { IfOk result (λ new. new ≡ round (models_of_forms forms.now) parts.now) }
{
    let addresses = starts(alloc, parts)?;
    widened(alloc, forms, addresses.as_slice(), parts)
}

fn is_long(part: LayoutPart) -> bool
    ensures { result ≡ is_long part }
{
    match part {
        LayoutPart::Test(fork) => fork.long,
        _ => false,
    }
}

// How many tests are three words.
fn long_tests(parts: &[LayoutPart]) -> usize
    ensures value { result ≡ long_tests parts.now }
    ensures few { result ≤ length parts.now }
{
    let mut count = 0;
    for part in parts {
        if is_long(*part) {
            count += 1;
        }
    }
    count
}

/// The parts when rounds are repeated until one changes nothing.
pub fn settled(
    alloc: Global,
    forms: &[Form],
    first: Items<LayoutPart>,
) -> Result<Items<LayoutPart>, NoMemory>
    requires { (n : ℕ) → total (rounds (models_of_forms forms.now) n first) < 2 ^ 64 }
    ensures { IfOk result (λ last. IsFixpoint (models_of_forms forms.now) first last) }
{
    let mut parts = first;
    'rounds: loop {
        let next = after_round(alloc, forms, parts.as_slice())?;
        if long_tests(next.as_slice()) == long_tests(parts.as_slice()) {
            return Ok(parts);
        }
        parts = next;
    }
}
