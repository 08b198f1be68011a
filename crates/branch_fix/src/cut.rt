//! The parts of a flow.

ghost use Rattle.std.specs.Prelude.{◌≡◌, ◌+◌, ◌<◌, ◌≤◌, IfOk, MatchOption, None, Some, if◌then◌else◌, length, slice_index, slice_get};
ghost use Rattle.form_model.specs.declared.flow.Flow.{Flow as ThePlace};
ghost use Rattle.form_model.specs.Forms.{model_of_form, models_of_forms};
ghost use Rattle.src_trees.specs.Blocks.{continues};
ghost use Rattle.branch_fix.specs.Entered.{entered_places};
ghost use Rattle.branch_fix.specs.Parts.{branch_or_zero, form_at_one, part_for, parts_of, place_blocks, place_tests};

use crate::begun::{continues, entered};
use crate::outline::{Branch, Outline};
use crate::part::{BranchedTest, LayoutPart};
use form_model::{Flow, Form, Goal};
use rec_bits::{Items, NoMemory};
use std::alloc::Global;

/// The form of this number.
pub fn form_at(forms: &[Form], form: usize) -> Option<&Form>
    ensures { MatchOption result (slice_get (models_of_forms forms.now) form ≡ None) (λ found.
        slice_get (models_of_forms forms.now) form ≡ Some (model_of_form found.now)) }
{
    forms.get(form)
}

// Whether a branch form goes to its target where its condition is 1.
fn at_one(forms: &[Form], form: usize) -> bool
    ensures { result ≡ form_at_one (slice_get (models_of_forms forms.now) form) }
{
    match forms.get(form) {
        None => true,
        Some(form) => match &form.goal {
            Goal::Branch { when_one, .. } => *when_one,
            _ => true,
        },
    }
}

// How many blocks and tests begin before a place of a flow.
#[derive(Clone, Copy)]
struct Before {
    blocks: u32,
    tests: usize,
}

// The two places that a test leads to: that of its branch, and the other one.
#[derive(Clone, Copy)]
struct Ways {
    to: u32,
    other: u32,
}

impl<'a> Outline<'a> {
    // The words of a block.
    fn size_at(&self, block: u32) -> u32
        ensures { result ≡ slice_index self.now.sizes.now block }
    {
        match self.sizes.get(block as usize) {
            Some(words) => *words,
            None => 0,
        }
    }

    // The branch of a test.
    fn branch_at(&self, test: usize) -> Branch
        ensures { result ≡ branch_or_zero (slice_get self.now.branches.now test) }
    {
        match self.branches.get(test) {
            Some(branch) => *branch,
            None => Branch {
                form: 0,
                setting: 0,
            },
        }
    }

    // Which of a test's two targets is that of its branch, as the branch's form tells.
    fn ways(&self, branch: Branch, when_one: u32, when_zero: u32) -> Ways
        ensures to { result.to ≡ (if form_at_one (slice_get (models_of_forms self.now.forms.now.list.items) branch.form)
            then when_one else when_zero) }
        ensures other { result.other ≡ (if form_at_one (slice_get (models_of_forms self.now.forms.now.list.items) branch.form)
            then when_zero else when_one) }
    {
        if at_one(&self.forms.list, branch.form) {
            Ways {
                to: when_one,
                other: when_zero,
            }
        } else {
            Ways {
                to: when_zero,
                other: when_one,
            }
        }
    }

    // The part of a place, with so many blocks and tests before it.
    fn part_at(&self, entered: &[bool], at: usize, before: Before) -> LayoutPart
        requires at { at < length self.now.flow.now }
        requires entered { entered.now ≡ entered_places self.now.flow.now }
        ensures { (place : ThePlace) → slice_get self.now.flow.now at ≡ Some place →
            result ≡ part_for (models_of_forms self.now.forms.now.list.items) self.now.flow.now self.now.sizes.now
            self.now.branches.now place at before.blocks before.tests }
    {
        let block = before.blocks;
        match self.flow[at] {
            Flow::Assign(_) => {
                if continues(self.flow, entered, at) {
                    LayoutPart::Inner
                } else {
                    LayoutPart::Block {
                        block,
                        words: self.size_at(block),
                    }
                }
            }
            Flow::Test {
                tree,
                when_one,
                when_zero,
            } => {
                let branch = self.branch_at(before.tests);
                let Ways { to, other } = self.ways(branch, when_one, when_zero);
                LayoutPart::Test(BranchedTest {
                    tree,
                    block,
                    words: self.size_at(block),
                    form: branch.form,
                    setting: branch.setting,
                    to,
                    other,
                    next: other as usize == at + 1,
                    long: false,
                })
            }
            Flow::Jump(to) => LayoutPart::Jump(to),
            Flow::End => LayoutPart::End,
        }
    }

    // How many blocks begin at a place.
    fn blocks_at(&self, entered: &[bool], at: usize) -> u32
        requires at { at < length self.now.flow.now }
        requires entered { entered.now ≡ entered_places self.now.flow.now }
        ensures { result ≡ place_blocks (slice_get self.now.flow.now at) (continues self.now.flow.now at) }
    {
        match self.flow[at] {
            Flow::Assign(_) => u32::from(!continues(self.flow, entered, at)),
            Flow::Test { .. } => 1,
            Flow::Jump(_) | Flow::End => 0,
        }
    }

    // How many tests there are at a place.
    fn tests_at(&self, at: usize) -> usize
        requires { at < length self.now.flow.now }
        ensures value { result ≡ place_tests (slice_get self.now.flow.now at) }
        ensures few { result ≤ 1 }
    {
        usize::from(matches!(self.flow[at], Flow::Test { .. }))
    }

    // How many blocks and tests begin before the place behind this one. Want of memory where the
    // blocks are more than can be numbered.
    fn behind(&self, entered: &[bool], at: usize, before: Before) -> Result<Before, NoMemory>
        requires at { at < length self.now.flow.now }
        requires entered { entered.now ≡ entered_places self.now.flow.now }
        requires few { before.tests ≤ at }
        ensures blocks { IfOk result (λ next. next.blocks
            ≡ before.blocks + place_blocks (slice_get self.now.flow.now at) (continues self.now.flow.now at)) }
        ensures tests { IfOk result (λ next. next.tests ≡ before.tests + place_tests (slice_get self.now.flow.now at)) }
        ensures few { IfOk result (λ next. next.tests ≤ at + 1) }
    {
        match before.blocks.checked_add(self.blocks_at(entered, at)) {
            Some(blocks) => Ok(Before {
                blocks,
                tests: before.tests + self.tests_at(at),
            }),
            None => Err(NoMemory),
        }
    }
}

/// The parts of an outline's flow.
pub fn parts(alloc: Global, outline: &Outline<'_>) -> Result<Items<LayoutPart>, NoMemory>
    ensures { IfOk result (λ parts. parts ≡ parts_of (models_of_forms outline.now.forms.now.list.items)
        outline.now.flow.now outline.now.sizes.now outline.now.branches.now) }
{
    let entered = entered(alloc, outline.flow)?;
    let mut parts = Items::new(alloc);
    let mut before = Before {
        blocks: 0,
        tests: 0,
    };
    for at in 0..outline.flow.len() {
        parts.push(outline.part_at(&entered, at, before))?;
        before = outline.behind(&entered, at, before)?;
    }
    Ok(parts)
}
