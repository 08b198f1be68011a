//! What is told of a job by equal trees.

ghost use Rattle.std.specs.Prelude.{◌≡◌, ◌++◌, OnOk};
ghost use Rattle.src_trees.specs.Jobs.{model_of_job};
ghost use Rattle.src_trees.specs.Lowered.{JobModel};
ghost use Rattle.explain_command.specs.Explained.{IsEqualText, MayStandFor};
ghost use Rattle.explain_command.specs.Inner.Telling.{Adds, netlist_of, stock_of};
ghost use Rattle.explain_command.specs.Lines.{equal_lines, equal_word as word_for};

use crate::heading::{add_aim, add_trees};
use crate::subject::Subject;
use crate::text::add_cost;
use code_gen::TREE_NODES;
use cover::{CoverFault, cover};
use form_model::Job;
use net_model::Checked;
use rec_bits::NoMemory;
use respell::{Limits, Respelled, Speller};
use std::alloc::Global;

// What stands before the tree of such a job.
fn equal_word(turned: bool) -> &'static [u8]
    ensures { result.now ≡ word_for turned }
{
    if turned { b"opposite" } else { b"equal" }
}

// The lines of such a job, whose cover has this cost.
fn add_equal_lines(
    text: &mut Vec<u8>,
    checked: &Checked,
    other: &Job,
    turned: bool,
    cost: u64,
) -> Result<(), NoMemory>
    ensures { OnOk result (text.new.items
        ≡ text.old.items ++ equal_lines checked.now.netlist turned (model_of_job other.now) cost) }
{
    add_aim(text, checked, &other.aim)?;
    add_trees(text, checked, equal_word(turned), &other.trees)?;
    add_cost(text, cost)
}

// The lines of a job that may stand for another, where it has a cover.
fn add_other(
    alloc: Global,
    text: &mut Vec<u8>,
    subject: &Subject<'_>,
    other: &Job,
    turned: bool,
) -> Result<(), NoMemory>
    ensures { (job : JobModel) → MayStandFor (netlist_of subject.now) (stock_of subject.now) turned job (model_of_job other.now) →
        OnOk result (Adds (IsEqualText (netlist_of subject.now) (stock_of subject.now) job)
        text.old.items text.new.items) }
{
    match cover(alloc, subject.forms, other, subject.temps) {
        Ok(found) => add_equal_lines(text, subject.checked, other, turned, found.cost),
        Err(CoverFault::NoCover) => Ok(()),
        Err(CoverFault::Memory) => Err(NoMemory),
    }
}

/// The lines of a job by equal trees that have a cover, where some are found.
pub(crate) fn add_equal(
    alloc: Global,
    text: &mut Vec<u8>,
    subject: &Subject<'_>,
    job: &Job,
) -> Result<(), NoMemory>
    ensures { OnOk result (Adds (IsEqualText (netlist_of subject.now) (stock_of subject.now) (model_of_job job.now))
        text.old.items text.new.items) }
{
    let limits = Limits {
        cell: subject.checked.memory_width(),
        temps: subject.temps,
        nodes: TREE_NODES,
    };
    let speller = Speller::new(alloc, std::slice::from_ref(subject.forms), &[true], limits)?;
    match speller.respell(alloc, job)? {
        Respelled::Kept => Ok(()),
        Respelled::Changed { job: other, turned } => {
            add_other(alloc, text, subject, &other, turned)
        }
    }
}
