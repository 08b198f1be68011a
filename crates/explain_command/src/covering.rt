//! What is told of a job's cover: its cost, or what lacks one and what may stand for the job.

ghost use Rattle.std.specs.Prelude.{◌≡◌, ◌++◌, OnOk};
ghost use Rattle.form_model.specs.Covers.{HasNoCover};
ghost use Rattle.src_trees.specs.Jobs.{model_of_job};
ghost use Rattle.explain_command.specs.Explained.{AreLackLines, AreNearLines, IsCoverText, ShowsLacks};
ghost use Rattle.explain_command.specs.Inner.Telling.{Adds, netlist_of, stock_of};
ghost use Rattle.explain_command.specs.Lines.{near_line};
ghost use Rattle.tree_sharing.specs.Sharing.{exprs_at};

use crate::equal::add_equal;
use crate::heading::add_tree_line;
use crate::subject::Subject;
use crate::text::add_cost;
use cover::{CoverFault, cover};
use cover_lacks::lacking;
use form_model::{Job, Tree};
use near_forms::near_texts;
use rec_bits::NoMemory;
use std::alloc::Global;
use text_places::line_around;
use transfer_set::add_bytes;

// A line on a near form.
fn add_near(text: &mut Vec<u8>, rest: &[u8]) -> Result<(), NoMemory>
    ensures { OnOk result (text.new.items ≡ text.old.items ++ near_line rest.now) }
{
    add_bytes(text, b"near ")?;
    add_bytes(text, rest)?;
    add_bytes(text, b"\n")
}

// Lines on the forms that are nearest to a tree of the job.
fn add_near_lines(
    alloc: Global,
    text: &mut Vec<u8>,
    subject: &Subject<'_>,
    job: &Job,
    tree: &Tree,
) -> Result<(), NoMemory>
    ensures { OnOk result (Adds AreNearLines text.old.items text.new.items) }
{
    let near = near_texts(alloc, subject.names(), subject.means(), job, tree)?;
    for told in &near {
        // its wording is tested only, so that it is one line is seen to here
        add_near(text, line_around(told, 0))?;
    }
    Ok(())
}

// The lines of trees of a job that nothing makes.
fn add_trees(
    alloc: Global,
    text: &mut Vec<u8>,
    subject: &Subject<'_>,
    job: &Job,
    trees: &[&Tree],
) -> Result<(), NoMemory>
    ensures { OnOk result (Adds (AreLackLines (netlist_of subject.now) (exprs_at trees.now))
        text.old.items text.new.items) }
{
    for tree in trees {
        add_tree_line(text, subject.checked, b"lacks", tree)?;
        add_near_lines(alloc, text, subject, job, tree)?;
    }
    Ok(())
}

// What a job lacks that has no cover, and what may stand for it.
fn add_lacks(
    alloc: Global,
    text: &mut Vec<u8>,
    subject: &Subject<'_>,
    job: &Job,
) -> Result<(), NoMemory>
    requires { HasNoCover (stock_of subject.now) (model_of_job job.now).destination (model_of_job job.now).trees }
    ensures { OnOk result (Adds (ShowsLacks (netlist_of subject.now) (stock_of subject.now) (model_of_job job.now))
        text.old.items text.new.items) }
{
    let trees = lacking(alloc, subject.forms, job, subject.temps)?;
    add_bytes(text, b"no cover\n")?;
    add_trees(alloc, text, subject, job, &trees)?;
    add_equal(alloc, text, subject, job)
}

/// The lines of a job's cover.
pub(crate) fn add_cover(
    alloc: Global,
    text: &mut Vec<u8>,
    subject: &Subject<'_>,
    job: &Job,
) -> Result<(), NoMemory>
    ensures { OnOk result (Adds (IsCoverText (netlist_of subject.now) (stock_of subject.now) (model_of_job job.now))
        text.old.items text.new.items) }
{
    match cover(alloc, subject.forms, job, subject.temps) {
        Ok(found) => add_cost(text, found.cost),
        Err(CoverFault::NoCover) => add_lacks(alloc, text, subject, job),
        Err(CoverFault::Memory) => Err(NoMemory),
    }
}
