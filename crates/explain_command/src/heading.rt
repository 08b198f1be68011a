//! What is told of a job, whatever its cover is.

ghost use Rattle.std.specs.Prelude.{◌≡◌, ◌++◌, ◌∷◌, [], OnOk, codes, map};
ghost use Rattle.std.specs.Fmt.{decimal};
ghost use Rattle.std.specs.List.{concat};
ghost use Rattle.form_model.specs.Forms.{aim_destination};
ghost use Rattle.form_model.specs.Trees.{model_of_tree};
ghost use Rattle.job_places.specs.Places.{model_of_role, model_of_job_place};
ghost use Rattle.src_trees.specs.Jobs.{model_of_job};
ghost use Rattle.explain_command.specs.Lines.{aim_lines, duty_text, job_head, job_line, lines_of, place_text, tree_line};

use crate::tree_text::add_tree;
use form_model::{Aim, Job, Tree};
use job_places::{JobPlace, Role};
use net_model::Checked;
use rec_bits::{Name, NoMemory};
use text_places::place_of;
use transfer_set::{add_bytes, add_number};

// `LINE:COLUMN` of an offset.
fn add_place(text: &mut Vec<u8>, src: &[u8], at: u64) -> Result<(), NoMemory>
    ensures { OnOk result (text.new.items ≡ text.old.items ++ place_text src.now at) }
{
    let place = place_of(src, at);
    add_number(text, place.line as u64)?;
    add_bytes(text, b":")?;
    add_number(text, place.column as u64)
}

// A name behind words.
fn add_named(text: &mut Vec<u8>, words: &[u8], name: &Name) -> Result<(), NoMemory>
    ensures { OnOk result (text.new.items ≡ text.old.items ++ concat (words.now ∷ name.now ∷ [])) }
{
    add_bytes(text, words)?;
    add_bytes(text, name.as_slice())
}

// What a job is.
fn add_role(text: &mut Vec<u8>, role: &Role<'_>) -> Result<(), NoMemory>
    ensures { OnOk result (text.new.items ≡ text.old.items ++ duty_text (model_of_role role.now)) }
{
    match role {
        Role::Assign(name) => add_named(text, b"assign ", name),
        Role::If => add_bytes(text, b"if"),
        Role::While => add_bytes(text, b"while"),
        Role::Start(name) => add_named(text, b"for start ", name),
        Role::Count(name) => add_named(text, b"for test ", name),
        Role::Step(name) => add_named(text, b"for step ", name),
    }
}

// The words of a job's line before its place.
fn add_number_of_job(text: &mut Vec<u8>, number: u32) -> Result<(), NoMemory>
    ensures { OnOk result (text.new.items ≡ text.old.items ++ concat (codes "job " ∷ decimal number ∷ codes " " ∷ [])) }
{
    add_bytes(text, b"job ")?;
    add_number(text, u64::from(number))?;
    add_bytes(text, b" ")
}

// The line of a job.
fn add_job_line(
    text: &mut Vec<u8>,
    src: &[u8],
    number: u32,
    place: &JobPlace<'_>,
) -> Result<(), NoMemory>
    ensures { OnOk result (text.new.items ≡ text.old.items ++ job_line src.now number (model_of_job_place place.now)) }
{
    add_number_of_job(text, number)?;
    add_place(text, src, place.at)?;
    add_bytes(text, b" ")?;
    add_role(text, &place.role)?;
    add_bytes(text, b"\n")
}

/// The line of a tree behind a word.
pub(crate) fn add_tree_line(
    text: &mut Vec<u8>,
    checked: &Checked,
    word: &[u8],
    tree: &Tree,
) -> Result<(), NoMemory>
    ensures { OnOk result (text.new.items
        ≡ text.old.items ++ tree_line checked.now.netlist word.now (model_of_tree tree.now)) }
{
    add_bytes(text, word)?;
    add_bytes(text, b" ")?;
    add_tree(text, checked, tree)?;
    add_bytes(text, b"\n")
}

/// The address of the cell that is assigned, where it is computed.
pub(crate) fn add_aim(text: &mut Vec<u8>, checked: &Checked, aim: &Aim) -> Result<(), NoMemory>
    ensures { OnOk result (text.new.items
        ≡ text.old.items ++ aim_lines checked.now.netlist (aim_destination aim.now)) }
{
    match aim {
        Aim::Store(address) => add_tree_line(text, checked, b"at", address),
        Aim::Cell(_) | Aim::Test | Aim::Temp => Ok(()),
    }
}

/// A line for each tree behind a word.
pub(crate) fn add_trees(
    text: &mut Vec<u8>,
    checked: &Checked,
    word: &[u8],
    trees: &[Tree],
) -> Result<(), NoMemory>
    ensures { OnOk result (text.new.items
        ≡ text.old.items ++ lines_of checked.now.netlist word.now (map model_of_tree trees.now)) }
{
    for tree in trees {
        add_tree_line(text, checked, word, tree)?;
    }
    Ok(())
}

/// The lines of a job of this number before those of its cover.
pub(crate) fn add_head(
    text: &mut Vec<u8>,
    checked: &Checked,
    src: &[u8],
    number: u32,
    place: &JobPlace<'_>,
    job: &Job,
) -> Result<(), NoMemory>
    ensures { OnOk result (text.new.items ≡ text.old.items
        ++ job_head checked.now.netlist src.now number (model_of_job_place place.now) (model_of_job job.now)) }
{
    add_job_line(text, src, number, place)?;
    add_aim(text, checked, &job.aim)?;
    add_trees(text, checked, b"tree", &job.trees)
}
