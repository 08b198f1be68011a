//! The forms of a netlist: each with its pattern's number, its transfer and its clobbers.

ghost use Rattle.std.specs.Prelude.{◌≤◌, length};
ghost use Rattle.isa_extract.specs.Extraction.{IsExtractedFrom};
ghost use Rattle.transfer_set.specs.Ready.{IsReady};

use crate::expr_text::{add_expr, add_storage};
use crate::fault::RowFault;
use crate::text::put;
use bit_bdd::Book;
use form_model::{Form, Forms, Goal, RegSet, Target};
use form_set::forms;
use isa_extract::{Isa, read_extracted_taken};
use net_model::{Checked, Expr, Space};
use rec_bits::NoMemory;
use std::alloc::{AllocError, Global};
use sym_expr::Pool;
use transfer_set::{Machine, Patterns};

/// A netlist, its forms, and how many patterns it has.
#[derive(Drop)]
pub struct NetForms {
    pub checked: Checked,
    pub forms: Forms,
    pub patterns: u32,
}

// The forms of a netlist with these patterns.
fn forms_by(
    alloc: Global,
    checked: &Checked,
    pool: &Pool,
    patterns: &Patterns,
    book: &mut Book,
) -> Result<Forms, NoMemory>
    requires { IsReady checked.now.netlist book.old pool.now patterns.now }
{
    let machine = Machine {
        checked,
        pool,
        patterns,
    };
    forms(alloc, &machine, book)
}

// The forms of a netlist that was extracted, and how many patterns it has.
fn forms_in(alloc: Global, checked: &Checked, extracted: &mut Isa) -> Result<(Forms, u32), NoMemory>
    requires { IsExtractedFrom checked.now.netlist extracted.old }
{
    let Isa {
        book,
        pool,
        patterns,
        ..
    } = extracted;
    let found = forms_by(alloc, checked, pool, patterns, book)?;
    Ok((found, patterns.len()))
}

// A netlist with its forms, where there was memory for these.
fn with_forms(
    checked: Checked,
    found: Result<(Forms, u32), NoMemory>,
) -> Result<NetForms, RowFault> {
    match found {
        Ok((forms, patterns)) => Ok(NetForms {
            checked,
            forms,
            patterns,
        }),
        Err(NoMemory) => {
            drop(checked);
            Err(RowFault::Memory)
        }
    }
}

// The newest edition of the netlists whose forms are told.
const EDITION: u8 = 2;

// The forms of a netlist's text, which has at most 1,048,576 bytes.
fn read_forms(alloc: Global, bytes: &[u8]) -> Result<NetForms, RowFault>
    requires { length bytes.now ≤ 1048576 }
{
    let (checked, mut extracted) = read_extracted_taken(alloc, bytes, EDITION)?;
    let found = forms_in(alloc, &checked, &mut extracted);
    drop(extracted);
    with_forms(checked, found)
}

/// The netlist of a text, with its forms.
pub fn forms_of(alloc: Global, text: &str) -> Result<NetForms, RowFault> {
    let bytes = text.as_bytes();
    if bytes.len() > 1_048_576 {
        return Err(RowFault::Long);
    }
    read_forms(alloc, bytes)
}

// Adds an address in brackets, if there is one.
fn add_address(text: &mut String, checked: &Checked, addr: &Option<Expr>) -> Result<(), RowFault> {
    if let Some(addr) = addr {
        text.push_str("[")?;
        add_expr(text, checked, addr)?;
        text.push_str("]")?;
    }
    Ok(())
}

// Adds what a form writes, and `:=`.
fn add_goal(text: &mut String, checked: &Checked, form: &Form) -> Result<(), RowFault> {
    let id = match &form.goal {
        Goal::Reg(id) => *id,
        Goal::Memory => checked.memory(),
        Goal::File => checked.place(Space::File),
        Goal::Jump { .. } | Goal::Branch { .. } => checked.pc(),
    };
    add_storage(text, checked, id)?;
    add_address(text, checked, &form.addr)?;
    Ok(text.push_str(" := ")?)
}

// Adds the value of a form, and for a jump or a branch where it goes.
fn add_value(text: &mut String, checked: &Checked, form: &Form) -> Result<(), RowFault> {
    match &form.goal {
        Goal::Reg(_) | Goal::Memory | Goal::File => add_expr(text, checked, &form.value),
        Goal::Jump { reach } => {
            add_expr(text, checked, &form.value)?;
            Ok(put(text, " below ", *reach)?)
        }
        Goal::Branch {
            when_one,
            target: Target::Absolute(to) | Target::Relative(to),
        } => {
            add_expr(text, checked, to)?;
            text.push_str(if *when_one { " if " } else { " unless " })?;
            add_expr(text, checked, &form.value)
        }
    }
}

// Adds the names of the storages of a set.
fn add_set(text: &mut String, checked: &Checked, set: RegSet) -> Result<(), RowFault> {
    for id in 0u32..16 {
        if (set >> id) & 1 == 1 {
            text.push_str(" ")?;
            add_storage(text, checked, id)?;
        }
    }
    Ok(())
}

// Adds the line of a form.
fn add_form(text: &mut String, checked: &Checked, form: &Form) -> Result<(), RowFault> {
    put(text, "", u64::from(form.pattern))?;
    text.push_str(" ")?;
    add_goal(text, checked, form)?;
    add_value(text, checked, form)?;
    if let Some(place) = form.tied {
        put(text, ", tied ", u64::from(place))?;
    }
    put(text, "; bits ", form.fields)?;
    text.push_str(", clobbers")?;
    add_set(text, checked, form.clobbers)?;
    Ok(text.push_str("\n")?)
}

// Adds the first line: how many forms there are.
fn add_head(text: &mut String, found: &NetForms) -> Result<(), AllocError> {
    put(text, ": ", found.forms.list.len() as u64)?;
    put(text, " forms of ", u64::from(found.patterns))?;
    put(text, " patterns, reach ", found.forms.reach)?;
    text.push_str("\n")
}

// Adds the lines of the forms from one on, at most so many.
fn add_forms(text: &mut String, found: &NetForms, from: u64, most: u64) -> Result<(), RowFault> {
    for (place, form) in found.forms.list.iter().enumerate() {
        let place = place as u64;
        if place >= from && place - from < most {
            add_form(text, &found.checked, form)?;
        }
    }
    Ok(())
}

// The lines of forms.
fn lines_of(
    alloc: Global,
    name: &str,
    found: &NetForms,
    from: u64,
    most: u64,
) -> Result<String, RowFault> {
    let mut text = String::from_str(alloc, name)?;
    add_head(&mut text, found)?;
    add_forms(&mut text, found, from, most)?;
    Ok(text)
}

/// The lines that are printed of the forms of a netlist of this name and text: how many there are,
/// and from one of them on at most so many of them.
pub fn form_lines(
    alloc: Global,
    name: &str,
    text: &str,
    from: u64,
    most: u64,
) -> Result<String, RowFault> {
    let found = forms_of(alloc, text)?;
    let lines = lines_of(alloc, name, &found, from, most);
    drop(found);
    lines
}
