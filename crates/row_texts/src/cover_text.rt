//! What the covers of a program's jobs cost, as it is printed: a line for each job.

ghost use Rattle.std.specs.Prelude.{◌≤◌, ◌^◌};
ghost use Rattle.std.specs.Bool.{OnTrue};

use crate::fault::RowFault;
use crate::form_text::{NetForms, forms_of};
use crate::text::put;
use binding::bind;
use cover::{CoverFault, JobCover, cover};
use form_model::{Cover, Forms, Job};
use net_model::{Checked, Storage};
use rec_bits::{NoMemory, mask};
use spill::cells;
use src_front::read_src;
use src_model::Typed;
use src_trees::lower;
use std::alloc::{AllocError, Global};

// The program of a text, which keeps the rules for words of so many bits.
fn program_of(alloc: Global, text: &str, width: u8) -> Result<Typed, RowFault> {
    let bytes = text.as_bytes();
    if bytes.len() > 1_048_576 || width == 0 || width > 64 {
        return Err(RowFault::Long);
    }
    match read_src(alloc, bytes, width) {
        Ok(typed) => Ok(typed),
        Err(_) => Err(RowFault::Program),
    }
}

// The bits of an address of the data memory.
fn address_width(checked: &Checked) -> u8 {
    match checked.netlist().storage(checked.memory()) {
        Some(Storage::Memory(cells)) => cells.addr_width,
        _ => 0,
    }
}

// Whether addresses of so many bits are no wider than a word, and name each of so many cells.
fn can_name(addr_width: u8, width: u8, words: u32) -> bool
    ensures some { OnTrue result (1 ≤ addr_width) }
    ensures narrow { OnTrue result (addr_width ≤ width) }
    ensures each { OnTrue result (words ≤ 2 ^ addr_width) }
{
    if addr_width == 0 || addr_width > width || addr_width > 64 {
        return false;
    }
    u64::from(words).saturating_sub(1) <= mask(addr_width)
}

// The jobs of a program, and how many temporary cells it uses, where the data memory has so many
// words.
fn jobs_of(
    alloc: Global,
    typed: &Typed,
    words: u32,
    addr_width: u8,
) -> Result<(Vec<Job>, u32), RowFault> {
    let few = typed.program().vars.len() < 65_536;
    if !few || !can_name(addr_width, typed.width(), words) {
        return Err(RowFault::Places);
    }
    let Ok(places) = bind(alloc, typed, words) else {
        return Err(RowFault::Places);
    };
    let temps = places.temps;
    let blocks = lower(alloc, typed, &places, addr_width);
    drop(places);
    Ok((blocks?.jobs, temps))
}

// How many temporary cells a cover fills.
fn cover_cell_count(alloc: Global, cover: &Cover) -> Result<usize, CoverFault> {
    match cells(alloc, cover) {
        Ok(filled) => Ok(filled.list.len()),
        Err(NoMemory) => Err(CoverFault::Memory),
    }
}

// Which of a job's trees is covered, what the cover costs, and how many temporary cells it fills.
#[derive(Clone, Copy)]
struct CoverCounts {
    which: usize,
    cost: u64,
    cells: usize,
}

// What is printed of the cover of a job.
fn count_cover(
    alloc: Global,
    forms: &Forms,
    job: &Job,
    temps: u32,
) -> Result<CoverCounts, CoverFault> {
    let found = cover(alloc, forms, job, temps)?;
    let JobCover { which, cover, cost } = found;
    let cells = cover_cell_count(alloc, &cover);
    drop(cover);
    let cells = cells?;
    Ok(CoverCounts { which, cost, cells })
}

// Adds the line of a cover.
fn put_line(lines: &mut String, number: usize, found: CoverCounts) -> Result<(), AllocError> {
    put(lines, "", number as u64)?;
    put(lines, " tree ", found.which as u64)?;
    put(lines, " cost ", found.cost)?;
    put(lines, " cells ", found.cells as u64)?;
    lines.push_str("\n")
}

// Adds the line of a job without a cover.
fn put_none(lines: &mut String, number: usize) -> Result<(), AllocError> {
    put(lines, "", number as u64)?;
    lines.push_str(" no cover\n")
}

// Adds the line of a job.
fn put_job(
    lines: &mut String,
    number: usize,
    found: Result<CoverCounts, CoverFault>,
) -> Result<(), AllocError> {
    match found {
        Ok(found) => put_line(lines, number, found),
        Err(CoverFault::NoCover) => put_none(lines, number),
        Err(CoverFault::Memory) => Err(AllocError),
    }
}

// The lines of jobs.
fn job_lines(
    alloc: Global,
    name: &str,
    forms: &Forms,
    jobs: &[Job],
    temps: u32,
) -> Result<String, AllocError> {
    let mut lines = String::from_str(alloc, name)?;
    put(&mut lines, ": temps ", u64::from(temps))?;
    lines.push_str("\n")?;
    for (number, job) in jobs.iter().enumerate() {
        put_job(&mut lines, number, count_cover(alloc, forms, job, temps))?;
    }
    Ok(lines)
}

// The lines of a program's jobs.
fn lines_of(alloc: Global, name: &str, read: &NetForms, typed: &Typed) -> Result<String, RowFault> {
    let (checked, forms) = (&read.checked, &read.forms);
    let addr_width = address_width(checked);
    let (jobs, temps) = jobs_of(alloc, typed, checked.memory_size(), addr_width)?;
    let lines = job_lines(alloc, name, forms, jobs.as_slice(), temps);
    drop(jobs);
    Ok(lines?)
}

// The lines of the jobs of a program's text.
fn program_lines(
    alloc: Global,
    name: &str,
    read: &NetForms,
    program: &str,
) -> Result<String, RowFault> {
    let typed = program_of(alloc, program, read.checked.memory_width())?;
    let lines = lines_of(alloc, name, read, &typed);
    drop(typed);
    lines
}

/// The lines that are printed of the covers of the jobs of a program's text by the forms of a
/// netlist of this name and text.
pub fn cover_lines(
    alloc: Global,
    name: &str,
    netlist: &str,
    program: &str,
) -> Result<String, RowFault> {
    let read = forms_of(alloc, netlist)?;
    let lines = program_lines(alloc, name, &read, program);
    drop(read);
    lines
}
