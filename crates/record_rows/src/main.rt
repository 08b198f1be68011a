//! Makes the calls, runs the programs and looks at the netlists that the rows on standard input ask
//! for, over memory, and prints what is found.
//!
//! A row begins with its kind and its name, and ends at its `run`. A call's lines are
//!
//! ```text
//! row NAME          what the row shows
//! word WORD         the next word of the call
//! file NAME         a file; the lines behind it are added to it:
//! | TEXT            a line
//! + TEXT            a text without an end of line
//! fill COUNT TEXT   the text so many times; spaces where there is none
//! fail fetch N      the Nth fetch fails
//! fail put N        the Nth put fails
//! byte N            a byte
//! step N            a put takes at most N bytes
//! room N            all puts together take at most N bytes
//! ends N            only the first N lines and the last N are printed
//! told              what is told of a refusal is printed, too
//! run
//! ```
//!
//! and what it took and answered is printed; a program's lines are
//!
//! ```text
//! program NAME
//! width N           the bits of a word
//! cells N N ..      what the first cells hold; the others hold 0
//! | TEXT            a line of the program
//! skip N            so many checkpoints are passed without a line
//! show N            so many checkpoints more, with a line each
//! run
//! ```
//!
//! and a netlist's are
//!
//! ```text
//! netlist NAME
//! | TEXT            a line of its text
//! run
//! ```
//!
//! of which is printed how many nets, storages and patterns it has, how many diagram nodes and
//! expressions stand behind these, and, where instruction words have at most 16 bits, how many
//! words there are, how many of them clash, and for how many what the word does by itself isn't
//! what the patterns tell of it. The forms of a netlist are asked for by
//!
//! ```text
//! forms NAME
//! | TEXT            a line of its text
//! from N            the first N forms are not printed
//! first N           at most so many forms are printed
//! run
//! ```
//!
//! and for each of them the number of its pattern, its transfer, the mask of its instruction bits
//! and its clobbers are printed: a jump's with its reach, a branch's with its target and its
//! condition. The covers of a program's jobs by the forms of a netlist are asked for by
//!
//! ```text
//! cover NAME
//! | TEXT            a line of the netlist's text
//! > TEXT            a line of the program
//! run
//! ```
//!
//! and for each job its number is printed, with the tree that is covered, what the cover costs and
//! how many temporary cells it fills, or that there is no cover.
//!
//! It promises nothing but safety and an end, so a new row needs no proof. `stdin` beside `src/`
//! has the rows and `stdout` what they print.
//!
//! Files:
//!
//! - `main`: line by line, up to a row's `run`.
//! - `fault`, `row`: why a row isn't run; rows by their kinds.
//! - `call`: a call over `MemShelf` and `MemSink`.
//! - `program`, `store`: a run of a program by `src_eval`, and the store that it begins with.
//! - `netlist`, `forms`, `cover_row`: rows of netlists, whose texts are those of `row_texts`.
//! - `specs/Inner/`: `Stores`: cells that hold what was given for them; no other crate cites it.
//! - `proofs/`: a folder for each function of `store`.
#![tactic(auto)]

mod call;
mod cover_row;
mod fault;
mod forms;
mod netlist;
mod program;
mod row;
mod store;

use anyhow::{Context, Result};
use row::Row;
use std::mem;

// Takes a line, and at the last of a row prints what is found.
fn take(rt: &(impl Print + AllocGlobal), row: &mut Row, line: &str) -> Result<()> {
    if line != "run" {
        return row
            .take(rt.alloc(), line)
            .context(format_args!("at the line {line}"));
    }
    let asked = mem::replace(row, Row::Nothing);
    rt.print(asked.found(rt.alloc())?)?;
    Ok(())
}

fn run(rt: &(impl Input + Print + AllocGlobal)) -> Result<()> {
    let mut row = Row::Nothing;
    for line in rt.lines(rt.alloc()) {
        take(rt, &mut row, line?.as_str())?;
    }
    Ok(())
}

fn main(rt: HostRuntime) -> Result<()> {
    run(&rt)
}
