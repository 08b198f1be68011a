//! One program, the store that it begins with, and the checkpoints that are asked for.

use crate::fault::Fault;
use crate::row::number;
use crate::store::store_of;
use rec_bits::NoMemory;
use row_texts::put;
use src_eval::Runner;
use src_model::{Checkpoint, Store, Typed};
use std::alloc::{AllocError, Global};

/// A program and what is asked of it.
#[derive(Drop)]
pub struct Program {
    name: String,
    width: u8,
    given: Vec<u64>,
    text: Vec<u8>,
    skip: u64,
    show: u64,
}

impl Program {
    /// An empty program of this name, of words of 16 bits.
    pub fn new(alloc: Global, name: &str) -> Result<Program, Fault> {
        Ok(Program {
            name: String::from_str(alloc, name)?,
            width: 16,
            given: Vec::new(alloc),
            text: Vec::new(alloc),
            skip: 0,
            show: 0,
        })
    }

    // Takes what the first cells hold.
    fn take_cells(&mut self, values: &str) -> Result<(), Fault> {
        for value in values.split(" ") {
            self.given.push(number(value)?)?;
        }
        Ok(())
    }

    // Adds a line of the text.
    fn add(&mut self, line: &str) -> Result<(), Fault> {
        self.text.extend_from_slice(line.as_bytes())?;
        self.text.push(b'\n')?;
        Ok(())
    }

    /// Takes one line of the row: its first word, and what stands behind it.
    pub fn take(&mut self, key: &str, rest: &str) -> Result<(), Fault> {
        match key {
            "width" => self.width = number(rest)?.min(255) as u8,
            "cells" => self.take_cells(rest)?,
            "|" => self.add(rest)?,
            "skip" => self.skip = number(rest)?,
            "show" => self.show = number(rest)?,
            _ => return Err(Fault::Line),
        }
        Ok(())
    }

    /// Runs the program. The text has the row's name, and a line for each checkpoint that is shown,
    /// with the store.
    pub fn found(&self, alloc: Global) -> Result<String, Fault> {
        let typed = self.checked(alloc)?;
        let told = self.run(alloc, &typed);
        drop(typed);
        Ok(told?)
    }

    // The program, which keeps the rules.
    fn checked(&self, alloc: Global) -> Result<Typed, Fault> {
        if self.width == 0 || self.width > 64 || self.text.len() > 1_048_576 {
            return Err(Fault::Program);
        }
        let Ok(program) = src_parser::read(alloc, self.text.as_slice()) else {
            return Err(Fault::Program);
        };
        let Ok(typed) = src_check::check(alloc, program, self.width) else {
            return Err(Fault::Program);
        };
        Ok(typed)
    }

    // Runs the program, and tells of the run.
    fn run(&self, alloc: Global, typed: &Typed) -> Result<String, NoMemory> {
        let store = store_of(alloc, typed, self.given.as_slice())?;
        let mut run = Runner::new(alloc, typed, store)?;
        let told = self.told(alloc, &mut run);
        drop(run);
        Ok(told?)
    }

    // The row's name, and the checkpoints that the program passes.
    fn told(&self, alloc: Global, run: &mut Runner<'_>) -> Result<String, AllocError> {
        pass(run, self.skip);
        let mut told = String::from_str(alloc, "program ")?;
        push_name(&mut told, self.name.as_str())?;
        push_lines(&mut told, run, self.show)?;
        Ok(told)
    }
}

// Adds the row's name, and the line's end.
fn push_name(told: &mut String, name: &str) -> Result<(), AllocError> {
    told.push_str(name)?;
    told.push_str("\n")
}

// Passes so many checkpoints.
fn pass(run: &mut Runner<'_>, count: u64) {
    for _ in 0..count {
        run.next();
    }
}

// So many lines more, each of a checkpoint with the store, and an empty one.
fn push_lines(told: &mut String, run: &mut Runner<'_>, count: u64) -> Result<(), AllocError> {
    for _ in 0..count {
        let label = run.next();
        push_label(told, label)?;
        push_store(told, run.store())?;
    }
    told.push_str("\n")
}

// The name of a checkpoint.
fn push_label(told: &mut String, label: Checkpoint) -> Result<(), AllocError> {
    match label {
        Checkpoint::At(tree) => put(told, "at ", u64::from(tree)),
        Checkpoint::End => told.push_str("end"),
    }
}

// The cells of a store, and the line's end.
fn push_store(told: &mut String, store: &Store) -> Result<(), AllocError> {
    for cell in store.cells.as_slice() {
        put(told, " ", *cell)?;
    }
    told.push_str("\n")
}
