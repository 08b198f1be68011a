//! Rows, by their kinds.

use crate::call::Call;
use crate::cover_row::CoverRow;
use crate::fault::Fault;
use crate::forms::FormRow;
use crate::netlist::Netlist;
use crate::program::Program;
use std::alloc::Global;

/// What a row asks for.
#[derive(Drop)]
pub enum Row {
    /// A call of `record_call`.
    Call(Call),
    /// A program, and the checkpoints that it passes.
    Program(Program),
    /// A netlist, and what its words do.
    Netlist(Netlist),
    /// A netlist, and its forms.
    Forms(FormRow),
    /// A netlist and a program, and the covers of its jobs.
    Cover(CoverRow),
    /// No row has begun.
    Nothing,
}

impl Row {
    // The row that a line of this first word begins, if it begins one.
    fn begun(alloc: Global, key: &str, name: &str) -> Result<Option<Row>, Fault> {
        Ok(Some(match key {
            "row" => Row::Call(Call::new(alloc, name)?),
            "program" => Row::Program(Program::new(alloc, name)?),
            "netlist" => Row::Netlist(Netlist::new(alloc, name)?),
            "forms" => Row::Forms(FormRow::new(alloc, name)?),
            "cover" => Row::Cover(CoverRow::new(alloc, name)?),
            _ => return Ok(None),
        }))
    }

    // Takes a line behind the first.
    fn add(&mut self, alloc: Global, key: &str, rest: &str) -> Result<(), Fault> {
        match self {
            Row::Call(call) => call.take(alloc, key, rest),
            Row::Program(program) => program.take(key, rest),
            Row::Netlist(netlist) => netlist.take(key, rest),
            Row::Forms(row) => row.take(key, rest),
            Row::Cover(row) => row.take(key, rest),
            Row::Nothing => Err(Fault::Line),
        }
    }

    /// Takes one line, of which the first says what kind of row it is.
    pub fn take(&mut self, alloc: Global, line: &str) -> Result<(), Fault> {
        let Some((key, rest)) = line.split_once(" ") else {
            return Err(Fault::Line);
        };
        match Row::begun(alloc, key, rest)? {
            Some(row) => *self = row,
            None => self.add(alloc, key, rest)?,
        }
        Ok(())
    }

    /// The text that is printed of the row.
    pub fn found(self, alloc: Global) -> Result<String, Fault> {
        match self {
            Row::Call(call) => call.found(alloc),
            Row::Program(program) => program.found(alloc),
            Row::Netlist(netlist) => netlist.found(alloc),
            Row::Forms(row) => row.found(alloc),
            Row::Cover(row) => row.found(alloc),
            Row::Nothing => Err(Fault::Line),
        }
    }
}

/// The number that the text writes.
pub fn number(text: &str) -> Result<u64, Fault> {
    match text.parse::<u64>() {
        Ok(number) => Ok(number),
        Err(_) => Err(Fault::Number),
    }
}
