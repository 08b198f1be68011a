//! One netlist and one program, and what the covers of the program's jobs cost.

use crate::fault::Fault;
use row_texts::cover_lines;
use std::alloc::Global;

/// A netlist's text and a program's.
#[derive(Drop)]
pub struct CoverRow {
    name: String,
    netlist: String,
    program: String,
}

impl CoverRow {
    /// Empty texts of this name.
    pub fn new(alloc: Global, name: &str) -> Result<CoverRow, Fault> {
        Ok(CoverRow {
            name: String::from_str(alloc, name)?,
            netlist: String::new(alloc),
            program: String::new(alloc),
        })
    }

    /// Takes one line of the row: its first word, and what stands behind it.
    pub fn take(&mut self, key: &str, rest: &str) -> Result<(), Fault> {
        let text = match key {
            "|" => &mut self.netlist,
            ">" => &mut self.program,
            _ => return Err(Fault::Line),
        };
        text.push_str(rest)?;
        text.push_str("\n")?;
        Ok(())
    }

    /// The lines that are printed of the covers.
    pub fn found(&self, alloc: Global) -> Result<String, Fault> {
        let (netlist, program) = (self.netlist.as_str(), self.program.as_str());
        Ok(cover_lines(alloc, self.name.as_str(), netlist, program)?)
    }
}
