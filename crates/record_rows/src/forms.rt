//! One netlist, and its forms.

use crate::fault::Fault;
use crate::row::number;
use row_texts::form_lines;
use std::alloc::Global;

/// A netlist's text, and from which of its forms on how many are printed.
#[derive(Drop)]
pub struct FormRow {
    name: String,
    text: String,
    from: u64,
    most: u64,
}

impl FormRow {
    /// An empty text of this name, whose forms are all printed.
    pub fn new(alloc: Global, name: &str) -> Result<FormRow, Fault> {
        Ok(FormRow {
            name: String::from_str(alloc, name)?,
            text: String::new(alloc),
            from: 0,
            most: u64::MAX,
        })
    }

    // Adds a line of the text.
    fn add(&mut self, line: &str) -> Result<(), Fault> {
        self.text.push_str(line)?;
        self.text.push_str("\n")?;
        Ok(())
    }

    /// Takes one line of the row: its first word, and what stands behind it.
    pub fn take(&mut self, key: &str, rest: &str) -> Result<(), Fault> {
        match key {
            "|" => self.add(rest)?,
            "from" => self.from = number(rest)?,
            "first" => self.most = number(rest)?,
            _ => return Err(Fault::Line),
        }
        Ok(())
    }

    /// The lines that are printed of the forms.
    pub fn found(&self, alloc: Global) -> Result<String, Fault> {
        let (name, text) = (self.name.as_str(), self.text.as_str());
        Ok(form_lines(alloc, name, text, self.from, self.most)?)
    }
}
