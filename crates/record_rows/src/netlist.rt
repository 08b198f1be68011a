//! One netlist, and how much stands behind its patterns.

use crate::fault::Fault;
use row_texts::word_line;
use std::alloc::Global;

/// A netlist's text.
#[derive(Drop)]
pub struct Netlist {
    name: String,
    text: String,
}

impl Netlist {
    /// An empty text of this name.
    pub fn new(alloc: Global, name: &str) -> Result<Netlist, Fault> {
        Ok(Netlist {
            name: String::from_str(alloc, name)?,
            text: String::new(alloc),
        })
    }

    /// Takes one line of the row: its first word, and what stands behind it.
    pub fn take(&mut self, key: &str, rest: &str) -> Result<(), Fault> {
        if key != "|" {
            return Err(Fault::Line);
        }
        self.text.push_str(rest)?;
        self.text.push_str("\n")?;
        Ok(())
    }

    /// The line that is printed of the netlist.
    pub fn found(&self, alloc: Global) -> Result<String, Fault> {
        Ok(word_line(alloc, self.name.as_str(), self.text.as_str())?)
    }
}
