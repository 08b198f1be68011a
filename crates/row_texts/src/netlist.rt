//! The line that is printed of a netlist.

ghost use Rattle.std.specs.Prelude.{◌≤◌, length};

use crate::fault::RowFault;
use crate::text::put;
use crate::words::{Compared, Found, compare_words};
use isa_extract::read_extracted_taken;
use std::alloc::{AllocError, Global};

// The newest edition of the netlists whose words are compared.
const EDITION: u8 = 2;

// What is found of a text, which has at most 1,048,576 bytes.
fn counted(alloc: Global, bytes: &[u8]) -> Result<Found, RowFault>
    requires { length bytes.now ≤ 1048576 }
{
    let mut read = read_extracted_taken(alloc, bytes, EDITION)?;
    let found = compare_words(alloc, &read.0, &mut read.1);
    drop(read);
    Ok(found?)
}

// Adds what is counted of all netlists.
fn put_counts(line: &mut String, found: &Found) -> Result<(), AllocError> {
    put(line, ": ", found.nets as u64)?;
    put(line, " nets, ", found.storages as u64)?;
    put(line, " storages; ", u64::from(found.patterns))?;
    put(line, " patterns, ", found.nodes)?;
    put(line, " nodes, ", found.expressions)?;
    line.push_str(" expressions")
}

// Adds what the words do.
fn put_words(line: &mut String, words: &Compared) -> Result<(), AllocError> {
    put(line, "; ", words.words)?;
    put(line, " words, ", words.clashes)?;
    put(line, " clash, ", words.differ)?;
    line.push_str(" differ")
}

// Adds what is found of a netlist.
fn put_found(line: &mut String, found: &Found) -> Result<(), AllocError> {
    put_counts(line, found)?;
    if let Some(words) = &found.words {
        put_words(line, words)?;
    }
    line.push_str("\n")
}

/// The line that is printed of a netlist of this name and text: how many nets, storages, patterns,
/// nodes and expressions it has, and what its words do.
pub fn word_line(alloc: Global, name: &str, text: &str) -> Result<String, RowFault> {
    let bytes = text.as_bytes();
    if bytes.len() > 1_048_576 {
        return Err(RowFault::Long);
    }
    let found = counted(alloc, bytes)?;
    let mut line = String::from_str(alloc, name)?;
    put_found(&mut line, &found)?;
    Ok(line)
}
