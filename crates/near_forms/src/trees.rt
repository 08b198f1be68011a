//! Trees, in the notation of patterns.

use crate::text::{Names, put, put_constant, put_memory, put_more, put_number};
use code_model::Place;
use form_model::Tree;
use rec_bits::NoMemory;
use transfer_set::{word_of_one, word_of_two};

// Whether the place has the cell of this address.
fn has_cell(place: &Place, address: u64) -> bool {
    let first = u64::from(place.address);
    first <= address && address < first + u64::from(place.len)
}

// The place that has the cell of this address.
fn place_of<'a>(places: &'a [Place], address: u64) -> Option<&'a Place> {
    for place in places {
        if has_cell(place, address) {
            return Some(place);
        }
    }
    None
}

// Adds a variable's cell: its name, and for an array the cell's index.
fn put_cell(text: &mut Vec<u8>, place: &Place, address: u64) -> Result<(), NoMemory> {
    put(text, place.name.as_slice())?;
    if place.len == 1 {
        return Ok(());
    }
    put(text, b"[")?;
    put_number(text, address.saturating_sub(u64::from(place.address)))?;
    put(text, b"]")
}

// The place of the variable that a read at this address reads.
fn place_at<'a>(names: Names<'a>, address: &Tree) -> Option<&'a Place> {
    match address {
        Tree::Lit { value, .. } => place_of(names.places, *value),
        _ => None,
    }
}

// Adds a read of a variable's cell, or of another.
#[cycle(writing)]
fn add_read(text: &mut Vec<u8>, names: Names, address: &Tree) -> Result<(), NoMemory> {
    if let Tree::Lit { value, .. } = address {
        if let Some(place) = place_at(names, address) {
            return put_cell(text, place, *value);
        }
    }
    put(text, b"read(")?;
    put_memory(text, names)?;
    put(text, b",")?;
    add_tree(text, names, address)?;
    put(text, b")")
}

// Adds a word, a bracket that opens and a tree.
#[cycle(writing)]
fn begin(text: &mut Vec<u8>, names: Names, word: &str, tree: &Tree) -> Result<(), NoMemory> {
    put(text, word.as_bytes())?;
    put(text, b"(")?;
    add_tree(text, names, tree)
}

/// Adds a tree in the notation of patterns; a read of a variable's cell is the variable.
#[cycle(writing)]
pub fn add_tree(text: &mut Vec<u8>, names: Names, tree: &Tree) -> Result<(), NoMemory> {
    match tree {
        Tree::Lit { width, value } => return put_constant(text, *value, *width),
        Tree::Read(a, _) => return add_read(text, names, a),
        Tree::Un(op, a) => begin(text, names, word_of_one(*op), a)?,
        Tree::Bin(op, a, b) => {
            begin(text, names, word_of_two(*op), a)?;
            put(text, b",")?;
            add_tree(text, names, b)?;
        }
        Tree::Slice(a, hi, lo) => {
            begin(text, names, "slice", a)?;
            put_more(text, *hi)?;
            put_more(text, *lo)?;
        }
        Tree::Zext(a, width) => {
            begin(text, names, "zext", a)?;
            put_more(text, *width)?;
        }
        Tree::Sext(a, width) => {
            begin(text, names, "sext", a)?;
            put_more(text, *width)?;
        }
    }
    put(text, b")")
}
