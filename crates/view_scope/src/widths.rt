//! The width of a term.

ghost use Rattle.std.specs.Prelude.{◌≡◌, option_copied};
ghost use Rattle.view_terms.specs.Terms.{model_of_term};
ghost use Rattle.view_scope.specs.Widths.{both_width, cell_read, cell_width, element_read, element_width, has_place, name_in, number_in, one_width, part_width, place_width, read_width, register_width, three_width, tree_width, two_width};

use crate::operators::{constant_width, extended_width, pair_width, sliced_width, unary_width};
use code_model::Place;
use net_model::{Cells, Storage};
use view_terms::Term;

/// The width of the first register of a name.
pub fn register_width(storages: &[Storage], name: &[u8]) -> Option<u8>
    ensures { result ≡ register_width storages.now name.now }
{
    let (storage, rest) = storages.split_first()?;
    match storage {
        Storage::Register {
            name: own,
            width,
            ..
        } => {
            if own.as_slice() == name {
                Some(*width)
            } else {
                register_width(rest, name)
            }
        }
        Storage::Memory(_cells) => register_width(rest, name),
        Storage::File(_cells) => register_width(rest, name),
    }
}

// The width of a cell, where an address is so wide.
fn read_width(cells: &Cells, addr: u8) -> Option<u8>
    ensures { result ≡ read_width cells.now addr }
{
    if cells.addr_width == addr {
        Some(cells.width)
    } else {
        None
    }
}

// The width of a cell of the first cells of a name, where an address is so wide.
fn cell_width(storages: &[Storage], name: &[u8], addr: u8) -> Option<u8>
    ensures { result ≡ cell_width storages.now name.now addr }
{
    let (storage, rest) = storages.split_first()?;
    match storage {
        Storage::Register { .. } => cell_width(rest, name, addr),
        Storage::Memory(cells) => {
            if cells.name.as_slice() == name {
                read_width(cells, addr)
            } else {
                cell_width(rest, name, addr)
            }
        }
        Storage::File(cells) => {
            if cells.name.as_slice() == name {
                read_width(cells, addr)
            } else {
                cell_width(rest, name, addr)
            }
        }
    }
}

// Whether a place has a name.
fn has_place(places: &[Place], name: &[u8]) -> bool
    ensures { result ≡ has_place places.now name.now }
{
    places.iter().any(|place| place.name.as_slice() == name)
}

// The width of a variable of a name.
fn place_width(places: &[Place], word: u8, name: &[u8]) -> Option<u8>
    ensures { result ≡ place_width places.now word name.now }
{
    if has_place(places, name) {
        Some(word)
    } else {
        None
    }
}

// The width of an element of a variable of a name, where an index is so wide.
#[tactic(auto, unfolding(crate::specs::Widths::element_width))]
fn element_width(places: &[Place], word: u8, name: &[u8], index: u8) -> Option<u8>
    ensures { result ≡ element_width places.now word name.now index }
{
    if index == word {
        place_width(places, word, name)
    } else {
        None
    }
}

/// The number that a term is.
pub fn number_in(term: &Term) -> Option<u64>
    ensures { result ≡ number_in (model_of_term term.now) }
{
    match term {
        Term::Number(number) => Some(*number),
        _ => None,
    }
}

/// The name that a term is.
pub fn name_in(term: &Term) -> Option<&[u8]>
    ensures { option_copied result ≡ name_in (model_of_term term.now) }
{
    match term {
        Term::Name(name) => Some(name.as_slice()),
        _ => None,
    }
}

// The width of a word with one term, from that of the term.
#[tactic(auto, unfolding(crate::specs::Widths::one_width))]
fn one_width(word: &[u8], a: Option<u8>) -> Option<u8>
    ensures { result ≡ one_width word.now a }
{
    unary_width(word, a?)
}

// The width of an operator's value at two terms of these widths.
#[tactic(auto, unfolding(crate::specs::Widths::both_width))]
fn both_width(word: &[u8], a: Option<u8>, b: Option<u8>) -> Option<u8>
    ensures { result ≡ both_width word.now a b }
{
    let a = a?;
    pair_width(word, a, b?)
}

// The width of a word with two terms, from the widths of the terms and of the cell that they read.
#[tactic(auto, unfolding(crate::specs::Widths::two_width))]
fn two_width(
    word: &[u8],
    second: &Term,
    read: Option<u8>,
    a: Option<u8>,
    b: Option<u8>,
) -> Option<u8>
    ensures { result ≡ two_width word.now (model_of_term second.now) read a b }
{
    if let Some(width) = number_in(second) {
        return extended_width(word, a?, width);
    }
    if word == b"read".as_slice() {
        read
    } else {
        both_width(word, a, b)
    }
}

// The width of a word with three terms, from that of the first.
#[tactic(auto, unfolding(crate::specs::Widths::three_width))]
fn three_width(word: &[u8], a: Option<u8>, hi: &Term, lo: &Term) -> Option<u8>
    ensures { result ≡ three_width word.now a (model_of_term hi.now) (model_of_term lo.now) }
{
    let a = a?;
    let hi = number_in(hi)?;
    sliced_width(word, a, hi, number_in(lo)?)
}

// The width of a cell that a term names, from the width of the address.
#[tactic(auto, unfolding(crate::specs::Widths::cell_read))]
fn cell_read(storages: &[Storage], cells: &Term, addr: Option<u8>) -> Option<u8>
    ensures { result ≡ cell_read storages.now (model_of_term cells.now) addr }
{
    let name = name_in(cells)?;
    cell_width(storages, name, addr?)
}

// The width of an element of the variable that a term names, from the width of the index.
#[tactic(auto, unfolding(crate::specs::Widths::element_read))]
fn element_read(places: &[Place], word: u8, array: &Term, index: Option<u8>) -> Option<u8>
    ensures { result ≡ element_read places.now word (model_of_term array.now) index }
{
    let name = name_in(array)?;
    element_width(places, word, name, index?)
}

/// The width of a term over registers and cells, or None where a name isn't there, a word is that of no
/// operator, or widths don't agree.
pub fn part_width(storages: &[Storage], term: &Term) -> Option<u8>
    ensures { result ≡ part_width storages.now (model_of_term term.now) }
{
    match term {
        Term::Name(name) => register_width(storages, name.as_slice()),
        Term::Number(_number) => None,
        Term::Constant { value, width } => constant_width(*value, *width),
        Term::One(word, a) => one_width(word.as_slice(), part_width(storages, a)),
        Term::Two(word, a, b) => {
            let second = part_width(storages, b);
            let read = cell_read(storages, a, second);
            two_width(word.as_slice(), b, read, part_width(storages, a), second)
        }
        Term::Three(word, a, b, c) => three_width(word.as_slice(), part_width(storages, a), b, c),
    }
}

/// The width of a term over variables, each of which is as wide as a cell; or None as above.
pub fn tree_width(places: &[Place], word: u8, term: &Term) -> Option<u8>
    ensures { result ≡ tree_width places.now word (model_of_term term.now) }
{
    match term {
        Term::Name(name) => place_width(places, word, name.as_slice()),
        Term::Number(_number) => None,
        Term::Constant { value, width } => constant_width(*value, *width),
        Term::One(operator, a) => one_width(operator.as_slice(), tree_width(places, word, a)),
        Term::Two(operator, a, b) => {
            let second = tree_width(places, word, b);
            let read = element_read(places, word, a, second);
            let first = tree_width(places, word, a);
            two_width(operator.as_slice(), b, read, first, second)
        }
        Term::Three(operator, a, b, c) => {
            three_width(operator.as_slice(), tree_width(places, word, a), b, c)
        }
    }
}
