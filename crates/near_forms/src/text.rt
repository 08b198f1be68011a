//! Names and numbers in a text.

use code_model::Place;
use itoa::Buffer;
use net_model::{Checked, Space};
use rec_bits::NoMemory;

/// What is named in a text: the storages of a netlist, and the variables of a program.
#[derive(Clone, Copy)]
pub struct Names<'a> {
    pub checked: &'a Checked,
    /// The variables' places.
    pub places: &'a [Place],
}

// Adds bytes as they stand.
pub(crate) fn put(text: &mut Vec<u8>, bytes: &[u8]) -> Result<(), NoMemory> {
    text.extend_from_slice(bytes)?;
    Ok(())
}

// Adds a number in decimal digits.
pub(crate) fn put_number(text: &mut Vec<u8>, number: u64) -> Result<(), NoMemory> {
    let mut digits = Buffer::new();
    put(text, digits.format(number).as_bytes())
}

// Adds a number with its width.
pub(crate) fn put_constant(text: &mut Vec<u8>, value: u64, width: u8) -> Result<(), NoMemory> {
    put_number(text, value)?;
    put(text, b"#")?;
    put_number(text, u64::from(width))
}

// Adds a comma and a number.
pub(crate) fn put_more(text: &mut Vec<u8>, number: u8) -> Result<(), NoMemory> {
    put(text, b",")?;
    put_number(text, u64::from(number))
}

// Adds the name of the storage of this number.
pub(crate) fn put_storage(text: &mut Vec<u8>, names: Names, id: u32) -> Result<(), NoMemory> {
    match names.checked.netlist().storage(id) {
        Some(storage) => put(text, storage.name()),
        None => Ok(()),
    }
}

// Adds the name of the storage that has the cells of a space.
pub(crate) fn put_space(text: &mut Vec<u8>, names: Names, space: Space) -> Result<(), NoMemory> {
    put(text, names.checked.name(space))
}

// Adds the name of the data memory.
pub(crate) fn put_memory(text: &mut Vec<u8>, names: Names) -> Result<(), NoMemory> {
    put_space(text, names, Space::Memory)
}

// Adds the name of the instruction word.
pub(crate) fn put_code(text: &mut Vec<u8>, names: Names) -> Result<(), NoMemory> {
    match names.checked.netlist().codes.get(0) {
        Some(code) => put(text, code.name.as_slice()),
        None => Ok(()),
    }
}
