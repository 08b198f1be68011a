//! From a line of a memory text to what it sets.

ghost use Rattle.std.specs.Prelude.{◌≡◌, ◌≤◌, Some};
ghost use Rattle.std.specs.Str.{bytes_eq};
ghost use Rattle.net_model.specs.Nets.{storage_bits, storage_name};
ghost use Rattle.rec_bits.specs.Operators.{IsWidth};
ghost use Rattle.state_text.specs.Inner.Settings.{number_below, named_at, entry_of, cell_of, array_at, setting_at, setting_for, setting_of};
ghost use Rattle.text_lines.specs.Fields.{line_end};

use crate::setting::Setting;
use net_model::{Cells, Checked, Space, Storage};
use rec_bits::mask;
use text_lines::{cut, line_end, number};

// The number of so many bits to the end of the line.
#[tactic(auto, unfolding(crate::specs::Inner::Settings::number_below))]
fn number_below(text: &[u8], width: u8) -> Option<u64>
    requires some { 1 ≤ width }
    requires narrow { width ≤ 64 }
    ensures { result ≡ number_below width text.now }
{
    let value = number(line_end(text)?)?;
    if value <= mask(width) {
        Some(value)
    } else {
        None
    }
}

fn is_named(storage: &Storage, name: &[u8]) -> bool
    ensures { result ≡ bytes_eq (storage_name storage.now) name.now }
{
    storage.name() == name
}

// The number of the first storage of this name.
fn named_at(storages: &[Storage], name: &[u8]) -> Option<usize>
    ensures { result ≡ named_at storages.now name.now }
{
    storages.iter().position(|storage| is_named(storage, name))
}

#[tactic(auto, unfolding(crate::specs::Inner::Settings::entry_of))]
fn entry_of(storage: u32, width: u8, text: &[u8]) -> Option<Setting>
    requires some { 1 ≤ width }
    requires narrow { width ≤ 64 }
    ensures { result ≡ entry_of storage width text.now }
{
    let value = number_below(text, width)?;
    Some(Setting::Entry { storage, value })
}

#[tactic(auto, unfolding(crate::specs::Inner::Settings::cell_of))]
fn cell_of(space: Space, size: u32, width: u8, text: &[u8]) -> Option<Setting>
    requires some { 1 ≤ width }
    requires narrow { width ≤ 64 }
    ensures { result ≡ cell_of space size width text.now }
{
    let (front, rest) = cut(text, b' ')?;
    let address = number(front)?;
    let value = number_below(rest, width)?;
    if address < u64::from(size) {
        Some(Setting::Cell {
            space,
            address: address as u32,
            value,
        })
    } else {
        None
    }
}

// What stands behind the name of a storage with cells.
#[tactic(auto, unfolding(crate::specs::Inner::Settings::array_at))]
fn array_at(checked: &Checked, id: u32, space: Space, cells: &Cells, text: &[u8]) -> Option<Setting>
    requires { IsWidth cells.now.width }
    ensures { result ≡ array_at checked.now.netlist.storages id space cells.now text.now }
{
    if id != checked.place(space) {
        return None;
    }
    cell_of(space, cells.size, cells.width, text)
}

// What stands behind the name of a storage.
#[tactic(auto, unfolding(crate::specs::Inner::Settings::setting_at))]
fn setting_at(
    checked: &Checked,
    still: Option<u32>,
    id: u32,
    storage: &Storage,
    text: &[u8],
) -> Option<Setting>
    requires { IsWidth (storage_bits (Some storage.now)) }
    ensures { result ≡ setting_at checked.now.netlist still id (Some storage.now) text.now }
{
    match storage {
        Storage::Register { width, .. } => {
            if id == checked.pc() || still == Some(id) {
                return None;
            }
            entry_of(id, *width, text)
        }
        Storage::Memory(cells) => array_at(checked, id, Space::Memory, cells, text),
        Storage::File(cells) => array_at(checked, id, Space::File, cells, text),
    }
}

// What stands behind a name.
#[tactic(auto, unfolding(crate::specs::Inner::Settings::setting_for))]
fn setting_for(checked: &Checked, still: Option<u32>, name: &[u8], text: &[u8]) -> Option<Setting>
    ensures { result ≡ setting_for checked.now.netlist still name.now text.now }
{
    let storages = &checked.netlist().storages;
    let place = named_at(storages.as_slice(), name)?;
    let storage = storages.get(place)?;
    setting_at(checked, still, place as u32, storage, text)
}

/// What a line sets, or None where it isn't of the form: a register's name, but for the program
/// counter's and for `still`, and a value, or the memory's or the file's name, an address and a
/// value, with single spaces between and LF behind.
#[tactic(auto, unfolding(crate::specs::Inner::Settings::setting_of))]
pub fn setting_of(checked: &Checked, still: Option<u32>, line: &[u8]) -> Option<Setting>
    ensures { result ≡ setting_of checked.now.netlist still line.now }
{
    let (name, text) = cut(line, b' ')?;
    setting_for(checked, still, name, text)
}
