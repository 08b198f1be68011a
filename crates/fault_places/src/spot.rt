//! Where a fault stands.

ghost use Rattle.std.specs.Prelude.{◌<◌, ◌^◌, length};

use check_command::RuleFault;
use follow::MarkFault;
use job_places::places_of;
use rec_bits::NoMemory;
use record_core::{Status, name_place};
use src_model::SrcFault;
use std::alloc::Global;

/// What a status tells of a place in a file.
#[derive(Clone, Copy, Debug, PartialEq, Eq)]
pub enum FaultPlace {
    /// The offset.
    At(u64),
    /// The line, counted from 0.
    Line(u64),
    /// The statement of the program's tree of this number.
    Tree(u32),
}

// The offset of the name that a broken rule of programs tells.
fn src_offset(fault: SrcFault) -> Option<u64> {
    match fault {
        SrcFault::Duplicate(at)
        | SrcFault::Unknown(at)
        | SrcFault::Width(at)
        | SrcFault::Index(at)
        | SrcFault::Counter(at) => Some(at),
        SrcFault::Limit { .. } => None,
    }
}

/// The file that a status tells of, by its place among the words that name files, from 0, and what
/// it tells of the place there. None where it tells of no place. An image is the second file but of
/// `check`, where it is the third.
pub fn spot_of(status: Status) -> Option<(usize, FaultPlace)> {
    let (file, spot) = match status {
        Status::NetText(at) => (0, FaultPlace::At(at)),
        Status::Net(fault) => (0, FaultPlace::At(name_place(fault)?)),
        Status::SrcText(at) | Status::ImageText(at) | Status::AsmText(at) => (
            1,
            FaultPlace::At(at),
        ),
        Status::Src(fault) => (1, FaultPlace::At(src_offset(fault)?)),
        Status::NoCover(tree) | Status::Rule(RuleFault::Mark(MarkFault::Unmarked(tree))) => (
            1,
            FaultPlace::Tree(tree),
        ),
        Status::AsmWord(line) => (1, FaultPlace::Line(line)),
        Status::MemText(at) | Status::PartText(at) => (2, FaultPlace::At(at)),
        _ => return None,
    };
    Some((file, spot))
}

// The offset at which the line of this number begins.
fn line_offset(text: &[u8], number: u64) -> Option<u64> {
    let mut line = 0;
    for (at, byte) in text.iter().enumerate() {
        if line == number {
            return Some(at as u64);
        }
        if *byte == b'\n' {
            line += 1;
        }
    }
    None
}

// The offset of the statement of the program's tree of this number.
fn tree_offset(alloc: Global, text: &[u8], tree: u32) -> Result<Option<u64>, NoMemory>
    requires { length text.now < 2 ^ 32 }
{
    let Ok(program) = src_parser::read(alloc, text) else {
        return Ok(None);
    };
    let places = places_of(alloc, &program)?;
    Ok(places.get(tree as usize).map(|place| place.at))
}

/// The offset of a place in the file's text. None where the text has no such place.
pub fn offset_in(alloc: Global, text: &[u8], spot: FaultPlace) -> Result<Option<u64>, NoMemory>
    requires { length text.now < 2 ^ 32 }
{
    match spot {
        FaultPlace::At(at) => Ok(Some(at)),
        FaultPlace::Line(number) => Ok(line_offset(text, number)),
        FaultPlace::Tree(tree) => tree_offset(alloc, text, tree),
    }
}
