//! The marks of parts.

ghost use Rattle.std.specs.Prelude.{◌≡◌, ◌+◌, ◌<◌, ◌^◌, ◌++◌, ◌∷◌, [], IfOk, OnOk};
ghost use Rattle.branch_fix.specs.Parts.{marks_from, own_marks, room, total};

use crate::part::LayoutPart;
use crate::rooms::room;
use code_model::Mark;
use rec_bits::{Items, NoMemory};
use std::alloc::Global;

// Want of memory where the address is past those of code.
fn push_mark(marks: &mut Items<Mark>, at: u64, label: Option<u32>) -> Result<(), NoMemory>
    ensures { OnOk result (marks.new ≡ marks.old ++ record { address = at; label = label } ∷ []) }
{
    if at > u64::from(u32::MAX) {
        return Err(NoMemory);
    }
    marks.push(Mark {
        address: at as u32,
        label,
    })?;
    Ok(())
}

// Adds the mark of a part at an address, if it has one.
fn push_own(marks: &mut Items<Mark>, at: u64, part: LayoutPart) -> Result<(), NoMemory>
    requires { at + room part < 2 ^ 64 }
    ensures { OnOk result (marks.new ≡ marks.old ++ own_marks at part) }
{
    match part {
        LayoutPart::Test(fork) => push_mark(marks, at, Some(fork.tree)),
        LayoutPart::End => push_mark(marks, at, None),
        _ => Ok(()),
    }
}

/// The marks of parts.
pub fn marks(alloc: Global, parts: &[LayoutPart]) -> Result<Items<Mark>, NoMemory>
    requires { total parts.now < 2 ^ 64 }
    ensures { IfOk result (λ marks. marks ≡ marks_from 0 parts.now) }
{
    let mut marks = Items::new(alloc);
    let mut address = 0;
    for part in parts {
        push_own(&mut marks, address, *part)?;
        address += room(*part);
    }
    Ok(marks)
}
