//! Why an image doesn't pass.

ghost use Rattle.std.specs.Prelude.{◌≡◌};
ghost use Rattle.followed.specs.declared.fault.CheckFault.{CheckFault};

use rec_bits::NoMemory;
use segment::Why;

/// Why an image doesn't pass: the first of these that was found. But for want of memory they say how
/// far the check came, and nothing of the image.
#[derive(Clone, Copy, PartialEq, Eq)]
pub enum CheckFault {
    /// The netlist has a mode register.
    Mode,
    /// The cells of the data memory aren't as wide as the program's numbers.
    Width,
    /// The place of this number isn't that of the program's variable of the same number, isn't
    /// behind the temporary cells and in the memory, or has a cell of a later place.
    Place(u32),
    /// The marks aren't those of the program's tests and of its end, which is the last word.
    Marks,
    /// The view of this number isn't plain, or lies below the one before it, or a later one is of the
    /// same variable and mark.
    View(u32),
    /// A variable is hidden at the first word.
    Hidden,
    /// Buses clash under the word at this address.
    Clash(u64),
    /// The last word doesn't go to itself, or it isn't known that it keeps the memory.
    EndWord,
    /// The hint of this number doesn't lie above the one before it, or isn't of a mark, with the
    /// mark's label and views.
    Hint(u32),
    /// No hint is of the mark at this address.
    NoHint(u32),
    /// It isn't known where the first words lead.
    First(Why),
    /// It isn't known where the words lead from the mark at an address, where its test has an answer.
    Mark {
        address: u32,
        answer: bool,
        why: Why,
    },
    /// Want of memory.
    Memory,
}

impl From<NoMemory> for CheckFault {
    ghost from_gives = { λ _ fault. fault ≡ CheckFault.Memory };

    fn from(_cause: NoMemory) -> CheckFault {
        CheckFault::Memory
    }
}
