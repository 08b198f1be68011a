//! What is found of the words behind a mark.

ghost use Rattle.std.specs.Prelude.{◌≡◌, if◌then◌else◌};
ghost use Rattle.segment.specs.Proved.{IsTaken};
ghost use Rattle.segment.specs.declared.way.Why.{Why as TheWhy};

/// Where words lead from a mark, where its test has an answer, or from the first word.
#[derive(Clone, Copy, PartialEq, Eq)]
pub enum Way {
    /// So many clocks lead to the mark of an address, and all is there as its hint says.
    Takes { clocks: u64, to: u64 },
    /// No state at the mark has the answer.
    Never,
    /// It isn't known.
    Unknown(Why),
}

/// Why it isn't known where words lead.
#[derive(Clone, Copy, PartialEq, Eq)]
pub enum Why {
    /// More expressions than are taken on lie between the mark and the next.
    Full,
    /// There is no job of the test's number.
    Test,
    /// An array isn't shown in its place at the mark from which they lead.
    Array,
    /// The path's jobs aren't known: one writes to an address that isn't.
    Path,
    /// What the word at an address does isn't known, or which word comes behind it.
    Word(u64),
    /// No mark within the clocks.
    Clocks,
    /// At the mark of an address, which has no hint or another label.
    Mark(u64),
    /// At the mark of an address, where something isn't as its hint says.
    Unlike { at: u64, what: Equation },
}

/// What a hint says: of the variable, holding or known number with this place in its list.
#[derive(Clone, Copy, PartialEq, Eq)]
pub enum Equation {
    Variable(u32),
    Holding(u32),
    Number(u32),
}

// Where words end: at the mark of an address, and so many of the clocks are left.
#[derive(Clone, Copy)]
pub(crate) enum End {
    Mark { address: u64, left: u64 },
    Lost(Why),
}

// The way to an end, which took the clocks that aren't left of the most, and some first ones. Where
// the table is full, that is why a mark isn't known.
pub(crate) fn way_to(end: End, is_full: bool, most: u64, first: u64) -> Way
    ensures taken { IsTaken most first end result }
    ensures lost { (why : TheWhy) → end ≡ End.Lost why → result ≡ Way.Unknown (if is_full then Why.Full else why) }
{
    match end {
        End::Mark { address, left } => match most.saturating_sub(left).checked_add(first) {
            Some(clocks) => Way::Takes {
                clocks,
                to: address,
            },
            None => Way::Unknown(Why::Clocks),
        },
        End::Lost(_) if is_full => Way::Unknown(Why::Full),
        End::Lost(why) => Way::Unknown(why),
    }
}
