//! The order of remarks.

ghost use Rattle.std.specs.Prelude.{◌≡◌};
ghost use Rattle.view_scope.specs.Turns.{is_before, is_first_by, is_holder_before, is_view, may_follow};

/// Where what holds a value is: among the registers, in the file, or in the memory. That is also their
/// order.
#[derive(Clone, Copy)]
pub enum HolderSpace {
    Registers,
    File,
    Memory,
}

/// Where a remark stands among others: by what it says, in the order of these variants; then by the
/// number of its test, or the address of its mark; and then by the number of the variable, or by what
/// holds the value, which is the register or the cell of this number.
#[derive(Clone, Copy)]
pub enum Turn {
    HideAtTest {
        test: u32,
        variable: usize,
    },
    HideAtEnd {
        variable: usize,
    },
    View {
        address: u32,
        variable: usize,
    },
    Hold {
        address: u32,
        space: HolderSpace,
        index: usize,
    },
    Know {
        address: u32,
        variable: usize,
    },
}

// Whether a test or a mark comes before another, or is the same and what is remarked there comes
// before.
fn is_first_by(first: u32, second: u32, is_before: bool) -> bool
    ensures { result ≡ is_first_by first second is_before }
{
    if first == second {
        is_before
    } else {
        first < second
    }
}

// Whether a register or a cell comes before another.
fn is_holder_before(
    space: HolderSpace,
    index: usize,
    next_space: HolderSpace,
    next_index: usize,
) -> bool
    ensures { result ≡ is_holder_before space index next_space next_index }
{
    match (space, next_space) {
        (HolderSpace::Registers, HolderSpace::Registers)
        | (HolderSpace::File, HolderSpace::File)
        | (HolderSpace::Memory, HolderSpace::Memory) => index < next_index,
        (HolderSpace::Registers, _) | (HolderSpace::File, HolderSpace::Memory) => true,
        _ => false,
    }
}

// Whether a turn comes before another.
#[tactic(auto, unfolding(crate::specs::Turns::is_before))]
fn is_before(first: Turn, second: Turn) -> bool
    ensures { result ≡ is_before first second }
{
    match (first, second) {
        (
            Turn::HideAtTest { test, variable },
            Turn::HideAtTest {
                test: next,
                variable: other,
            },
        ) => is_first_by(test, next, variable < other),
        (Turn::HideAtTest { .. }, _) => true,
        (_, Turn::HideAtTest { .. }) => false,
        (Turn::HideAtEnd { variable }, Turn::HideAtEnd { variable: other }) => variable < other,
        (Turn::HideAtEnd { .. }, _) => true,
        (_, Turn::HideAtEnd { .. }) => false,
        (
            Turn::View { address, variable },
            Turn::View {
                address: next,
                variable: other,
            },
        ) => is_first_by(address, next, variable < other),
        (Turn::View { .. }, _) => true,
        (_, Turn::View { .. }) => false,
        (
            Turn::Hold {
                address,
                space,
                index,
            },
            Turn::Hold {
                address: next,
                space: next_space,
                index: next_index,
            },
        ) => is_first_by(
            address,
            next,
            is_holder_before(space, index, next_space, next_index),
        ),
        (Turn::Hold { .. }, _) => true,
        (_, Turn::Hold { .. }) => false,
        (
            Turn::Know { address, variable },
            Turn::Know {
                address: next,
                variable: other,
            },
        ) => is_first_by(address, next, variable < other),
    }
}

// Whether a turn is a view's.
fn is_view(turn: Turn) -> bool
    ensures { result ≡ is_view turn }
{
    matches!(turn, Turn::View { .. })
}

/// Whether a remark may stand behind another: it comes later, or both are views of one variable at one
/// mark, which the rules of views refuse.
#[tactic(auto, unfolding(crate::specs::Turns::may_follow))]
pub fn may_follow(last: Option<Turn>, next: Turn) -> bool
    ensures { result ≡ may_follow last next }
{
    match last {
        None => true,
        Some(last) => is_before(last, next) || (is_view(next) && !is_before(next, last)),
    }
}
