//! The moments at which a program and its code are compared.

/// A moment of a run: before the test of this tree's number is evaluated, or the end.
#[derive(Clone, Copy, PartialEq, Eq)]
pub enum Checkpoint {
    At(u32),
    End,
}
