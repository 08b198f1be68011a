//! What is wrong with a source program.

/// A broken rule of source programs. A number is an offset in the text.
#[derive(Clone, Copy, Debug, PartialEq, Eq)]
pub enum SrcFault {
    /// S1: a name is declared twice.
    Duplicate(u64),
    /// S2: a name isn't declared, or not as it is used.
    Unknown(u64),
    /// S3: widths don't fit.
    Width(u64),
    /// S4: an index may lie outside its array.
    Index(u64),
    /// S5: a loop's counter is changed in the loop, or its bounds don't fit.
    Counter(u64),
    /// S6: there is too much of something.
    Limit {
        kind: SrcKind,
        count: u64,
        bound: u64,
    },
}

/// What there may be too much of in a program.
#[derive(Clone, Copy, Debug, PartialEq, Eq)]
pub enum SrcKind {
    Length,
    Statements,
    Nodes,
}
