//! Cells of cuts.

/// The temporary cells of a cover's cuts, in the order in which the cuts are evaluated: in the
/// order of the tree from left to right, and each after those inside it.
#[derive(Drop)]
pub struct Cells {
    pub list: Vec<usize>,
}
