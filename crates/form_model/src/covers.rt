//! Covers of trees by forms.

/// A cover of a tree: the form at its root, by its place in the list of forms, and the covers of
/// what the form's match leaves open.
#[cycle(covers)]
#[derive(Drop)]
pub struct Cover {
    /// The form's place in the list, from 0.
    pub form: usize,
    pub operands: CoverOperands,
    pub cuts: CoverCuts,
}

/// The covers of a match's operands, in the order of their evaluation.
#[cycle(covers)]
#[derive(Drop)]
pub enum CoverOperands {
    Empty,
    Then {
        /// The operand's place from the left among those that are left to evaluate, from 0.
        place: usize,
        cover: Box<Cover>,
        rest: Box<CoverOperands>,
    },
}

/// The covers of a match's cuts, from left to right.
#[cycle(covers)]
#[derive(Drop)]
pub enum CoverCuts {
    Empty,
    Then {
        cover: Box<Cover>,
        rest: Box<CoverCuts>,
    },
}
