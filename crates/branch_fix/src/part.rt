//! What stands at the places of a flow.

/// A test with its branch.
#[derive(Clone, Copy, PartialEq, Eq)]
pub struct BranchedTest {
    /// The number of its tree.
    pub tree: u32,
    /// The number of its operands' block, and the words of that.
    pub block: u32,
    pub words: u32,
    /// Its branch form, by its place in the list, and the setting of its condition's bits.
    pub form: usize,
    pub setting: u64,
    /// The place of the flow that the branch goes to.
    pub to: u32,
    /// The place where it goes on otherwise.
    pub other: u32,
    /// Whether the other place comes next.
    pub next: bool,
    /// Whether the branch is three words.
    pub long: bool,
}

/// What stands at a place of a flow.
#[derive(Clone, Copy, PartialEq, Eq)]
pub enum LayoutPart {
    /// A block of assignments that begins here, by its number, with its words.
    Block { block: u32, words: u32 },
    /// An assignment of the block that began before.
    Inner,
    /// A test.
    Test(BranchedTest),
    /// A jump to this place.
    Jump(u32),
    /// The end.
    End,
}
