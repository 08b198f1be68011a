//! What is wrong with the marks of an image.

ghost use Rattle.std.specs.Prelude.{ℕ, ◌≡◌, ◌+◌, ◌<◌, ◌↔◌, length, IfNone, IfSome, IsTrue, MatchOption, None, Some, slice_get};
ghost use Rattle.code_model.specs.ImageFits.{AreMarksAfter};
ghost use Rattle.code_model.specs.declared.image.Mark.{Mark};
ghost use Rattle.follow.specs.Inner.Marked.{AreLabelled, AreLabelsTested, AreOnLast, IsBare, IsFirstStray};
ghost use Rattle.follow.specs.MarkFaults.{AreMarksRight, HasEnd, IsMarkFault};
ghost use Rattle.follow.specs.RightByViews.{IsTestOf};

use crate::marks::{has_label, has_test, tested_tree};
use crate::trail::item_at;
use code_model::{Image, Mark};
use form_model::Flow;

/// What is wrong with the marks of an image, first.
#[derive(Clone, Copy, Debug, PartialEq, Eq)]
pub enum MarkFault {
    /// The test of this number has no mark, and each test before it has one.
    Unmarked(u32),
    /// All tests have marks; and the last word hasn't that of the end, or another word has it.
    End,
    /// The mark of the end is right too; and the mark of this address has a number of no test, and
    /// each mark before it is a test's.
    Stray { address: u32, tree: u32 },
}

// The first test of a flow that has no mark.
fn unmarked(flow: &[Flow], marks: &[Mark]) -> Option<u32>
    ensures { MatchOption result (AreLabelled flow.now marks.now) (IsBare flow.now marks.now) }
{
    for i in 0..flow.len() {
        if let Some(tree) = tested_tree(item_at(flow, i)) {
            if !has_label(marks, Some(tree)) {
                return Some(tree);
            }
        }
    }
    None
}

// Whether each mark of the end is that of the last of so many words.
fn are_on_last(words: usize, marks: &[Mark]) -> bool
    ensures { IsTrue result ↔ AreOnLast words marks.now }
{
    for i in 0..marks.len() {
        if marks[i].label == None && marks[i].address as usize + 1 != words {
            return false;
        }
    }
    true
}

// Whether the last word has the mark of the end, and no other word has it.
fn has_end(image: &Image) -> bool
    requires { AreMarksAfter None image.now.marks }
    ensures { IsTrue result ↔ HasEnd image.now }
{
    let marks = image.marks.as_slice();
    has_label(marks, None) && are_on_last(image.words.len(), marks)
}

// The number of a mark, if it is that of no test.
fn untested(flow: &[Flow], mark: Mark) -> Option<u32>
    ensures { MatchOption result ((tree : ℕ) → mark.label ≡ Some tree → IsTestOf flow.now tree)
        (λ tree. (mark.label ≡ Some tree) × (IsTestOf flow.now tree → ⊥)) }
{
    let tree = mark.label?;
    if has_test(flow, tree) {
        None
    } else {
        Some(tree)
    }
}

// The first mark whose number is that of no test.
fn stray(flow: &[Flow], marks: &[Mark]) -> Option<MarkFault>
    ensures { MatchOption result (AreLabelsTested flow.now marks.now) (IsFirstStray flow.now marks.now) }
{
    for i in 0..marks.len() {
        if let Some(tree) = untested(flow, marks[i]) {
            return Some(MarkFault::Stray {
                address: marks[i].address,
                tree,
            });
        }
    }
    None
}

/// What is wrong first with the marks of an image, which ascend, as those of a flow.
pub fn mark_fault(flow: &[Flow], image: &Image) -> Option<MarkFault>
    requires { AreMarksAfter None image.now.marks }
    ensures fault { IfSome result (IsMarkFault flow.now image.now) }
    ensures right { IfNone result (AreMarksRight flow.now image.now) }
{
    let marks = image.marks.as_slice();
    if let Some(tree) = unmarked(flow, marks) {
        return Some(MarkFault::Unmarked(tree));
    }
    if !has_end(image) {
        return Some(MarkFault::End);
    }
    stray(flow, marks)
}
