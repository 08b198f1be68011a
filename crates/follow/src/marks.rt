//! The labels of an image's marks, and whether they are those of a program's flow.

ghost use Rattle.std.specs.Prelude.{ℕ, ◌≡◌, ◌≤◌, ◌<◌, ◌↔◌, length, IsTrue, None, Some, slice_get};
ghost use Rattle.std.specs.Option.{option_map};
ghost use Rattle.code_model.specs.ImageFits.{AreMarksAfter};
ghost use Rattle.code_model.specs.Places.{checkpoint_of, label_at};
ghost use Rattle.follow.specs.Inner.Marked.{HasLabel, IsMarkOf, tested_tree};
ghost use Rattle.code_model.specs.declared.image.Mark.{Mark};
ghost use Rattle.follow.specs.Later.{marks_from};
ghost use Rattle.follow.specs.RightByViews.{HasMarksOf, IsTestOf};

use crate::trail::item_at;
use code_model::{Image, Mark};
use form_model::Flow;

/// The label of the first mark of an address, if it has one.
pub fn label_at(marks: &[Mark], address: u32) -> Option<Option<u32>>
    ensures { option_map checkpoint_of result ≡ label_at marks.now address }
{
    let (mark, rest) = marks.split_first()?;
    if mark.address == address {
        return Some(mark.label);
    }
    label_at(rest, address)
}

/// The marks from the first on that isn't below an address. A walk that goes up the addresses passes
/// each mark but once, where marks ascend.
pub fn marks_from(marks: &[Mark], low: u32) -> &[Mark]
    ensures is { result.now ≡ marks_from marks.now low }
    ensures same { (address : ℕ) → low ≤ address → label_at result.now address ≡ label_at marks.now address }
{
    let Some((mark, rest)) = marks.split_first() else {
        return marks;
    };
    if mark.address < low {
        return marks_from(rest, low);
    }
    marks
}

// The tree of a test.
pub(crate) fn tested_tree(item: Option<Flow>) -> Option<u32>
    ensures { result ≡ tested_tree item }
{
    match item {
        Some(Flow::Test { tree, .. }) => Some(tree),
        _ => None,
    }
}

// Whether a flow has the test of a tree.
pub(crate) fn has_test(flow: &[Flow], tree: u32) -> bool
    ensures { IsTrue result ↔ IsTestOf flow.now tree }
{
    for i in 0..flow.len() {
        if tested_tree(item_at(flow, i)) == Some(tree) {
            return true;
        }
    }
    false
}

// Whether some mark has a label.
pub(crate) fn has_label(marks: &[Mark], label: Option<u32>) -> bool
    ensures { IsTrue result ↔ HasLabel marks.now label }
{
    for i in 0..marks.len() {
        if marks[i].label == label {
            return true;
        }
    }
    false
}

// Whether a mark is that of a test of the flow, or of the end at the last of so many words.
fn is_mark_of(flow: &[Flow], words: usize, mark: Mark) -> bool
    ensures { IsTrue result ↔ IsMarkOf flow.now words mark }
{
    match mark.label {
        None => mark.address as usize + 1 == words,
        Some(tree) => has_test(flow, tree),
    }
}

// Whether all marks are.
fn are_marks_of(flow: &[Flow], words: usize, marks: &[Mark]) -> bool
    ensures { IsTrue result ↔ ((k : ℕ) (mark : Mark) → slice_get marks.now k ≡ Some mark → IsMarkOf flow.now words mark) }
{
    for i in 0..marks.len() {
        if !is_mark_of(flow, words, marks[i]) {
            return false;
        }
    }
    true
}

// Whether each test has a mark.
fn are_tests_marked(flow: &[Flow], marks: &[Mark]) -> bool
    ensures { IsTrue result ↔ ((k tree : ℕ) → tested_tree (slice_get flow.now k) ≡ Some tree → HasLabel marks.now (Some tree)) }
{
    for i in 0..flow.len() {
        if let Some(tree) = tested_tree(item_at(flow, i)) {
            if !has_label(marks, Some(tree)) {
                return false;
            }
        }
    }
    true
}

/// Whether the marks of an image, which ascend, are those of a flow.
pub fn has_marks_of(flow: &[Flow], image: &Image) -> bool
    requires order { AreMarksAfter None image.now.marks }
    requires some { 0 < length image.now.words }
    ensures { IsTrue result ↔ HasMarksOf flow.now image.now }
{
    let marks = image.marks.as_slice();
    if !are_marks_of(flow, image.words.len(), marks) {
        return false;
    }
    if !are_tests_marked(flow, marks) {
        return false;
    }
    has_label(marks, None)
}
