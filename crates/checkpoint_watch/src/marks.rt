//! The marks of an image.

ghost use Rattle.std.specs.Prelude.{◌≡◌, None};
ghost use Rattle.code_model.specs.ImageFits.{AreMarksAfter};
ghost use Rattle.code_model.specs.Places.{checkpoint_of, label_at};

use code_model::Mark;
use src_model::Checkpoint;

fn checkpoint_of(label: Option<u32>) -> Checkpoint
    ensures { result ≡ checkpoint_of label }
{
    match label {
        Some(tree) => Checkpoint::At(tree),
        None => Checkpoint::End,
    }
}

/// The label of an address, which is looked up by halving the marks.
pub(crate) fn label_at(marks: &[Mark], address: u64) -> Option<Checkpoint>
    requires { AreMarksAfter None marks.now }
    ensures { result ≡ label_at marks.now address }
{
    match marks.binary_search_by_key(&address, |mark| u64::from(mark.address)) {
        Ok(place) => Some(checkpoint_of(marks[place].label)),
        Err(_) => None,
    }
}
