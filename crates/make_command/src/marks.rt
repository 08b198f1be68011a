//! The mark of the end.

ghost use Rattle.std.specs.Prelude.{◌≡◌};
ghost use Rattle.make_command.specs.Inner.Marks.{end_address};

use code_model::Mark;

// The address at which the end is marked, if it is.
pub(crate) fn end_address(marks: &[Mark]) -> Option<u64>
    ensures { result ≡ end_address marks.now }
{
    for mark in marks {
        if mark.label.is_none() {
            return Some(u64::from(mark.address));
        }
    }
    None
}
