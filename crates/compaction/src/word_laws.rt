//! Laws of the words of forms, proved here once for every crate above.

ghost use Rattle.compaction.specs.Laws.{JumpsHaveWords, StepsHaveWords};

/// Steps of plain forms whose clobbers spare what is still needed have words that fit, where each
/// group has one step.
pub fn law_of_forms()
    ensures { StepsHaveWords }
{}

/// A jump or a branch has a word for every setting of its form.
pub fn law_of_jumps()
    ensures { JumpsHaveWords }
{}
