//! Laws of forms, proved here once for every crate above.

ghost use Rattle.form_set.specs.Laws.{ClobbersHaveCounter, ClobbersHaveOwn, FormsAreOfPatterns, FormsAreOne, NoJumpForm, NoPlainForm, ReachIsExact, SettingsAreOfShapes, SettingsHaveWords};

/// Patterns have one list of forms and one greatest reach.
pub fn law_of_lists()
    ensures { FormsAreOne }
{}

/// Each form of the list is one of the pattern whose number it has.
pub fn law_of_forms()
    ensures { FormsAreOfPatterns }
{}

/// For every setting of a plain form some word does its transfer, steps, keeps the data memory
/// and the register file unless that is what it writes, and keeps each register that is no
/// clobber; a register that it writes is a clobber, and so is the program counter.
pub fn law_of_words()
    ensures words { SettingsHaveWords }
    ensures own { ClobbersHaveOwn }
    ensures counter { ClobbersHaveCounter }
{}

/// A list has no form but jumps and branches exactly where no pattern is plain, and no jump exactly
/// where no pattern is one.
pub fn law_of_absence()
    ensures plain { NoPlainForm }
    ensures jumps { NoJumpForm }
{}

/// The bits that give a field shape a value are bits of the shape, and each word with these bits
/// gives it the value.
pub fn law_of_settings()
    ensures { SettingsAreOfShapes }
{}

/// The reach that is told of a jump is the least address that no word gives its target.
pub fn law_of_reach()
    ensures { ReachIsExact }
{}
