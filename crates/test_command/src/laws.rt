//! What follows of words that are made for a netlist.

ghost use Rattle.test_command.specs.Laws.{MadeIsRight, WordsHaveOneText};

/// A self-test that is made for a netlist is right where the memory has the cells that it needs and
/// the code has room for its words: the run without a fault doesn't clash, and leaves the value of
/// each tested candidate's tree in its cell.
pub fn law_of_words()
    ensures { MadeIsRight }
{}

/// Two texts that self-tests of a netlist may have differ only where their words do.
pub fn law_of_texts()
    ensures { WordsHaveOneText }
{}
