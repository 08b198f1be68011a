//! Laws of texts that are disassembled.

ghost use Rattle.asm_command.specs.Laws.{ClocksAlike, IsTaken, ReadsAgain};

/// The text that is written of lines says these lines.
pub fn law_of_reading()
    ensures { ReadsAgain }
{}

/// A text that was disassembled is assembled wherever there is memory: each of its lines has a
/// word.
pub fn law_of_taking()
    ensures { IsTaken }
{}

/// The words that are assembled of it clock as those of the image do, in every state.
pub fn law_of_clocks()
    ensures { ClocksAlike }
{}
