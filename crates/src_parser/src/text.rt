//! Texts, from their bytes.

ghost use Rattle.std.specs.Prelude.{◌≡◌, ◌^◌, ◌<◌, length, IfOk, IfErr, MatchResult};
ghost use Rattle.rec_bits.specs.declared.fault.ParseFault.{ParseFault};
ghost use Rattle.src_model.specs.Written.{ProgramModel, model_of_program};
ghost use Rattle.src_parser.specs.Texts.{IsSrcText, IsSrcTextFault};

use crate::whole::parse;
use rec_bits::ParseFault;
use src_lexer::tokens;
use src_model::Program;
use std::alloc::Global;

/// The program of a text. `Text` comes exactly where the bytes are none, with the offset of the
/// first token such that those before it begin some text and with it they don't, or the length of
/// the bytes where all of them begin one. `Memory` is want of memory.
pub fn read(alloc: Global, bytes: &[u8]) -> Result<Program, ParseFault>
    requires { length bytes.now < 2 ^ 32 }
    // What is answered is what the bytes say.
    ensures found { IfOk result (λ program. IsSrcText bytes.now (model_of_program program)) }

    // Whatever they say is answered, and nothing else, unless memory runs out.
    ensures only { (model : ProgramModel) → IsSrcText bytes.now model →
        MatchResult result (λ program. model_of_program program ≡ model) (λ fault. fault ≡ ParseFault.Memory) }

    // Where they are no text, the fault is at the first token that shows it.
    ensures fault { IfErr result (IsSrcTextFault bytes.now) }
{
    let tokens = tokens(alloc, bytes)?;
    parse(alloc, bytes, &tokens)
}
