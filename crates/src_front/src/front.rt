//! Programs from bytes.

ghost use Rattle.std.specs.Prelude.{◌≡◌, ℕ, ◌^◌, ◌<◌, ◌≤◌, length, IfOk, IfErr};
ghost use Rattle.src_model.specs.Written.{model_of_program};
ghost use Rattle.src_front.specs.Fronts.{SaysSrc, IsSrcFile, IsSrcRefusal};

use rec_bits::ParseFault;
use src_check::check;
use src_model::{Program, SrcFault, SrcFault2, Typed};
use std::alloc::Global;

/// Why bytes were not taken as a program.
#[derive(Clone, Copy, Debug, PartialEq, Eq)]
pub enum SrcRefusal {
    /// They are no program text; the offset at which that shows.
    Text(u64),
    /// They are one, and this is the first rule that it breaks.
    Fault(SrcFault),
    /// Want of memory.
    Memory,
}

// The program that the bytes say.
fn program(alloc: Global, bytes: &[u8]) -> Result<Program, SrcRefusal>
    requires { length bytes.now < 2 ^ 32 }
    ensures found { IfOk result (λ program. SaysSrc bytes.now (model_of_program program)) }
    ensures refused { (width : ℕ) → IfErr result (IsSrcRefusal bytes.now width) }
{
    match src_parser::read(alloc, bytes) {
        Ok(program) => Ok(program),
        Err(ParseFault::Text(at)) => Err(SrcRefusal::Text(at)),
        Err(ParseFault::Memory) => Err(SrcRefusal::Memory),
    }
}

/// The program of a text, checked for words of `width` bits, 1 to 64. `Text` comes exactly where
/// the bytes are no program text, with the offset of the first token such that those before it
/// begin some text and with it they don't, or the length of the bytes where all of them begin one.
/// `Fault` comes exactly where they are one that breaks a rule, with the first. `Memory` is want of
/// memory.
pub fn read_src(alloc: Global, bytes: &[u8], width: u8) -> Result<Typed, SrcRefusal>
    requires short { length bytes.now < 2 ^ 32 }
    requires some { 1 ≤ width }
    requires most { width ≤ 64 }
    ensures found { IfOk result (λ typed. IsSrcFile bytes.now width (model_of_program typed.program)) }
    ensures width { IfOk result (λ typed. typed.width ≡ width) }
    ensures refused { IfErr result (IsSrcRefusal bytes.now width) }
{
    let program = program(alloc, bytes)?;
    match check(alloc, program, width) {
        Ok(typed) => Ok(typed),
        Err(SrcFault2::Fault(fault)) => Err(SrcRefusal::Fault(fault)),
        Err(SrcFault2::Memory) => Err(SrcRefusal::Memory),
    }
}
