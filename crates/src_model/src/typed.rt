//! Programs that were checked.

ghost use Rattle.std.specs.Prelude.{◌≡◌, ◌≤◌, None};
ghost use Rattle.src_model.specs.Written.{model_of_program};
ghost use Rattle.src_model.specs.Rules.{KeepsSrcRules, first_fault, temp_count};
ghost use Rattle.src_model.specs.declared.typed.SrcFault2.{SrcFault2};

use crate::sizes::block_sizes;
use crate::{Program, SrcFault};
use rec_bits::NoMemory;

/// A program that keeps the rules S1 to S6 for words of so many bits, 1 to 64.
#[derive(Drop)]
pub struct Typed {
    program: Program,
    width: u8,
    ghost some: { 1 ≤ width },
    ghost most: { width ≤ 64 },
    ghost kept: { first_fault width (model_of_program program) ≡ None },
}

impl Typed {
    /// A program that keeps the rules for words of `width` bits, 1 to 64.
    pub fn new(program: Program, width: u8) -> Typed
        requires { KeepsSrcRules width program }
        ensures program { result.program ≡ program }
        ensures width { result.width ≡ width }
    {
        Typed { program, width }
    }

    /// The program.
    pub fn program(&self) -> &Program
        ensures value { result.now ≡ self.now.program }
        ensures kept { KeepsSrcRules self.now.width self.now.program }
    {
        &self.program
    }

    /// The number of bits of a word.
    pub fn width(&self) -> u8
        ensures value { result ≡ self.now.width }
        ensures kept { KeepsSrcRules self.now.width self.now.program }
    {
        self.width
    }

    /// The number of temporary cells: the greatest number of nodes of a word's width below the root
    /// of a tree, where a read at a literal address isn't counted.
    pub fn temps(&self) -> u32
        ensures { result ≡ temp_count self.now.width (model_of_program self.now.program) }
    {
        block_sizes(u64::from(self.width), &self.program.body).temps as u32
    }
}

/// Why a program was not taken.
#[derive(Clone, Copy, Debug, PartialEq, Eq)]
pub enum SrcFault2 {
    /// The first rule that is broken.
    Fault(SrcFault),
    /// Want of memory.
    Memory,
}

impl From<NoMemory> for SrcFault2 {
    ghost from_gives = { λ _ fault. fault ≡ SrcFault2.Memory };

    fn from(_cause: NoMemory) -> SrcFault2 {
        SrcFault2::Memory
    }
}
