//! The tokens of programs.
//!
//! Promise: `tokens` gives the tokens of a program's text as `src_tokens` defines them (`exact`),
//! and says the same of each by itself (`lawful`: `AreTokens`), up to the first place where none
//! begins. The only refusal is want of memory.
//!
//! Files:
//!
//! - `lib`: the reserved words and the signs of programs, and `tokens`, which is that of `lexing`
//!   for them.
//! - `specs/`: `Programs`, cited by public contracts, has the same table once more, as a
//!   definition; the proof of `language` holds the two against each other.
//! - `proofs/`: empty but for its root; the laws are those of `lexing`.
#![tactic(auto)]

ghost use Rattle.std.specs.Prelude.{◌≡◌, ◌^◌, ◌<◌, length, IfOk};
ghost use Rattle.lexing.specs.Laws.{AreTokens};
ghost use Rattle.src_lexer.specs.Programs.{programs, src_tokens};

use lexing::Language;
pub use lexing::{Kind, Token};
use rec_bits::{Items, NoMemory};
use std::alloc::Global;

const RESERVED: [&str; 13] = [
    "var", "if", "else", "while", "for", "to", "zext", "sext", "low", "slt", "sle", "sgt", "sge",
];

const SIGNS: [&str; 25] = [
    "=", ";", ",", "[", "]", "{", "}", "(", ")", "==", "!=", "<", "<=", ">", ">=", "|", "^", "&",
    "<<", ">>", ">>>", "+", "-", "*", "~",
];

#[tactic(auto, unfolding(crate::specs::Programs::programs))]
fn language() -> Language<'static>
    ensures { result ≡ programs }
{
    Language::new(&RESERVED, &SIGNS)
}

/// The tokens of a program's text, up to the first place where none begins: there one token of kind
/// `Bad` ends them. The only error is want of memory.
pub fn tokens(alloc: Global, bytes: &[u8]) -> Result<Items<Token>, NoMemory>
    requires { length bytes.now < 2 ^ 32 }
    ensures exact { IfOk result (λ list. list ≡ src_tokens bytes.now) }
    ensures lawful { IfOk result (AreTokens programs bytes.now) }
{
    lexing::tokens(alloc, &language(), bytes)
}
