//! The tokens of netlists.
//!
//! Promise: `tokens` gives the tokens of a netlist's text as `net_tokens` defines them (`exact`),
//! and says the same of each by itself (`lawful`: `AreTokens`), up to the first place where none
//! begins. The only refusal is want of memory.
//!
//! Files:
//!
//! - `lib`: the reserved words and the signs of netlists, and `tokens`, which is that of `lexing`
//!   for them.
//! - `specs/`: `Netlists`, cited by public contracts, has the same table once more, as a
//!   definition; the proof of `language` holds the two against each other.
//! - `proofs/`: empty but for its root; the laws are those of `lexing`.
#![tactic(auto)]

ghost use Rattle.std.specs.Prelude.{◌≡◌, ◌^◌, ◌<◌, length, IfOk};
ghost use Rattle.lexing.specs.Laws.{AreTokens};
ghost use Rattle.net_lexer.specs.Netlists.{netlists, net_tokens};

use lexing::Language;
pub use lexing::{Kind, Token};
use rec_bits::{Items, NoMemory};
use std::alloc::Global;

const RESERVED: [&str; 35] = [
    "code", "register", "memory", "net", "bus", "module", "part", "size", "at", "in", "out",
    "when", "addr", "write", "case", "else", "read", "slice", "zext", "sext", "cat", "add", "sub",
    "mul", "and", "or", "xor", "not", "neg", "shl", "shr", "sar", "eq", "ltu", "lts",
];

const SIGNS: [&str; 12] = [":", ";", ",", "=", ".", "#", "(", ")", "{", "}", "[", "]"];

#[tactic(auto, unfolding(crate::specs::Netlists::netlists))]
fn language() -> Language<'static>
    ensures { result ≡ netlists }
{
    Language::new(&RESERVED, &SIGNS)
}

/// The tokens of a netlist's text, up to the first place where none begins: there one token of kind
/// `Bad` ends them. The only error is want of memory.
pub fn tokens(alloc: Global, bytes: &[u8]) -> Result<Items<Token>, NoMemory>
    requires { length bytes.now < 2 ^ 32 }
    ensures exact { IfOk result (λ list. list ≡ net_tokens bytes.now) }
    ensures lawful { IfOk result (AreTokens netlists bytes.now) }
{
    lexing::tokens(alloc, &language(), bytes)
}
