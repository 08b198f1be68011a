//! The tokens of a text.

ghost use Rattle.std.specs.Prelude.{◌≡◌, ◌^◌, ◌<◌, length, IfOk};
ghost use Rattle.lexing.specs.Laws.{AreTokens};
ghost use Rattle.lexing.specs.Tokens.{tokens_of};

use crate::piece::{Piece, piece_at};
use crate::{Kind, Language, Token};
use rec_bits::{Items, NoMemory};
use std::alloc::Global;

/// The tokens of a text, up to the first place where none begins: there one token of kind `Bad`
/// ends them. The only error is want of memory.
pub fn tokens(alloc: Global, language: &Language, bytes: &[u8]) -> Result<Items<Token>, NoMemory>
    requires { length bytes.now < 2 ^ 32 }
    ensures exact { IfOk result (λ list. list ≡ tokens_of language.now bytes.now) }
    ensures lawful { IfOk result (AreTokens language.now bytes.now) }
{
    let mut found = Items::new(alloc);
    let mut next = 0;
    'scan: while next < bytes.len() {
        let at = next as u64;
        match piece_at(language, &bytes[next..]) {
            Piece::Blank(length) => next += length,
            Piece::Whole(kind, length) => {
                let len = length as u32;
                found.push(Token { kind, at, len })?;
                next += length;
            }
            Piece::Wrong => {
                let kind = Kind::Bad;
                found.push(Token { kind, at, len: 1 })?;
                return Ok(found);
            }
        }
    }
    Ok(found)
}
