//! The words that tokens stand for.

ghost use Rattle.std.specs.Prelude.{◌≡◌, ℕ, List, IfOk};
ghost use Rattle.grammar.specs.declared.words.Word.{Word};
ghost use Rattle.lexing.specs.Words.{lexed_all, lexed_of, word_of};

use crate::{Kind, Token, number_of};
use grammar::{Lexed, Word};
use rec_bits::{Items, NoMemory};
use std::alloc::Global;

/// What the reserved words and the signs of a language stand for.
pub trait Vocabulary<S, K> {
    ghost reserved: { List ℕ → Word S K };

    ghost sign: { List ℕ → Word S K };

    /// The word of a reserved word's bytes, `Other` of other bytes.
    fn reserved(text: &[u8]) -> Word<S, K>
        ensures { result ≡ reserved text.now };

    /// The word of a sign's bytes, `Other` of other bytes.
    fn sign(text: &[u8]) -> Word<S, K>
        ensures { result ≡ sign text.now };
}

/// The word of a token's bytes.
fn word_of<S, K, V: Vocabulary<S, K>>(
    alloc: Global,
    kind: Kind,
    text: &[u8],
) -> Result<Word<S, K>, NoMemory>
    ensures { IfOk result (λ word. word ≡ word_of V.reserved V.sign kind text.now) }
{
    Ok(match kind {
        Kind::Name => Word::Name(Items::from_slice(alloc, text)?),
        Kind::Reserved => V::reserved(text),
        Kind::Number => Word::Number(number_of(text)),
        Kind::Sign => V::sign(text),
        Kind::Bad => Word::Other,
    })
}

/// The tokens of a text, each with the word that it is.
pub fn lexed<S: Drop, K: Drop, V: Vocabulary<S, K>>(
    alloc: Global,
    bytes: &[u8],
    tokens: &[Token],
) -> Result<Vec<Lexed<S, K>>, NoMemory>
    ensures { IfOk result (λ list. list.items ≡ lexed_all V.reserved V.sign bytes.now tokens.now) }
{
    let mut list = Vec::new(alloc);
    for token in tokens {
        let word = word_of::<S, K, V>(alloc, token.kind, token.bytes(bytes))?;
        list.push(Lexed { word, at: token.at })?;
    }
    Ok(list)
}
