//! Single tokens.

ghost use Rattle.std.specs.Prelude.{◌≡◌, ◌↔◌, IsTrue, List, [], ◌∷◌, MatchOption, IfOk, IfErr};
ghost use Rattle.grammar.specs.declared.stop.ParseStop.TheVariants.{Memory};
ghost use Rattle.grammar.specs.Reading.{Gives, never};
ghost use Rattle.grammar.specs.Tokens.{Before, BeginsWith, Behind, IsName, IsNumber, Sign};

use crate::{Exact, Ident, Lexed, ParseStop, Word};
use rec_bits::Items;
use std::alloc::Global;

/// The first token and the others.
pub fn front<S, K>(ts: &[Lexed<S, K>]) -> Option<(&Lexed<S, K>, &[Lexed<S, K>])>
    ensures { MatchOption result (ts.now ≡ []) (λ p. ts.now ≡ p.0.now ∷ p.1.now) }
{
    match ts {
        [] => None,
        [t, rest @ ..] => Some((t, rest)),
    }
}

/// Whether the word is this symbol.
pub fn is_symbol<S: Exact, K>(word: &Word<S, K>, symbol: S) -> bool
    ensures { IsTrue result ↔ (word.now ≡ Word.Symbol symbol) }
{
    match word {
        Word::Symbol(found) => *found == symbol,
        _ => false,
    }
}

/// Whether the first token is this symbol.
pub fn begins_with<S: Exact, K>(symbol: S, ts: &[Lexed<S, K>]) -> bool
    ensures { IsTrue result ↔ BeginsWith symbol ts.now }
{
    match front(ts) {
        Some((t, _)) => is_symbol(&t.word, symbol),
        None => false,
    }
}

/// What stands behind the symbol.
pub fn expect<S: Exact, K>(symbol: S, ts: &[Lexed<S, K>]) -> Result<&[Lexed<S, K>], ParseStop>
    ensures { Gives (λ rest. (tt, rest.now)) (Sign symbol) never ts.now result }
{
    let Some((t, rest)) = front(ts) else {
        return Err(ParseStop::At(0));
    };
    if is_symbol(&t.word, symbol) {
        Ok(rest)
    } else {
        Err(ParseStop::At(ts.len()))
    }
}

/// A name.
pub fn name<S, K>(alloc: Global, ts: &[Lexed<S, K>]) -> Result<(Ident, &[Lexed<S, K>]), ParseStop>
    ensures { Gives (λ x. (x.0, x.1.now)) IsName never ts.now result }
{
    let Some((t, rest)) = front(ts) else {
        return Err(ParseStop::At(0));
    };
    let Word::Name(name) = &t.word else {
        return Err(ParseStop::At(ts.len()));
    };
    let name = Items::from_slice(alloc, name.as_slice())?;
    Ok((Ident { name, at: t.at }, rest))
}

/// A number.
pub fn number<S, K>(ts: &[Lexed<S, K>]) -> Result<(u64, &[Lexed<S, K>]), ParseStop>
    ensures { Gives (λ x. (x.0, x.1.now)) IsNumber never ts.now result }
{
    let Some((t, rest)) = front(ts) else {
        return Err(ParseStop::At(0));
    };
    match t.word {
        Word::Number(n) => Ok((n, rest)),
        _ => Err(ParseStop::At(ts.len())),
    }
}

/// A symbol and a name.
pub fn name_behind<S: Exact, K>(
    alloc: Global,
    symbol: S,
    ts: &[Lexed<S, K>],
) -> Result<(Ident, &[Lexed<S, K>]), ParseStop>
    ensures { Gives (λ x. (x.0, x.1.now)) (Behind symbol IsName) never ts.now result }
{
    let rest = expect(symbol, ts)?;
    name(alloc, rest)
}

/// A symbol and a number.
pub fn number_behind<S: Exact, K>(
    symbol: S,
    ts: &[Lexed<S, K>],
) -> Result<(u64, &[Lexed<S, K>]), ParseStop>
    ensures { Gives (λ x. (x.0, x.1.now)) (Behind symbol IsNumber) never ts.now result }
{
    let rest = expect(symbol, ts)?;
    number(rest)
}

/// A number between two symbols.
pub fn number_between<S: Exact, K>(
    first: S,
    last: S,
    ts: &[Lexed<S, K>],
) -> Result<(u64, &[Lexed<S, K>]), ParseStop>
    ensures { Gives (λ x. (x.0, x.1.now)) (Before (Behind first IsNumber) last) never ts.now result }
{
    let (number, rest) = number_behind(first, ts)?;
    let rest = expect(last, rest)?;
    Ok((number, rest))
}
