//! Expressions without levels.

ghost use Rattle.std.specs.Prelude.{◌≡◌};
ghost use Rattle.grammar.specs.Reading.{Gives, Maybe, never};
ghost use Rattle.grammar.specs.declared.words.Word.TheVariants.{Name as IsNamed, Number as IsNumbered};
ghost use Rattle.net_model.specs.declared.words.Symbol.TheVariants.{Colon, LeftBracket, RightBracket};
ghost use Rattle.grammar.specs.Tokens.{Before, Behind, IsNumber};
ghost use Rattle.net_model.specs.Grammar.{IsBits, IsField, IsLeaf, IsRange, LeafBehind, slice_ends};
ghost use Rattle.net_model.specs.Written.{model_of_net_expr};
ghost use Rattle.net_parser.specs.Inner.Steps.{after_expr, after_field, after_range};

use grammar::{ParseStop, begins_with, expect, front, name_behind, number, number_behind};
use net_model::{Ident, Lexed, NetExpr, Symbol, Word};
use rec_bits::{Items, Name};
use std::alloc::Global;

/// A name behind a dot, if there is one.
fn field(alloc: Global, ts: &[Lexed]) -> Result<(Option<Ident>, &[Lexed]), ParseStop>
    ensures { Gives (λ x. (x.0, x.1.now)) IsField after_field ts.now result }
{
    if begins_with(Symbol::Dot, ts) {
        let (field, rest) = name_behind(alloc, Symbol::Dot, ts)?;
        Ok((Some(field), rest))
    } else {
        Ok((None, ts))
    }
}

/// The second number of a bracket, if there is one.
fn low_bit(ts: &[Lexed]) -> Result<(Option<u64>, &[Lexed]), ParseStop>
    ensures { Gives (λ x. (x.0, x.1.now)) (Maybe (Behind Colon IsNumber)) after_range ts.now result }
{
    if begins_with(Symbol::Colon, ts) {
        let (low, rest) = number_behind(Symbol::Colon, ts)?;
        Ok((Some(low), rest))
    } else {
        Ok((None, ts))
    }
}

/// Both numbers of a bracket.
fn range_from(high: u64, low: Option<u64>) -> (u64, u64)
    ensures { result ≡ slice_ends high low }
{
    match low {
        Some(low) => (high, low),
        None => (high, high),
    }
}

/// What stands in a bracket.
fn range(ts: &[Lexed]) -> Result<((u64, u64), &[Lexed]), ParseStop>
    ensures { Gives (λ x. (x.0, x.1.now)) IsRange after_range ts.now result }
{
    let (high, rest) = number(ts)?;
    let (low, rest) = low_bit(rest)?;
    Ok((range_from(high, low), rest))
}

/// A bracket.
fn bracket(ts: &[Lexed]) -> Result<((u64, u64), &[Lexed]), ParseStop>
    ensures { Gives (λ x. (x.0, x.1.now)) (Behind LeftBracket (Before IsRange RightBracket)) never ts.now result }
{
    let rest = expect(Symbol::LeftBracket, ts)?;
    let (range, rest) = range(rest)?;
    let rest = expect(Symbol::RightBracket, rest)?;
    Ok((range, rest))
}

/// A bracket, if there is one.
fn bits(ts: &[Lexed]) -> Result<(Option<(u64, u64)>, &[Lexed]), ParseStop>
    ensures { Gives (λ x. (x.0, x.1.now)) IsBits after_expr ts.now result }
{
    if begins_with(Symbol::LeftBracket, ts) {
        let (bits, rest) = bracket(ts)?;
        Ok((Some(bits), rest))
    } else {
        Ok((None, ts))
    }
}

/// What follows a name.
fn named<'a>(
    alloc: Global,
    name: &Name,
    at: u64,
    ts: &'a [Lexed],
) -> Result<(NetExpr, &'a [Lexed]), ParseStop>
    ensures { Gives (λ x. (model_of_net_expr x.0, x.1.now)) (LeafBehind (IsNamed name.now) at) after_expr ts.now result }
{
    let (field, rest) = field(alloc, ts)?;
    let (bits, rest) = bits(rest)?;
    let name = Items::from_slice(alloc, name.as_slice())?;
    let name = Ident { name, at };
    Ok((NetExpr::Named { name, field, bits }, rest))
}

/// What follows a number.
fn constant(value: u64, at: u64, ts: &[Lexed]) -> Result<(NetExpr, &[Lexed]), ParseStop>
    ensures { Gives (λ x. (model_of_net_expr x.0, x.1.now)) (LeafBehind (IsNumbered value) at) after_expr ts.now result }
{
    let (width, rest) = number_behind(Symbol::Hash, ts)?;
    Ok((NetExpr::Const { value, width }, rest))
}

/// A name with its field and bits, or a constant.
pub fn leaf(alloc: Global, ts: &[Lexed]) -> Result<(NetExpr, &[Lexed]), ParseStop>
    ensures { Gives (λ x. (model_of_net_expr x.0, x.1.now)) IsLeaf after_expr ts.now result }
{
    let Some((t, rest)) = front(ts) else {
        return Err(ParseStop::At(0));
    };
    match &t.word {
        Word::Name(name) => named(alloc, name, t.at, rest),
        Word::Number(value) => constant(*value, t.at, rest),
        _ => Err(ParseStop::At(ts.len())),
    }
}
