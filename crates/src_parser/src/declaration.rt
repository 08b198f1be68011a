//! Declarations.

ghost use Rattle.std.specs.Prelude.{◌≡◌};
ghost use Rattle.grammar.specs.Reading.{Gives, Maybe, never};
ghost use Rattle.src_model.specs.declared.words.Symbol.TheVariants.{LeftBracket, RightBracket};
ghost use Rattle.grammar.specs.Tokens.{Before, Behind, IsNumber};
ghost use Rattle.src_model.specs.Grammar.{DeclsBehind, IsDecl, IsDecls, IsLines};
ghost use Rattle.src_parser.specs.Inner.Steps.{after_decl, after_decls, after_lines};

use grammar::{ParseStop, begins_with, expect, keeping, name, number_between};
use src_model::{Lexed, Symbol, Var};
use std::alloc::Global;

/// The length of an array, in its bracket.
fn bracketed(ts: &[Lexed]) -> Result<(u64, &[Lexed]), ParseStop>
    ensures { Gives (λ x. (x.0, x.1.now)) (Behind LeftBracket (Before IsNumber RightBracket)) never ts.now result }
{
    number_between(Symbol::LeftBracket, Symbol::RightBracket, ts)
}

/// The length of an array, if there is one.
fn length(ts: &[Lexed]) -> Result<(Option<u64>, &[Lexed]), ParseStop>
    ensures { Gives (λ x. (x.0, x.1.now))
        (Maybe (Behind LeftBracket (Before IsNumber RightBracket))) after_decl ts.now result }
{
    if begins_with(Symbol::LeftBracket, ts) {
        let (len, rest) = bracketed(ts)?;
        Ok((Some(len), rest))
    } else {
        Ok((None, ts))
    }
}

/// A name with its length.
fn declared(alloc: Global, ts: &[Lexed]) -> Result<(Var, &[Lexed]), ParseStop>
    ensures { Gives (λ x. (x.0, x.1.now)) IsDecl after_decl ts.now result }
{
    let (ident, rest) = name(alloc, ts)?;
    let (len, rest) = length(rest)?;
    let var = Var {
        name: ident.name,
        at: ident.at,
        len,
    };
    Ok((var, rest))
}

/// A symbol, and a name with its length.
fn declared_behind(
    alloc: Global,
    symbol: Symbol,
    ts: &[Lexed],
) -> Result<(Var, &[Lexed]), ParseStop>
    ensures { Gives (λ x. (x.0, x.1.now)) (Behind symbol IsDecl) after_decl ts.now result }
{
    let rest = expect(symbol, ts)?;
    declared(alloc, rest)
}

/// The variables of a line behind its first one.
fn others(alloc: Global, first: Var, ts: &[Lexed]) -> Result<(Vec<Var>, &[Lexed]), ParseStop>
    ensures { Gives (λ x. (x.0.items, x.1.now)) (DeclsBehind first) after_decls ts.now result }
{
    let mut vars = Vec::new(alloc);
    vars.push(first)?;
    let mut rest = ts;
    'others: while begins_with(Symbol::Comma, rest) {
        let (other, next) = declared_behind(alloc, Symbol::Comma, rest)?;
        vars.push(other)?;
        rest = next;
    }
    Ok((vars, rest))
}

/// The variables of a line.
fn line(alloc: Global, ts: &[Lexed]) -> Result<(Vec<Var>, &[Lexed]), ParseStop>
    ensures { Gives (λ x. (x.0.items, x.1.now)) IsDecls never ts.now result }
{
    let (first, rest) = declared_behind(alloc, Symbol::Var, ts)?;
    let (vars, rest) = others(alloc, first, rest)?;
    keeping(vars, expect(Symbol::Semicolon, rest))
}

/// The variables of all lines.
pub fn lines(alloc: Global, ts: &[Lexed]) -> Result<(Vec<Var>, &[Lexed]), ParseStop>
    ensures { Gives (λ x. (x.0.items, x.1.now)) IsLines after_lines ts.now result }
{
    let mut vars = Vec::new(alloc);
    let mut rest = ts;
    'lines: while begins_with(Symbol::Var, rest) {
        let (mut line, next) = line(alloc, rest)?;
        vars.append(&mut line)?;
        rest = next;
    }
    Ok((vars, rest))
}
